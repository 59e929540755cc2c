//! A whole instance, and the digest of its text.
use pb_inst::Instance;

/// A whole instance, and the SHA-256 digest of the text that spells it.
pub struct Whole {
    pub instance: Instance,
    pub digest: [u8; 32],
}

impl Drop for Whole {
    fn drop(self) {
        let Whole {
            instance: _,
            digest: _,
        } = self;
    }
}
