//! An instance, its pieces, and the digests of the texts that they were read from.

use pb_cubes::Pieces;
use pb_inst::Instance;

/// An instance, the pieces of it, the SHA-256 digest of the text that spells it, and that of the cube file's text, if there is one.
pub struct Prepared {
    pub instance: Instance,
    pub pieces: Pieces,
    pub digest: [u8; 32],
    pub cubes_digest: Option<[u8; 32]>,
}

impl Drop for Prepared {
    fn drop(self) {
        let Prepared {
            instance: _,
            pieces: _,
            digest: _,
            cubes_digest: _,
        } = self;
    }
}
