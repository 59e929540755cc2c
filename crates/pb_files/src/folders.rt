//! The files that the texts of an instance and of its pieces come from and go to.
ghost use Rattle.std.specs.Prelude.{ℕ, Bool, List, IfOk, OnOk};
ghost use Rattle.pb_files.specs.Texts.{Text};

use std::io;

/// Files and folders by name. What a call does is a relation of the value before and after.
pub trait Folders {
    /// What reading the file of a name does, and the bytes that it has.
    ghost reads: { Self → Text → List ℕ → Self → Type 0 };

    /// What making the folder of a name does.
    ghost makes: { Self → Text → Self → Type 0 };

    /// What looking for a name does, and whether there is a file or a folder of it.
    ghost looks: { Self → Text → Bool → Self → Type 0 };

    /// What making a file of a name with these bytes does.
    ghost writes: { Self → Text → List ℕ → Self → Type 0 };

    /// All bytes of the file of this name.
    fn read(&mut self, name: &str) -> io::Result<Vec<u8>>
        ensures { IfOk result (λ text. reads self.old name.now text.items self.new) };

    /// Makes the folder of this name, and those that it lies in, where they are missing.
    fn make_folder(&mut self, name: &str) -> io::Result<()>
        ensures { OnOk result (makes self.old name.now self.new) };

    /// Whether there is a file or a folder of this name.
    fn exists(&mut self, name: &str) -> io::Result<bool>
        ensures { IfOk result (λ there. looks self.old name.now there self.new) };

    /// Makes a file of this name that has these bytes. Fails where there is such a file, and leaves it as it is. Where a write
    /// fails, the new file may have a part of the bytes.
    fn write_new(&mut self, name: &str, text: &[u8]) -> io::Result<()>
        ensures { OnOk result (writes self.old name.now text.now self.new) };
}
