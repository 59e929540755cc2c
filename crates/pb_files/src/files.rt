//! The files that an instance and reports come from.
ghost use Rattle.std.specs.Prelude.{ℕ, List, Option, IfOk};
ghost use Rattle.pb_files.specs.Texts.{Text, texts_found};

use std::io;

/// Reads files and folders by name.
pub trait Files {
    /// What reading the file of a name does, and the bytes that it has, as a relation of the value before and after.
    ghost reads: { Self → Text → List ℕ → Self → Type 0 };

    /// What looking for the folder of a name does, and the paths of what lies in it, or nothing where it is no folder.
    ghost lists: { Self → Text → Option (List Text) → Self → Type 0 };

    /// All bytes of the file of this name.
    fn read(&mut self, name: &str) -> io::Result<Vec<u8>>
        ensures { IfOk result (λ text. reads self.old name.now text.items self.new) };

    /// The paths of what lies in the folder of this name, in any order, or nothing where it is no folder.
    fn list(&mut self, name: &str) -> io::Result<Option<Vec<String>>>
        ensures { IfOk result (λ found. lists self.old name.now (texts_found found) self.new) };
}
