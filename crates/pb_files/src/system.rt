//! The files and folders of the system.
ghost use Rattle.std.specs.Prelude.{◌≡◌};

use crate::files::Files;
use crate::folders::Folders;
use std::alloc::{Alloc, Global};
use std::fs::{self, File};
use std::io::{self, Write};
use std::rt;

/// The files and folders of the system. No contract tells what they hold.
#[derive(Drop)]
pub struct SystemFiles<'a, R> {
    pub rt: &'a R,
}

impl<R: rt::Files + Alloc<A = Global>> Folders for SystemFiles<'_, R> {
    ghost reads = { λ folders name text after. after ≡ folders };

    ghost makes = { λ folders name after. after ≡ folders };

    ghost looks = { λ folders name there after. after ≡ folders };

    ghost writes = { λ folders name text after. after ≡ folders };

    fn read(&mut self, name: &str) -> io::Result<Vec<u8>> {
        fs::read(self.rt, name)
    }

    fn make_folder(&mut self, name: &str) -> io::Result<()> {
        fs::create_dir_all(self.rt, name)
    }

    fn exists(&mut self, name: &str) -> io::Result<bool> {
        fs::exists(self.rt, name)
    }

    fn write_new(&mut self, name: &str, text: &[u8]) -> io::Result<()> {
        let mut file = File::create_new(self.rt, name)?;
        file.write_all(text)
    }
}

impl<R: rt::Files + Alloc<A = Global> + Clone + Drop> Files for SystemFiles<'_, R> {
    ghost reads = { λ files name text after. after ≡ files };

    ghost lists = { λ files name found after. after ≡ files };

    fn read(&mut self, name: &str) -> io::Result<Vec<u8>> {
        fs::read(self.rt, name)
    }

    fn list(&mut self, name: &str) -> io::Result<Option<Vec<String>>> {
        if !fs::metadata(self.rt, name)?.is_dir() {
            return Ok(None);
        }
        let mut paths = Vec::new(self.rt.alloc());
        for entry in fs::read_dir(self.rt, name)? {
            paths.push(String::from_str(self.rt.alloc(), entry?.path().as_str())?)?;
        }
        Ok(Some(paths))
    }
}
