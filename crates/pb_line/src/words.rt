//! The words of the command line, the program's name first.
ghost use Rattle.std.specs.Prelude.{◌≡◌, map, IfOk, string_bytes};

use std::alloc::{Alloc, AllocError, Global};
use std::env::{self, Env};
use std::io;

/// The words that the system gives. Fails with the kind `OutOfMemory` where memory runs out, and with another kind where a word
/// is not UTF-8.
pub fn texts_of<R: Env + Alloc<A = Global>>(rt: &R) -> io::Result<Vec<String>> {
    let mut texts = Vec::new(rt.alloc());
    for text in env::args(rt)? {
        texts.push(text)?;
    }
    Ok(texts)
}

/// The words, borrowed from their texts.
pub fn words_of<'a>(alloc: Global, texts: &'a [String]) -> Result<Vec<&'a str>, AllocError>
    ensures { IfOk result (λ words. map (λ word. word.now) words.items ≡ map (λ text. string_bytes text) texts.now) }
{
    let mut words = Vec::new(alloc);
    for text in texts {
        words.push(text.as_str())?;
    }
    Ok(words)
}
