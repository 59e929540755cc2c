//! One module for each crate that is tested.

mod exchanges;
mod folders;
mod note_texts;
mod parts;
mod reading;
mod writing;
