// Files by their names. A name that is not UTF-8 names no file here: the library takes paths as text.
ghost use Rattle.std.specs.Prelude.{◌≡◌, IfOk};
ghost use Rattle.std.specs.Io.{StartsWith};

use crate::streams::write_all;
use std::fmt::InlineText;
use std::fs::{File, OpenOptions};
use std::io::Error;
use std::rt::Files;
use std::{fs, io, str};

// What Linux says of a name that is no text.
const EILSEQ: i32 = 84;

fn path(name: &[u8]) -> io::Result<&str>
    ensures { IfOk result (λ path. path.now ≡ name.now) }
{
    str::from_utf8(name).map_err(|_| Error::from_raw_os_error(EILSEQ))
}

// Open for reading.
pub fn open<R: Files>(files: &R, name: &[u8]) -> io::Result<R::File> {
    File::open(files, path(name)?)
}

// Made, and open for writing; an error where the name is taken.
pub fn create<R: Files>(files: &R, name: &[u8]) -> io::Result<R::File> {
    OpenOptions::new()
        .write(true)
        .create_new(true)
        .open(files, path(name)?)
}

pub fn rename(files: &impl Files, from: &[u8], to: &[u8]) -> io::Result<()> {
    fs::rename(files, path(from)?, path(to)?)
}

pub fn remove(files: &impl Files, name: &[u8]) -> io::Result<()> {
    fs::remove_file(files, path(name)?)
}

// What went wrong, in the system's words and without its number.
fn words(message: &str) -> &str
    ensures { StartsWith message.now result.now }
{
    match message.split_once(" (os error ") {
        Some((words, _)) => words,
        None => message,
    }
}

// A line of the name, a colon and what went wrong.
pub fn fail(to: &impl Print, name: &[u8], error: Error) {
    let message = InlineText::<256>::of(error);
    write_all(to, name);
    write_all(to, b": ");
    write_all(to, words(message.as_str()).as_bytes());
    write_all(to, b"\n");
}
