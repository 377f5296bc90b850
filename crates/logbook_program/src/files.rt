// The files that the arguments name. What the system answers is free: which file it is, whether it ends, whether it was written.
ghost use Rattle.std.specs.Prelude.{◌≡◌, length, drop};
ghost use Rattle.logbook_program.specs.Ruled.{Fits};

use crate::print::complaint;
use console::arguments::argument;
use console::files::{create, fail, remove, rename};
use console::streams::read_full;
use fronts::front_bytes;
use lines::text::put;
use std::fs::File;
use std::io;
use std::io::{ErrorKind, Read, Write};

// No item ends after byte 131,070; a part of a file, and the words of a rule, have the same room.
const LARGE: usize = 131072;

// Room for a record. Made here, so that what takes it need not look into it.
pub(crate) fn large() -> [u8; LARGE]
    ensures { 131072 ≡ length result }
{
    [0u8; LARGE]
}

// The bytes from n on.
pub(crate) fn back_bytes(bytes: &[u8], n: usize) -> &[u8]
    ensures { result.now ≡ drop n bytes.now }
{
    if n <= bytes.len() {
        return &bytes[n..];
    }
    &bytes[0..0]
}

// The file that argument i names, open for reading; None where a message was given.
pub(crate) fn open(rt: HostRuntime, i: usize) -> Option<File> {
    let mut name = [0u8; 4096];
    let n = argument(&rt, i, &mut name);
    let path = front_bytes(&name, n);
    match console::files::open(&rt, path) {
        Ok(file) => Some(file),
        Err(error) => {
            fail(&rt.stderr(), path, error);
            None
        }
    }
}

// Whether reading stopped because the file ends there, and not because it failed: half a rule may be a rule that says something else.
pub(crate) fn at_end(rt: HostRuntime, i: usize, file: &mut File) -> bool {
    let mut name = [0u8; 4096];
    let n = argument(&rt, i, &mut name);
    let mut more = [0u8; 1];
    match file.read(&mut more) {
        Ok(0) => return true,
        Ok(_) => complaint(rt, i, b": this file could not be read to its end\n"),
        Err(error) => fail(&rt.stderr(), front_bytes(&name, n), error),
    }
    false
}

// All of the file that argument i names, and how many bytes that is; None where a message was given. The room is one byte more than it
// may have.
pub(crate) fn load(rt: HostRuntime, i: usize, bytes: &mut [u8]) -> Option<usize>
    ensures { Fits result (length bytes.old) }
{
    let mut file = open(rt, i)?;
    let count = read_full(&mut file, bytes);
    if count < bytes.len() {
        if at_end(rt, i, &mut file) {
            return Some(count);
        }
        return None;
    }
    complaint(rt, i, b": this file is too long\n");
    None
}

// Whether nothing has the name that argument i gives, so that a new file may take it.
pub(crate) fn is_free(rt: HostRuntime, i: usize) -> bool {
    let mut name = [0u8; 4096];
    let n = argument(&rt, i, &mut name);
    let path = front_bytes(&name, n);
    match console::files::open(&rt, path) {
        Ok(_) => {
            complaint(
                rt,
                i,
                b": this file is there already, and nothing is overwritten\n",
            );
            false
        }
        Err(error) => {
            if error.kind() != ErrorKind::NotFound {
                fail(&rt.stderr(), path, error);
                return false;
            }
            true
        }
    }
}

// All bytes to the file, which is closed then; they are kept before this ends.
fn fill(mut file: File, bytes: &[u8]) -> io::Result<()> {
    let written = file.write_all(bytes);
    file.sync_all()?;
    written
}

// All bytes to a file that is made for them.
fn write_new(rt: HostRuntime, path: &[u8], bytes: &[u8]) -> bool {
    match create(&rt, path) {
        Err(error) => {
            fail(&rt.stderr(), path, error);
            false
        }
        Ok(file) => match fill(file, bytes) {
            Ok(()) => true,
            Err(error) => {
                fail(&rt.stderr(), path, error);
                let _ = remove(&rt, path);
                false
            }
        },
    }
}

// A new file under the name that argument i gives. It is written under another and renamed, so that a run that is interrupted leaves
// no part of a file under its name.
pub(crate) fn save(rt: HostRuntime, i: usize, bytes: &[u8]) -> bool {
    let mut name = [0u8; 4096];
    let n = argument(&rt, i, &mut name);
    let path = front_bytes(&name, n);
    let mut other = [0u8; 4096];
    let end = put(&mut other, 0, path);
    let last = put(&mut other, end, b".new");
    let draft = front_bytes(&other, last);
    if !write_new(rt, draft, bytes) {
        return false;
    }
    match rename(&rt, draft, path) {
        Ok(()) => true,
        Err(error) => {
            fail(&rt.stderr(), path, error);
            let _ = remove(&rt, draft);
            false
        }
    }
}
