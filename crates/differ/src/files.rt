// The files that the arguments name. What they hold is free: it is what the system reads.
ghost use Rattle.std.specs.Prelude.{◌≤◌, length};

use console::arguments::argument;
use console::files::open;
use console::streams::read_full;
use fronts::front_bytes;
use std::rt::{Env, Files};

// As many bytes of a file as there is room for, none where it can't be read; how many they are.
fn read_path(rt: &impl Files, path: &[u8], bytes: &mut [u8]) -> usize
    ensures { result ≤ length bytes.new }
{
    match open(rt, path) {
        Ok(mut file) => read_full(&mut file, bytes),
        Err(_) => 0,
    }
}

// The same of the file that argument i names.
pub(crate) fn read_file(rt: &(impl Env + Files), i: usize, bytes: &mut [u8]) -> usize
    ensures { result ≤ length bytes.new }
{
    let mut name = [0u8; 4096];
    let n = argument(rt, i, &mut name);
    read_path(rt, front_bytes(&name, n), bytes)
}
