// What differs between two copies of a record: the arguments name a description and two records, and each elementary item whose bytes
// differ is a line of its row number and a mark, V, B or I. A refusal is R and its number. A file that can't be read counts as empty.
#![tactic(auto)]

mod files;
mod print;

use content::Row;
use describing::Described;
use descriptions::calls::describe;
use differences::calls::differ;
use files::read_file;
use fronts::{front, front_bytes};
use std::rt::{Env, Files};
use tables::rows::NAME_TABLE;

// A text of 4,096 bytes is the longest that may be valid; one byte more tells that a file is longer.
const TEXT: usize = 4097;

// No item ends after byte 131,070.
const RECORD: usize = 131072;

const ROW_NUMBERS: usize = Row::TABLE;

const ROWS: usize = 64;

// The room that any description's condition-names and their literals need, which are not listed.
const NAME_NUMBERS: usize = NAME_TABLE;

const LITERAL_BYTES: usize = 4096;

const OUTPUT: usize = 128;

// Room for a record. Made here, so that what takes it need not look into it.
fn room() -> [u8; RECORD] {
    [0u8; RECORD]
}

fn list(rt: &impl Print, items: &[u32], first: &[u8], second: &[u8]) {
    let mut output = [0u32; OUTPUT];
    let written = differ(items, first, second, &mut output);
    print::written(rt, written, &output);
}

fn list_second(rt: &(impl Env + Files + Print), items: &[u32], first: &[u8]) {
    let mut second = room();
    let n = read_file(rt, 3, &mut second);
    list(rt, items, first, front_bytes(&second, n));
}

fn list_first(rt: &(impl Env + Files + Print), items: &[u32]) {
    let mut first = room();
    let n = read_file(rt, 2, &mut first);
    list_second(rt, items, front_bytes(&first, n));
}

fn list_described(rt: &(impl Env + Files + Print), text: &[u8]) {
    let mut rows = [0u32; ROW_NUMBERS];
    let mut places = [0u32; ROWS];
    let mut names = [0u32; NAME_NUMBERS];
    let mut name_places = [0u32; ROWS];
    let mut literals = [0u32; ROW_NUMBERS];
    let mut bytes = [0u8; LITERAL_BYTES];
    let described = describe(
        text,
        &mut rows,
        &mut places,
        &mut names,
        &mut name_places,
        &mut literals,
        &mut bytes,
    );
    match described {
        Described::Counts(n, _, _, _, _, _) => list_first(rt, front(&rows, n)),
        Described::Faulty(_) => print::refusal(rt, 14),
        Described::Room(_) => print::refusal(rt, 10),
    }
}

fn main(rt: HostRuntime) {
    let mut text = [0u8; TEXT];
    let n = read_file(&rt, 1, &mut text);
    list_described(&rt, front_bytes(&text, n));
}
