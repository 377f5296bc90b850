// What is lent to the calls, in one array of numbers: each part a count and then its numbers, with room beyond every limit.
ghost use Rattle.std.specs.Prelude.{◌≡◌, ◌-◌, set};
ghost use Rattle.cases.specs.Stores.{number_at, place_of, part_in, switches_in, pushed, kept_as, again_from, repeated_in};

use fronts::{front, low_byte};

// From one part to the next.
pub const STEP: usize = 2048;

pub const ITEMS: usize = 0;

pub const LITERALS: usize = 2048;

pub const BYTES: usize = 4096;

pub const NAMES: usize = 6144;

pub const TOKENS: usize = 8192;

pub const RECORD: usize = 10240;

pub const PLAN: usize = 12288;

pub const SWITCHES: usize = 14336;

// Where a repeated piece of a list begins.
pub const MARK: usize = 16384;

pub const STORE: usize = 18432;

// The most numbers of a part.
const MOST: u32 = 2047;

pub(crate) fn get(store: &[u32], at: usize) -> u32
    ensures { result ≡ number_at store.now at }
{
    if at < store.len() {
        return store[at];
    }
    0
}

pub(crate) fn put(store: &mut [u32], at: usize, number: u32)
    ensures { store.new ≡ set store.old at number }
{
    if at < store.len() {
        store[at] = number;
    }
}

// The place of a part's number i.
fn place(part: usize, i: u32) -> usize
    ensures { result ≡ place_of part i }
{
    if part < STORE {
        return part + 1 + i as usize;
    }
    STORE
}

pub(crate) fn push(store: &mut [u32], part: usize, number: u32)
    ensures { store.new ≡ pushed store.old part number }
{
    let count = get(store, part);
    if count < MOST {
        put(store, place(part, count), number);
        put(store, part, count + 1);
    }
}

// The numbers of a part from one to another, once more.
fn again(store: &mut [u32], part: usize, from: u32, end: u32)
    ensures { store.new ≡ again_from store.old part from (end - from) }
{
    for i in from..end {
        push(store, part, get(store, place(part, i)));
    }
}

// The numbers from the mark on, so many times in all.
pub(crate) fn repeat(store: &mut [u32], part: usize, times: u32)
    ensures { store.new ≡ repeated_in store.old part times }
{
    let from = get(store, MARK);
    let end = get(store, part);
    for done in 1..times {
        again(store, part, from, end);
    }
}

pub(crate) fn part(store: &[u32], part: usize) -> &[u32]
    ensures { result.now ≡ part_in store.now part }
{
    if part < store.len() {
        let rest = &store[part + 1..];
        return front(rest, get(store, part) as usize);
    }
    &store[0..0]
}

// A part becomes these numbers.
pub(crate) fn keep(store: &mut [u32], part: usize, numbers: &[u32])
    ensures { store.new ≡ kept_as store.old part numbers.now }
{
    put(store, part, 0);
    for number in numbers {
        push(store, part, *number);
    }
}

// The switch byte.
pub(crate) fn switches(store: &[u32]) -> u8
    ensures { result ≡ switches_in store.now }
{
    low_byte(get(store, SWITCHES + 1))
}
