// Document 01's cases through the compiled calls: the sixteen that are proved, and the edges of every refusal. Standard input
// has the cases, a thing to a line, and standard output the same lines with the answers.
#![tactic(auto)]

mod answers;
mod lists;
mod print;
mod store;
mod words;

use console::streams::read_full;
use fronts::{front_bytes, narrow};
use store::{BYTES, ITEMS, LITERALS, NAMES, PLAN, RECORD, STEP, STORE, SWITCHES, TOKENS, part};
use words::{digits, find, first};

// Items, literals, bytes, names, condition, record, plan, switches.
fn part_of(letter: u8) -> usize {
    match letter {
        b'i' => ITEMS,
        b'l' => LITERALS,
        b'b' => BYTES,
        b'n' => NAMES,
        b'c' => TOKENS,
        b'r' => RECORD,
        b'p' => PLAN,
        b's' => SWITCHES,
        _ => STORE,
    }
}

// A condition has no plan until one is lent or written.
fn forget_plan(store: &mut [u32], part: usize) {
    if part == TOKENS {
        store::put(store, PLAN, 0);
    }
}

fn set(store: &mut [u32], line: &[u8], list: &[u8]) {
    let part = part_of(first(line));
    forget_plan(store, part);
    lists::set(store, part, list);
}

// Expand, plan, judge, run, answers; the number is an output's room. An empty line asks nothing.
fn call<'a>(
    rt: &impl Print,
    store: &mut [u32],
    bytes: &'a [u8],
    record: &'a [u8],
    letter: u8,
    room: usize,
) {
    match letter {
        b'e' => answers::expand(rt, store, bytes, room),
        b'p' => answers::plan(rt, store, bytes, room),
        b'j' => answers::judge(rt, store, bytes, record),
        b'r' => answers::run(rt, store, bytes, record),
        b'a' => answers::all(rt, store, bytes, record, room),
        _ => print::text(rt, b"\n"),
    }
}

fn call_on(rt: &impl Print, store: &mut [u32], bytes: &[u8], line: &[u8]) {
    let mut record = [0u8; STEP];
    let n = narrow(part(store, RECORD), &mut record);
    call(
        rt,
        store,
        bytes,
        front_bytes(&record, n),
        first(line),
        digits(line, 10) as usize,
    );
}

fn call_line(rt: &impl Print, store: &mut [u32], line: &[u8]) {
    let mut bytes = [0u8; STEP];
    let n = narrow(part(store, BYTES), &mut bytes);
    call_on(rt, store, front_bytes(&bytes, n), line);
}

fn echo(rt: &impl Print, line: &[u8]) {
    print::text(rt, line);
    print::text(rt, b"\n");
}

// What stands behind a colon and a space.
fn behind(line: &[u8], colon: usize) -> &[u8] {
    if colon < line.len() {
        if line.len() - colon > 2 {
            return &line[colon + 2..];
        }
    }
    &line[0..0]
}

// A comment, a setting, or a call.
fn line(rt: &impl Print, store: &mut [u32], line: &[u8]) {
    let colon = find(line, 0, b':');
    if first(line) == b'#' {
        echo(rt, line);
    } else if colon < line.len() {
        echo(rt, line);
        set(store, line, behind(line, colon));
    } else {
        call_line(rt, store, line);
    }
}

fn lines(rt: &impl Print, store: &mut [u32], text: &[u8]) {
    let mut at: usize = 0;
    // The step is a line.
    while at < text.len() {
        let end = find(text, at, b'\n');
        line(rt, store, &text[at..end]);
        at = end + 1;
    }
}

fn main(rt: HostRuntime) {
    let mut store = [0u32; STORE];
    let mut text = [0u8; 65536];
    let n = read_full(&mut rt.stdin(), &mut text);
    lines(&rt, &mut store, &text[..n]);
}
