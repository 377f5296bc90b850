// What the program writes: texts, numbers and answers.
use console::streams::{print_decimal, write_all};
use refusal_numbers::{number_of, place_of};
use tables::{Judged, Refusal, Verdict};

pub(crate) fn text(rt: &impl Print, bytes: &[u8]) {
    write_all(rt, bytes);
}

fn number(rt: &impl Print, n: usize) {
    print_decimal(rt, n as u64);
}

// A space and a number.
fn next_number(rt: &impl Print, n: u32) {
    text(rt, b" ");
    print_decimal(rt, n as u64);
}

fn numbers(rt: &impl Print, all: &[u32]) {
    for n in all {
        next_number(rt, *n);
    }
}

fn refusal(rt: &impl Print, refused: Refusal) {
    text(rt, b"refused ");
    number(rt, number_of(refused) as usize);
    text(rt, b" at ");
    number(rt, place_of(refused));
    byte(rt, refused);
}

// Of a stop, the byte that it names.
fn byte(rt: &impl Print, refused: Refusal) {
    match refused {
        Refusal::Data { byte, .. } | Refusal::Letters { byte, .. } => {
            text(rt, b" byte ");
            number(rt, byte);
        }
        _ => {}
    }
}

fn count(rt: &impl Print, given: Result<usize, Refusal>) {
    match given {
        Ok(n) => number(rt, n),
        Err(refused) => refusal(rt, refused),
    }
}

pub(crate) fn written(rt: &impl Print, call: &[u8], given: Result<usize, Refusal>, output: &[u32]) {
    text(rt, call);
    number(rt, output.len());
    text(rt, b": ");
    count(rt, given);
    text(rt, b", then");
    numbers(rt, output);
    text(rt, b"\n");
}

fn truth(rt: &impl Print, given: Verdict) {
    match given {
        Verdict::True => text(rt, b"true"),
        Verdict::False => text(rt, b"false"),
        Verdict::Refused(refused) => refusal(rt, refused),
    }
}

pub(crate) fn judged(rt: &impl Print, call: &[u8], given: Judged) {
    text(rt, call);
    let verdict = given.verdict;
    truth(rt, verdict);
    text(rt, b", judged ");
    number(rt, given.count);
    text(rt, b"\n");
}
