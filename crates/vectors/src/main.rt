// Random cases of the second program through the compiled calls: standard input is what `second generate` wrote, and standard
// output has to be what `second answers` writes for it.
#![tactic(auto)]

mod answer;
mod demand;
mod input;
mod lent;
mod line;
mod output;
mod parts;

use fronts::{front, front_bytes, narrow};
use parts::{BYTES, RECORD, WORDS, part};
use std::io::Read;

// Bytes stand one to a word in a case: the record is narrowed.
fn answer_with(rt: &impl Print, words: &[u32], bytes: &[u8]) {
    let mut record = [0u8; WORDS];
    let n = narrow(part(words, RECORD), &mut record);
    line::write(rt, words, bytes, front_bytes(&record, n));
}

// The same for the bytes of the literals.
fn answer_case(rt: &impl Print, words: &[u32]) {
    let mut bytes = [0u8; WORDS];
    let n = narrow(part(words, BYTES), &mut bytes);
    answer_with(rt, words, front_bytes(&bytes, n));
}

fn answer_whole(rt: &impl Print, words: &[u32]) -> bool {
    if parts::whole(words) {
        answer_case(rt, words);
        return true;
    }
    false
}

// Whether there was a whole case.
fn next_case(rt: &impl Print, input: &mut impl Read) -> bool {
    let mut words = [0u32; WORDS];
    let n = input::read_words(input, &mut words);
    answer_whole(rt, front(&words, n))
}

fn main(rt: HostRuntime) {
    let mut input = rt.stdin();
    let cases = input::read_word(&mut input);
    for _ in 0..cases {
        if !next_case(&rt, &mut input) {
            return;
        }
    }
}
