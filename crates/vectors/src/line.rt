// The line of a case: E n p h P n p h J n v b c R n v b c D d (tests/second/README.md).
use crate::answer::{Answer, of_judged, of_written};
use crate::output::{checksum, fill};
use crate::parts::{EXPAND_ROOM, PLAN, PLAN_ROOM, ROOM, TOKENS, part, setting};
use crate::{demand, lent};
use console::streams::{print_decimal, write_all};

fn text(rt: &impl Print, bytes: &[u8]) {
    write_all(rt, bytes);
}

fn number(rt: &impl Print, n: usize) {
    print_decimal(rt, n as u64);
}

fn answer(rt: &impl Print, call: &[u8], given: Answer) {
    text(rt, call);
    number(rt, given.number);
    text(rt, b" ");
    number(rt, given.value);
}

// With the byte of a stop and the count of simple conditions judged.
fn judged(rt: &impl Print, call: &[u8], given: Answer) {
    answer(rt, call, given);
    text(rt, b" ");
    number(rt, given.byte);
    text(rt, b" ");
    number(rt, given.judged);
}

fn sum(rt: &impl Print, output: &[u32]) {
    text(rt, b" ");
    print_decimal(rt, checksum(output) as u64);
}

fn expand_in(rt: &impl Print, words: &[u32], bytes: &[u8], output: &mut [u32]) {
    fill(output);
    answer(rt, b"E ", of_written(lent::expand(words, bytes, output)));
    sum(rt, output);
}

fn expand(rt: &impl Print, words: &[u32], bytes: &[u8]) {
    let mut output = [0u32; ROOM];
    let room = setting(words, EXPAND_ROOM);
    if room <= ROOM {
        expand_in(rt, words, bytes, &mut output[0..room]);
    }
}

fn plan_in(rt: &impl Print, words: &[u32], bytes: &[u8], output: &mut [u32]) {
    fill(output);
    answer(
        rt,
        b" P ",
        of_written(lent::plan(words, bytes, part(words, TOKENS), output)),
    );
    sum(rt, output);
}

fn plan(rt: &impl Print, words: &[u32], bytes: &[u8]) {
    let mut output = [0u32; ROOM];
    let room = setting(words, PLAN_ROOM);
    if room <= ROOM {
        plan_in(rt, words, bytes, &mut output[0..room]);
    }
}

fn judge<'a>(rt: &impl Print, words: &[u32], bytes: &'a [u8], record: &'a [u8]) {
    judged(rt, b" J ", of_judged(lent::judge(words, bytes, record)));
}

fn run<'a>(rt: &impl Print, words: &[u32], bytes: &'a [u8], record: &'a [u8]) {
    let plan = part(words, PLAN);
    judged(rt, b" R ", of_judged(lent::run(words, bytes, plan, record)));
}

fn demand_three<'a>(rt: &impl Print, words: &[u32], bytes: &'a [u8], record: &'a [u8]) {
    if demand::holds(words, bytes, record) {
        text(rt, b" D 1\n");
    } else {
        text(rt, b" D 0\n");
    }
}

pub(crate) fn write<'a>(rt: &impl Print, words: &[u32], bytes: &'a [u8], record: &'a [u8]) {
    expand(rt, words, bytes);
    plan(rt, words, bytes);
    judge(rt, words, bytes, record);
    run(rt, words, bytes, record);
    demand_three(rt, words, bytes, record);
}
