// sweep: one rule over a file of entries of the description's length, read in parts that are whole entries.
ghost use Rattle.std.specs.Prelude.{◌≤◌};

use crate::files::{at_end, large, open};
use crate::print::{complaint, number, text};
use crate::refusals::{of_record, sentence};
use crate::verdicts::stop;
use console::streams::read_full;
use content::Row;
use entry_lines::entries::{put_entry, put_totals};
use fronts::{front, front_bytes};
use std::fs::File;
use sweeper::calls::sweep;
use sweeps::Unswept;
use tables::rows::row_at;

// The bytes that are read at once: no entry has more than 131,070.
const PART: usize = 131072;

// As many entries have room for their answers.
const ENTRIES: usize = 4096;

const ANSWERS: usize = 16384;

// Of a file of more parts no more is read: 128 GiB.
const PARTS: usize = 1048576;

// After so many parts, 8 MiB, a line tells how far it has come.
const OFTEN: usize = 64;

// Four numbers and what is said around them.
const LINE: usize = 128;

// How many entries there were so far, and of what kind; whether something was refused, and whether the file has ended.
// Two flags: an enum of what may be would say no more, and each is asked alone.
#[derive(Clone, Copy)]
pub struct Totals {
    pub entries: usize,
    pub held: usize,
    pub failed: usize,
    pub stopped: usize,
    pub refused: bool,
    pub ended: bool,
}

// Where the last item ends.
fn entry_size(items: &[u32]) -> usize {
    let rows = items.len() / Row::WIDTH;
    let mut size: usize = 0;
    for v in 0..rows {
        let row = row_at(items, v);
        size = size.max((row.offset as usize).wrapping_add(row.size as usize));
    }
    size
}

// How many entries fill a part.
fn entries_at_once(size: usize) -> usize {
    if size == 0 {
        return 0;
    }
    ENTRIES.min(PART / size)
}

// A part of the records, as far as they go.
fn entry_from(records: &[u8], from: usize, size: usize) -> &[u8] {
    if from <= records.len() {
        return front_bytes(&records[from..], size);
    }
    records
}

fn entry_number(rt: HostRuntime, n: usize) {
    let mut line = [0u8; LINE];
    let end = put_entry(&mut line, 0, n);
    text(&rt.stdout(), front_bytes(&line, end));
}

fn one_more_if(n: usize, counts: bool) -> usize {
    n.wrapping_add(usize::from(counts))
}

// The totals with one entry more.
fn counted(totals: Totals, answer: u32) -> Totals {
    Totals {
        entries: totals.entries.wrapping_add(1),
        held: one_more_if(totals.held, answer == 1),
        failed: one_more_if(totals.failed, answer == 0),
        stopped: one_more_if(totals.stopped, answer > 1),
        ..totals
    }
}

// The line of entry n, unless the rule is false of it.
fn entry_line(
    rt: HostRuntime,
    description: &[u8],
    items: &[u32],
    places: &[u32],
    literals: &[u32],
    bytes: &[u8],
    plan: &[u32],
    record: &[u8],
    n: usize,
    answer: u32,
    at: usize,
    byte: usize,
) {
    if answer == 0 {
        return;
    }
    entry_number(rt, n);
    if answer == 1 {
        return text(&rt.stdout(), b"TRUE\n");
    }
    stop(
        rt,
        description,
        items,
        places,
        literals,
        bytes,
        plan,
        record,
        at,
        byte,
    )
}

// The lines of a part: four numbers for each entry.
fn lines(
    rt: HostRuntime,
    description: &[u8],
    items: &[u32],
    places: &[u32],
    literals: &[u32],
    bytes: &[u8],
    plan: &[u32],
    records: &[u8],
    size: usize,
    before: Totals,
    answers: &[u32],
) -> Totals {
    if answers.len() > ANSWERS {
        return before;
    }
    let mut totals = before;
    let mut from: usize = 0;
    for answer in answers.chunks_exact(4) {
        totals = counted(totals, answer[0]);
        entry_line(
            rt,
            description,
            items,
            places,
            literals,
            bytes,
            plan,
            entry_from(records, from, size),
            totals.entries,
            answer[0],
            answer[1] as usize,
            answer[2] as usize,
        );
        from = from.wrapping_add(size);
    }
    totals
}

// A line on standard error for those who wait.
fn progress(rt: HostRuntime, left: usize, done: usize) {
    if left % OFTEN == 0 {
        text(&rt.stderr(), b"swept so far: ");
        number(&rt.stderr(), done);
        text(&rt.stderr(), b" entries\n");
    }
}

fn with_refusal(totals: Totals) -> Totals {
    Totals {
        refused: true,
        ended: true,
        ..totals
    }
}

// The bytes after the last whole entry.
fn rest_of(n: usize, size: usize) -> usize {
    if size == 0 {
        return n;
    }
    n % size
}

// The file has ended: 21, where bytes are left after the last whole entry.
fn checked_end(rt: HostRuntime, totals: Totals, size: usize, rest: usize) -> Totals {
    if rest == 0 {
        return Totals {
            ended: true,
            ..totals
        };
    }
    sentence(rt, 21);
    complaint(rt, 4, b": entries have ");
    number(&rt.stderr(), size);
    text(&rt.stderr(), b" bytes, and at the end of the file are ");
    number(&rt.stderr(), rest);
    text(&rt.stderr(), b"\n");
    with_refusal(totals)
}

// The rule over one part; the totals with its entries.
fn sweep_part<'a>(
    rt: HostRuntime,
    description: &[u8],
    items: &[u32],
    places: &[u32],
    names: &[u32],
    literals: &[u32],
    bytes: &'a [u8],
    plan: &[u32],
    switches: u8,
    records: &'a [u8],
    size: usize,
    totals: Totals,
) -> Totals {
    let mut answers = [0u32; ANSWERS];
    let swept = sweep(
        items,
        literals,
        bytes,
        names,
        plan,
        records,
        size,
        switches,
        &mut answers,
    );
    match swept {
        Ok(n) => lines(
            rt,
            description,
            items,
            places,
            literals,
            bytes,
            plan,
            records,
            size,
            totals,
            front(&answers, n),
        ),
        Err(Unswept::Uneven) => {
            sentence(rt, 21);
            with_refusal(totals)
        }
        Err(Unswept::Refused(refusal)) => {
            of_record(rt, refusal, description, places);
            with_refusal(totals)
        }
    }
}

// So many bytes of the file, at the start of the records.
fn read_part(file: &mut File, records: &mut [u8], wanted: usize) -> usize {
    if wanted > records.len() {
        return 0;
    }
    read_full(file, &mut records[..wanted])
}

// One part of the file, read and swept.
fn one_part(
    rt: HostRuntime,
    description: &[u8],
    items: &[u32],
    places: &[u32],
    names: &[u32],
    literals: &[u32],
    bytes: &[u8],
    plan: &[u32],
    switches: u8,
    file: &mut File,
    size: usize,
    wanted: usize,
    totals: Totals,
) -> Totals {
    let mut records = large();
    let n = read_part(file, &mut records, wanted);
    let rest = rest_of(n, size);
    let swept = sweep_part(
        rt,
        description,
        items,
        places,
        names,
        literals,
        bytes,
        plan,
        switches,
        front_bytes(&records, n.wrapping_sub(rest)),
        size,
        totals,
    );
    if n == wanted {
        return swept;
    }
    if at_end(rt, 4, file) {
        return checked_end(rt, swept, size, rest);
    }
    with_refusal(swept)
}

// The file, part by part.
fn parts(
    rt: HostRuntime,
    description: &[u8],
    items: &[u32],
    places: &[u32],
    names: &[u32],
    literals: &[u32],
    bytes: &[u8],
    plan: &[u32],
    switches: u8,
    file: &mut File,
    size: usize,
) -> Totals {
    let wanted = entries_at_once(size).wrapping_mul(size);
    let mut totals = none();
    for left in (0..PARTS).rev() {
        totals = one_part(
            rt,
            description,
            items,
            places,
            names,
            literals,
            bytes,
            plan,
            switches,
            file,
            size,
            wanted,
            totals,
        );
        if totals.ended {
            return totals;
        }
        progress(rt, left, totals.entries);
    }
    with_refusal(totals)
}

fn none() -> Totals {
    Totals {
        entries: 0,
        held: 0,
        failed: 0,
        stopped: 0,
        refused: false,
        ended: false,
    }
}

fn totals_line(rt: HostRuntime, totals: Totals) {
    let mut line = [0u8; LINE];
    let end = put_totals(
        &mut line,
        0,
        totals.entries,
        totals.held,
        totals.failed,
        totals.stopped,
    );
    text(&rt.stdout(), front_bytes(&line, end));
}

// The last line, and the status: 2 where an entry stops or the file is refused, 1 where an entry is false.
fn outcome(rt: HostRuntime, totals: Totals) -> u32
    ensures { result ≤ 2 }
{
    totals_line(rt, totals);
    if (totals.stopped > 0) | totals.refused {
        return 2;
    }
    if totals.failed > 0 {
        return 1;
    }
    0
}

pub(crate) fn sweep_file(
    rt: HostRuntime,
    description: &[u8],
    items: &[u32],
    places: &[u32],
    names: &[u32],
    literals: &[u32],
    bytes: &[u8],
    plan: &[u32],
    switches: u8,
) -> u32
    ensures { result ≤ 2 }
{
    let Some(mut file) = open(rt, 4) else {
        return 2;
    };
    let totals = parts(
        rt,
        description,
        items,
        places,
        names,
        literals,
        bytes,
        plan,
        switches,
        &mut file,
        entry_size(items),
    );
    drop(file);
    outcome(rt, totals)
}
