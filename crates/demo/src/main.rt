// A rule of a tape drive logbook, from its COBOL text to its verdicts, by the calls of the library. A description and a rule are
// read as printed: no row, token or target is typed by hand.
#![tactic(auto)]

ghost use Rattle.std.specs.Prelude.{◌≤◌};

use console::streams::write_all;
use content::Row;
use content::relations::{NEGATED, NUMERIC};
use describing::Described;
use descriptions::calls::describe;
use fronts::{front, front_bytes};
use grammar::PlanRow;
use looks::calls::looked_at_plan;
use plan_rows::rows::plan_row;
use plans::Target;
use printouts::printing::print;
use std::fmt::InlineText;
use tables::rows::{NAME_TABLE, is_group, row_at};
use tables::tokens::FIRST_WORD;
use tables::words::NOT;
use tables::{Judged, Refusal, Verdict};
use texts::calls::read;

// An entry of the logbook, for each tape drive that the club inspects.
const DESCRIPTION: [u8; 111] = *b"\
    \x20 01 ENTRY.\n\
    \x20    05 DRIVE PIC X(6).\n\
    \x20    05 HOURS PIC 9(4)V9.\n\
    \x20    05 LIMIT PIC 9(4).\n\
    \x20    05 DRIFT PIC S9(2).\n";

// When a drive is due for service: HOURS NUMERIC stands guard over a meter that nobody wrote down.
const RULE: [u8; 116] = *b"\
    \x20 HOURS NUMERIC\n\
    \x20   AND ( DRIVE = \"TU-55\" OR \"TU-56\" )\n\
    \x20   AND HOURS NOT < LIMIT AND NOT > 9000\n\
    \x20 OR DRIFT NEGATIVE\n";

// The same without its guard.
const UNGUARDED: [u8; 94] = *b"\
    \x20 ( DRIVE = \"TU-55\" OR \"TU-56\" )\n\
    \x20   AND HOURS NOT < LIMIT AND NOT > 9000\n\
    \x20 OR DRIFT NEGATIVE\n";

// The letter at the end of a DRIFT is a digit with a minus: B is 2, E is 5.
const ENTRIES: [u8; 119] = *b"\
    TU-56 12345100003\
    TU-55 09999100000\
    TU-56 98765100000\
    TU-56 0042010000B\
    TU-56      100001\
    TU-56      10000E\
    TU-10      100000";

// The rules here have no condition-names.
const NAMES: [u32; 0] = [];

// What is judged: the tokens of a rule, or its plan.
#[derive(Clone, Copy, Debug, PartialEq, Eq)]
enum By {
    Tokens,
    Plan,
}

fn write(rt: &impl Print, bytes: &[u8]) {
    write_all(rt, bytes);
}

// Text, and blanks up to a width.
fn cell(rt: &impl Print, bytes: &[u8], width: usize) {
    let blanks = [b' '; 64];
    write(rt, bytes);
    if bytes.len() < width {
        write(rt, front_bytes(&blanks, width - bytes.len()));
    }
}

fn number(rt: &impl Print, n: usize, width: usize) {
    let digits = InlineText::<20>::of(n as u64);
    cell(rt, digits.as_str().as_bytes(), width);
}

// Tokens as the library prints them.
fn words(rt: &impl Print, literals: &[u32], bytes: &[u8], tokens: &[u32], width: usize) {
    let mut text = [0u8; 256];
    if let Ok(n) = print(&DESCRIPTION, literals, bytes, tokens, &mut text) {
        cell(rt, front_bytes(&text, n), width);
    }
}

fn in_full(rt: &impl Print, rows: &[u32], literals: &[u32], bytes: &[u8], tokens: &[u32]) {
    let mut full = [0u32; 634];
    let expanded = forms::calls::expand(rows, literals, bytes, &NAMES, tokens, &mut full);
    if let Ok(n) = expanded {
        write(rt, b"  ");
        words(rt, literals, bytes, front(&full, n), 0);
        write(rt, b"\n");
    }
}

// Whether a relation has an object: class and sign words have none.
fn has_object(relation: u32) -> bool {
    relation % NEGATED < NUMERIC
}

// A row's condition as tokens. A switch or a condition-name stands alone.
fn row_tokens(row: PlanRow, tokens: &mut [u32; 4]) -> usize {
    let word = FIRST_WORD + row.relation % NEGATED;
    tokens[0] = row.subject;
    if row.relation == 0 {
        return 1;
    }
    if row.relation < NEGATED {
        tokens[1] = word;
        tokens[2] = row.object;
        if has_object(row.relation) {
            return 3;
        }
        return 2;
    }
    tokens[1] = NOT;
    tokens[2] = word;
    tokens[3] = row.object;
    if has_object(row.relation) {
        return 4;
    }
    3
}

fn target(rt: &impl Print, to: u32) {
    if to == Target::TRUE {
        return cell(rt, b"TRUE", 7);
    }
    if to == Target::FALSE {
        return cell(rt, b"FALSE", 7);
    }
    write(rt, b"row ");
    number(rt, to as usize, 3);
}

// The first tokens of four, in a column.
fn first_words(rt: &impl Print, literals: &[u32], bytes: &[u8], tokens: &[u32; 4], n: usize) {
    words(rt, literals, bytes, front(tokens, n), 21);
}

fn row_line(rt: &impl Print, literals: &[u32], bytes: &[u8], k: usize, row: PlanRow) {
    let mut tokens = [0u32; 4];
    let n = row_tokens(row, &mut tokens);
    write(rt, b"  row ");
    number(rt, k, 4);
    first_words(rt, literals, bytes, &tokens, n);
    write(rt, b"true -> ");
    target(rt, row.holds);
    write(rt, b"false -> ");
    target(rt, row.fails);
    write(rt, b"\n");
}

// The plan, row by row.
fn plan_table(rt: &impl Print, literals: &[u32], bytes: &[u8], plan: &[u32]) {
    let rows = plan.len() / 5;
    for k in 0..rows {
        row_line(rt, literals, bytes, k, plan_row(plan, k));
    }
}

fn holds(row: Row, byte: usize) -> bool {
    let start = row.offset as usize;
    let size = row.size as usize;
    start <= byte && byte - start < size
}

// The elementary item that has a byte of the record, of at most 64.
fn item_at(rows: &[u32], byte: usize) -> u32 {
    let count = rows.len() / Row::WIDTH;
    if 64 < count {
        return 0;
    }
    for v in 0..count {
        let row = row_at(rows, v);
        if !is_group(row) && holds(row, byte) {
            return v as u32;
        }
    }
    0
}

// Where a stop is.
fn place(
    rt: &impl Print,
    rows: &[u32],
    literals: &[u32],
    bytes: &[u8],
    condition: usize,
    byte: usize,
) {
    let item = [item_at(rows, byte)];
    write(rt, b" in condition ");
    number(rt, condition, 0);
    write(rt, b": ");
    words(rt, literals, bytes, &item, 0);
    write(rt, b", byte ");
    number(rt, byte, 0);
    write(rt, b"\n");
}

fn verdict_line(rt: &impl Print, rows: &[u32], literals: &[u32], bytes: &[u8], verdict: Verdict) {
    match verdict {
        Verdict::True => write(rt, b"TRUE\n"),
        Verdict::False => write(rt, b"FALSE\n"),
        Verdict::Refused(refusal) => match refusal {
            Refusal::Data { condition, byte } => {
                write(rt, b"stopped: invalid numeric data");
                place(rt, rows, literals, bytes, condition, byte);
            }
            Refusal::Letters { condition, byte } => {
                write(rt, b"stopped: invalid alphabetic data");
                place(rt, rows, literals, bytes, condition, byte);
            }
            _ => write(rt, b"refused\n"),
        },
    }
}

fn judged_by<'a>(
    rows: &[u32],
    literals: &[u32],
    bytes: &'a [u8],
    by: By,
    numbers: &[u32],
    record: &'a [u8],
) -> Judged {
    match by {
        By::Tokens => conditions::calls::judge(rows, literals, bytes, &NAMES, numbers, record, 0),
        By::Plan => conditions::calls::run(rows, literals, bytes, &NAMES, numbers, record, 0),
    }
}

fn entry_line<'a>(
    rt: &impl Print,
    rows: &[u32],
    literals: &[u32],
    bytes: &'a [u8],
    by: By,
    numbers: &[u32],
    n: usize,
    record: &'a [u8],
) {
    let judged = judged_by(rows, literals, bytes, by, numbers, record);
    write(rt, b"  ");
    number(rt, n, 5);
    cell(rt, record, 19);
    number(rt, judged.count, 8);
    let verdict = judged.verdict;
    verdict_line(rt, rows, literals, bytes, verdict);
}

// What a rule says of each entry. The description's first row is the whole entry.
fn each_entry<'a>(
    rt: &impl Print,
    rows: &[u32],
    literals: &[u32],
    bytes: &'a [u8],
    by: By,
    numbers: &[u32],
    entries: &'a [u8],
) {
    let size = entry_size(rows);
    for (i, entry) in entries.chunks_exact(size).enumerate() {
        entry_line(rt, rows, literals, bytes, by, numbers, i + 1, entry);
    }
}

fn verdicts(
    rt: &impl Print,
    rows: &[u32],
    literals: &[u32],
    bytes: &[u8],
    by: By,
    numbers: &[u32],
) {
    let entries = ENTRIES;
    write(rt, b"  no.  entry              judged  verdict\n");
    each_entry(rt, rows, literals, bytes, by, numbers, &entries);
}

// The size of an entry, at least 1.
fn entry_size(rows: &[u32]) -> usize
    ensures { 1 ≤ result }
{
    if rows.len() < Row::WIDTH {
        return 1;
    }
    let size = row_at(rows, 0).size as usize;
    if size == 0 {
        return 1;
    }
    size
}

fn the_entry(rt: &impl Print) {
    write(
        rt,
        b"Oboecurlew: a rule of the tape drive logbook, from its COBOL text to its verdicts\n\
          \n\
          1. The entry\n\
          \n\
          The club writes an entry of 17 bytes for each tape drive that it inspects. `describe` reads where\n\
          each item lies in them from the book's own description.\n\
          \n",
    );
    write(rt, &DESCRIPTION);
    write(
        rt,
        b"\n\
          So TU-56 12345100003 is a TU-56 at 1234.5 hours, with a limit of 1000, that runs 3 percent fast.\n\
          A minus shares the last byte with a digit: a DRIFT of 0E is -5.\n",
    );
}

fn the_rule(rt: &impl Print, rows: &[u32], literals: &[u32], bytes: &[u8], tokens: &[u32]) {
    write(
        rt,
        b"\n\
          2. The rule\n\
          \n\
          A DECtape drive, TU-55 or TU-56, is due for service once its hours reach its limit, on a meter\n\
          not over 9000; any drive is due if its tape runs slow. HOURS NUMERIC stands guard over a meter\n\
          that nobody wrote down. `read` takes it as it is written.\n\
          \n",
    );
    write(rt, &RULE);
    write(
        rt,
        b"\n\
          As COBOL allows, two conditions leave out what they share with the one before. `expand` puts it\n\
          back, and `print` writes it out:\n\
          \n",
    );
    in_full(rt, rows, literals, bytes, tokens);
}

fn the_plan(rt: &impl Print, literals: &[u32], bytes: &[u8], plan: &[u32]) {
    write(
        rt,
        b"\n\
          3. The plan\n\
          \n\
          `plan` makes of each condition a row that says where to go on if it is true, and where if it\n\
          is false. Rows that a jump passes over are not read. The club keeps the plan, and needs the\n\
          words no more.\n\
          \n",
    );
    plan_table(rt, literals, bytes, plan);
}

fn the_verdicts(rt: &impl Print, rows: &[u32], literals: &[u32], bytes: &[u8], plan: &[u32]) {
    write(
        rt,
        b"\n\
          4. The verdicts\n\
          \n\
          `run` follows the plan on each entry. Numbers are compared by value: in entry 2 the meter\n\
          shows 999.9 hours, less than 1000. In entries 5 to 7 it is blank: row 0 jumps to row 5, past\n\
          the rows that would compare it, and DRIFT alone decides. `judged` counts the conditions that were\n\
          looked at, for the bill of machine time.\n\
          \n",
    );
    verdicts(rt, rows, literals, bytes, By::Plan, plan);
}

// The items that a run on one entry came to: an item's row is its token.
fn looked_line<'a>(
    rt: &impl Print,
    rows: &[u32],
    literals: &[u32],
    bytes: &'a [u8],
    plan: &[u32],
    n: usize,
    record: &'a [u8],
) {
    let mut list = [0u32; 64];
    let listed = looked_at_plan(rows, literals, bytes, &NAMES, plan, record, 0, &mut list);
    if let Ok(k) = listed {
        write(rt, b"  entry ");
        number(rt, n, 3);
        words(rt, literals, bytes, front(&list, k), 0);
        write(rt, b"\n");
    }
}

fn the_looks(rt: &impl Print, rows: &[u32], literals: &[u32], bytes: &[u8], plan: &[u32]) {
    let entries = ENTRIES;
    write(
        rt,
        b"\n\
          5. What a run looked at\n\
          \n\
          `looked_at_plan` lists the items that a run came to. Whatever else changes in the entry, its\n\
          verdict stays, and that is proved.\n\
          \n",
    );
    looked_line(rt, rows, literals, bytes, plan, 1, &entries[..17]);
    looked_line(rt, rows, literals, bytes, plan, 5, &entries[68..85]);
}

// The rule with all its calls, from its tokens on.
fn guarded(rt: &impl Print, rows: &[u32], literals: &[u32], bytes: &[u8], tokens: &[u32]) {
    let mut numbers = [0u32; 640];
    the_rule(rt, rows, literals, bytes, tokens);
    let planned = forms::calls::plan(rows, literals, bytes, &NAMES, tokens, &mut numbers);
    if let Ok(n) = planned {
        let plan = front(&numbers, n);
        the_plan(rt, literals, bytes, plan);
        the_verdicts(rt, rows, literals, bytes, plan);
        the_looks(rt, rows, literals, bytes, plan);
    }
}

fn unguarded(rt: &impl Print, rows: &[u32], literals: &[u32], bytes: &[u8], tokens: &[u32]) {
    write(
        rt,
        b"\n\
          6. The same rule without its guard\n\
          \n\
          HOURS NUMERIC is taken away, and nothing keeps a blank meter from being compared.\n\
          \n",
    );
    write(rt, &UNGUARDED);
    write(
        rt,
        b"\n\
          `judge` needs no plan. It does not read blanks as zero, as older programs did: it stops, and\n\
          names the condition that met them, the item and its first wrong byte. Entry 7 is no DECtape\n\
          drive, so its blank meter is not reached, and nothing stops.\n\
          \n",
    );
    verdicts(rt, rows, literals, bytes, By::Tokens, tokens);
}

// Which of the two rules is shown.
#[derive(Clone, Copy, Debug, PartialEq, Eq)]
enum Shown {
    Guarded,
    Unguarded,
}

fn show(rt: &impl Print, rows: &[u32], shown: Shown, text: &[u8]) {
    let mut tokens = [0u32; 256];
    let mut literals = [0u32; Row::TABLE];
    let mut bytes = [0u8; 2304];
    if let Ok(counts) = read(&DESCRIPTION, text, &mut tokens, &mut literals, &mut bytes) {
        let rule = front(&tokens, counts.tokens);
        let table = front(&literals, counts.literals);
        let held = front_bytes(&bytes, counts.bytes);
        match shown {
            Shown::Guarded => guarded(rt, rows, table, held, rule),
            Shown::Unguarded => unguarded(rt, rows, table, held, rule),
        }
    }
}

fn main(rt: HostRuntime) {
    let mut numbers = [0u32; Row::TABLE];
    let mut places = [0u32; 64];
    let mut names = [0u32; NAME_TABLE];
    let mut name_places = [0u32; 64];
    let mut literals = [0u32; Row::TABLE];
    let mut bytes = [0u8; 4096];
    the_entry(&rt);
    let described = describe(
        &DESCRIPTION,
        &mut numbers,
        &mut places,
        &mut names,
        &mut name_places,
        &mut literals,
        &mut bytes,
    );
    if let Described::Counts(n, _, _, _, _, _) = described {
        let rows = front(&numbers, n);
        show(&rt, rows, Shown::Guarded, &RULE);
        show(&rt, rows, Shown::Unguarded, &UNGUARDED);
    }
}
