// The logbook from the shell: a command, then files. Results go to standard output, refusals to standard error; the last line of
// standard output is the status, which bin/logbook takes away and ends with.
#![tactic(auto)]

ghost use Rattle.std.specs.Prelude.{◌≤◌};

mod changes; // items of two copies side by side
mod files; // files that the arguments name
mod judge_record; // judge
mod list_differences; // differ
mod list_items; // items
mod mend_record; // mend
mod merge_copies; // merge
mod wording; // items and conditions in words
mod print; // pieces of lines
mod refusals; // refusals as sentences
mod show_rule; // rule
mod sweep_file; // sweep
mod verdicts; // where a rule stops

use books::ReadRefusal;
use console::arguments::{argument, argument_count};
use content::Row;
use describing::Described;
use descriptions::calls::describe;
use files::load;
use forms::calls::plan;
use fronts::{front, front_bytes};
use item_parts::parts::same_bytes;
use judge_record::judge_record;
use list_differences::list_differences;
use list_items::list_items;
use mend_record::mend_record;
use merge_copies::merge_copies;
use print::{number, text};
use refusals::{in_text, of_rule, sentence};
use show_rule::show_rule;
use sweep_file::sweep_file;
use tables::rows::NAME_TABLE;
use texts::calls::read;

// A description has at most 4,096 bytes; one byte more tells that a file is longer.
const DESCRIPTION: usize = 4097;

// A rule has at most 2,048.
const RULE: usize = 2049;

// The room that any description and any rule need.
const ROW_NUMBERS: usize = Row::TABLE;

const ROWS: usize = 64;

const NAME_NUMBERS: usize = NAME_TABLE;

const LITERAL_BYTES: usize = 8192;

const TOKENS: usize = 256;

const PLAN: usize = 640;

// What is asked for; Unknown where it is nothing of these.
#[derive(Clone, Copy, Debug, PartialEq, Eq)]
enum Command {
    Items,
    Rule,
    Judge,
    Sweep,
    Differ,
    Mend,
    Merge,
    Unknown,
}

fn usage(rt: HostRuntime) -> u32
    ensures { result ≤ 2 }
{
    text(
        &rt.stderr(),
        b"usage: logbook items DESCRIPTION\n\
          \x20      logbook rule DESCRIPTION RULE\n\
          \x20      logbook judge DESCRIPTION RULE RECORD [SWITCHES]\n\
          \x20      logbook sweep DESCRIPTION RULE FILE\n\
          \x20      logbook differ DESCRIPTION FIRST SECOND\n\
          \x20      logbook mend DESCRIPTION RECORD MENDED\n\
          \x20      logbook merge DESCRIPTION RULE OLD FIRST SECOND MERGED\n\
          SWITCHES is eight of 0 and 1, for UPSI-0 to UPSI-7\n",
    );
    2
}

// The command, if it has as many arguments as it takes.
fn command_of(word: &[u8], count: usize) -> Command {
    if same_bytes(word, b"items") & (count == 3) {
        return Command::Items;
    }
    if same_bytes(word, b"rule") & (count == 4) {
        return Command::Rule;
    }
    if same_bytes(word, b"judge") & ((count == 5) | (count == 6)) {
        return Command::Judge;
    }
    if same_bytes(word, b"sweep") & (count == 5) {
        return Command::Sweep;
    }
    if same_bytes(word, b"differ") & (count == 5) {
        return Command::Differ;
    }
    if same_bytes(word, b"mend") & (count == 5) {
        return Command::Mend;
    }
    if same_bytes(word, b"merge") & (count == 8) {
        return Command::Merge;
    }
    Command::Unknown
}

// A switch byte as eight digits, each 0 or 1, the first for the highest bit.
fn switches_of(digits: &[u8]) -> Option<u8> {
    if digits.len() != 8 {
        return None;
    }
    let mut byte: u8 = 0;
    for (i, digit) in digits.iter().enumerate() {
        match *digit {
            b'0' => {}
            b'1' => byte |= 0x80 >> i,
            _ => return None,
        }
    }
    Some(byte)
}

// Argument 5 of judge; all off where it is left out.
fn given_switches(rt: HostRuntime) -> Option<u8> {
    if argument_count(&rt) < 6 {
        return Some(0);
    }
    let mut digits = [0u8; 16];
    let n = argument(&rt, 5, &mut digits);
    switches_of(front_bytes(&digits, n))
}

// A command that runs a rule.
fn planned(
    rt: HostRuntime,
    command: Command,
    description: &[u8],
    items: &[u32],
    places: &[u32],
    names: &[u32],
    literals: &[u32],
    bytes: &[u8],
    tokens: &[u32],
    plan: &[u32],
) -> u32
    ensures { result ≤ 2 }
{
    match command {
        Command::Rule => show_rule(
            rt,
            description,
            items,
            places,
            names,
            literals,
            bytes,
            tokens,
            plan,
        ),
        Command::Judge => {
            match given_switches(rt) {
                Some(byte) => judge_record(
                    rt,
                    description,
                    items,
                    places,
                    names,
                    literals,
                    bytes,
                    plan,
                    byte,
                ),
                None => usage(rt),
            }
        }
        Command::Sweep => sweep_file(
            rt,
            description,
            items,
            places,
            names,
            literals,
            bytes,
            plan,
            0,
        ),
        _ => merge_copies(
            rt,
            description,
            items,
            places,
            names,
            literals,
            bytes,
            plan,
            0,
        ),
    }
}

// The rule's plan.
fn with_tokens(
    rt: HostRuntime,
    command: Command,
    description: &[u8],
    items: &[u32],
    places: &[u32],
    names: &[u32],
    name_places: &[u32],
    rule: &[u8],
    literals: &[u32],
    bytes: &[u8],
    tokens: &[u32],
) -> u32
    ensures { result ≤ 2 }
{
    let mut numbers = [0u32; PLAN];
    let written = plan(items, literals, bytes, names, tokens, &mut numbers);
    match written {
        Ok(n) => planned(
            rt,
            command,
            description,
            items,
            places,
            names,
            literals,
            bytes,
            tokens,
            front(&numbers, n),
        ),
        Err(refusal) => {
            of_rule(rt, refusal, description, places, name_places, rule, tokens);
            2
        }
    }
}

// The rule's words. What is refused stands at a place of its text.
fn with_rule(
    rt: HostRuntime,
    command: Command,
    description: &[u8],
    items: &[u32],
    places: &[u32],
    names: &[u32],
    name_places: &[u32],
    rule: &[u8],
) -> u32
    ensures { result ≤ 2 }
{
    let mut tokens = [0u32; TOKENS];
    let mut literals = [0u32; ROW_NUMBERS];
    let mut bytes = [0u8; LITERAL_BYTES];
    match read(description, rule, &mut tokens, &mut literals, &mut bytes) {
        Ok(counts) => {
            return with_tokens(
                rt,
                command,
                description,
                items,
                places,
                names,
                name_places,
                rule,
                front(&literals, counts.literals),
                front_bytes(&bytes, counts.bytes),
                front(&tokens, counts.tokens),
            );
        }
        Err(ReadRefusal::Description(place)) => in_text(rt, 14, 2, description, place),
        Err(ReadRefusal::Word(place)) => in_text(rt, 15, 3, rule, place),
        Err(ReadRefusal::Name(place)) => in_text(rt, 16, 3, rule, place),
        Err(ReadRefusal::TokenCount) => sentence(rt, 5),
        Err(ReadRefusal::Room(_)) => sentence(rt, 10),
    }
    2
}

fn load_rule(
    rt: HostRuntime,
    command: Command,
    description: &[u8],
    items: &[u32],
    places: &[u32],
    names: &[u32],
    name_places: &[u32],
) -> u32
    ensures { result ≤ 2 }
{
    let mut rule = [0u8; RULE];
    match load(rt, 3, &mut rule) {
        None => 2,
        Some(n) => with_rule(
            rt,
            command,
            description,
            items,
            places,
            names,
            name_places,
            front_bytes(&rule, n),
        ),
    }
}

// A command whose description was read.
fn described(
    rt: HostRuntime,
    command: Command,
    description: &[u8],
    items: &[u32],
    places: &[u32],
    names: &[u32],
    name_places: &[u32],
    literals: &[u32],
    bytes: &[u8],
) -> u32
    ensures { result ≤ 2 }
{
    match command {
        Command::Items => list_items(
            rt,
            description,
            items,
            places,
            names,
            name_places,
            literals,
            bytes,
        ),
        Command::Differ => list_differences(rt, description, items, places),
        Command::Mend => mend_record(rt, description, items, places),
        _ => load_rule(rt, command, description, items, places, names, name_places),
    }
}

fn with_description(rt: HostRuntime, command: Command, description: &[u8]) -> u32
    ensures { result ≤ 2 }
{
    let mut rows = [0u32; ROW_NUMBERS];
    let mut places = [0u32; ROWS];
    let mut names = [0u32; NAME_NUMBERS];
    let mut name_places = [0u32; ROWS];
    let mut literals = [0u32; ROW_NUMBERS];
    let mut bytes = [0u8; LITERAL_BYTES];
    let answer = describe(
        description,
        &mut rows,
        &mut places,
        &mut names,
        &mut name_places,
        &mut literals,
        &mut bytes,
    );
    match answer {
        Described::Counts(r, p, n, s, l, b) => {
            return described(
                rt,
                command,
                description,
                front(&rows, r),
                front(&places, p),
                front(&names, n),
                front(&name_places, s),
                front(&literals, l),
                front_bytes(&bytes, b),
            );
        }
        Described::Faulty(place) => in_text(rt, 14, 2, description, place),
        Described::Room(_) => sentence(rt, 10),
    }
    2
}

fn load_description(rt: HostRuntime, command: Command) -> u32
    ensures { result ≤ 2 }
{
    let mut description = [0u8; DESCRIPTION];
    match load(rt, 2, &mut description) {
        None => 2,
        Some(n) => with_description(rt, command, front_bytes(&description, n)),
    }
}

fn status(rt: HostRuntime) -> u32
    ensures { result ≤ 2 }
{
    let mut word = [0u8; 16];
    let n = argument(&rt, 1, &mut word);
    let command = command_of(front_bytes(&word, n), argument_count(&rt));
    match command {
        Command::Unknown => usage(rt),
        _ => load_description(rt, command),
    }
}

fn main(rt: HostRuntime) {
    let ended = status(rt);
    text(&rt.stdout(), b"status ");
    number(&rt.stdout(), ended as usize);
    text(&rt.stdout(), b"\n");
}
