// The parts of a case, each a count and so many words: items, literals, literal bytes, names, tokens, plan,
// record. Behind them stand the switch byte and how many numbers expand and plan have room for.
ghost use Rattle.std.specs.Prelude.{◌≡◌, drop};
ghost use Rattle.vectors.specs.Parts.{part_at, setting_at, is_whole, switches_in, PartEnds, Starts};

// Room for the words of every case, and for the numbers of every output.
pub const WORDS: usize = 2048;

pub const ROOM: usize = 1024;

pub const ITEMS: usize = 0;

pub const LITERALS: usize = 1;

pub const BYTES: usize = 2;

pub const NAMES: usize = 3;

pub const TOKENS: usize = 4;

pub const PLAN: usize = 5;

pub const RECORD: usize = 6;

const PARTS: usize = 7;

// The words behind the parts.
const SWITCHES: usize = 0;

pub const EXPAND_ROOM: usize = 1;

pub const PLAN_ROOM: usize = 2;

const SETTINGS: usize = 3;

// The words from a place on.
fn rest(words: &[u32], at: usize) -> &[u32]
    ensures { result.now ≡ drop at words.now }
{
    if at <= words.len() {
        return &words[at..];
    }
    &words[0..0]
}

// Where the part that starts at a place ends; where the words end, if it is longer than they are.
fn part_end(words: &[u32], at: usize) -> usize
    ensures { PartEnds words.now at result }
{
    if at < words.len() {
        let count = words[at] as usize;
        if count < words.len() - at {
            return at + 1 + count;
        }
    }
    words.len()
}

// Where a part starts.
fn start(words: &[u32], part: usize) -> usize
    ensures { Starts words.now part result }
{
    let mut at: usize = 0;
    for passed in 0..part {
        at = part_end(words, at);
    }
    at
}

pub(crate) fn part(words: &[u32], number: usize) -> &[u32]
    ensures { result.now ≡ part_at number words.now }
{
    let at = start(words, number);
    let end = part_end(words, at);
    if at < end {
        return &words[at + 1..end];
    }
    &words[0..0]
}

// One of the words behind the parts; more than any room where there is none.
pub(crate) fn setting(words: &[u32], number: usize) -> usize
    ensures { result ≡ setting_at number words.now }
{
    let settings = rest(words, start(words, PARTS));
    if number < settings.len() {
        return settings[number] as usize;
    }
    WORDS
}

// Whether the parts and the words behind them are all, and the outputs have room.
pub(crate) fn whole(words: &[u32]) -> bool
    ensures { result ≡ is_whole words.now }
{
    if rest(words, start(words, PARTS)).len() == SETTINGS {
        if setting(words, EXPAND_ROOM) <= ROOM {
            return setting(words, PLAN_ROOM) <= ROOM;
        }
    }
    false
}

pub(crate) fn switches(words: &[u32]) -> u8
    ensures { result ≡ switches_in words.now }
{
    (setting(words, SWITCHES) % 256) as u8
}
