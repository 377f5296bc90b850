// What follows an item's name. Counts of a picture stop at 131,072, and what an entry has at 65,536.
ghost use Rattle.std.specs.Prelude.{◌≡◌, ◌≤◌, length};
ghost use Rattle.description.specs.Grammar.{packed_kind};
ghost use Rattle.description.specs.Stages.{side_at, after_side, sign_at, packed_at, usage_at, clauses_at};
ghost use Rattle.entries.specs.Entries.{cap, cap_ended, cap_clauses, sided_by, separate_at, picture_clause};

use content::Row;
use description::{Clauses, Pictured, Sided};
use pictures::scan::picture_at;
use text_bytes::blanks::next_ink;
use text_bytes::bytes::byte_at;
use wanted_words::literals::literal;

fn side_word(word: &[u8], kind: u32, text: &[u8], n: usize) -> Result<Sided, usize>
    requires { n ≤ length text.now }
    ensures { result ≡ sided_by word.now kind text.now n }
{
    let end = literal(word, text, n)?;
    Ok(Sided { kind, end })
}

// LEADING or TRAILING.
fn side_at(text: &[u8], n: usize) -> Result<Sided, usize>
    requires { n ≤ length text.now }
    ensures { result ≡ side_at text.now n }
{
    let p = next_ink(text, n);
    if byte_at(text, p) == 0x54 {
        side_word(b"TRAILING", Row::SIGN_TRAILING, text, n)
    } else {
        side_word(b"LEADING", Row::SIGN_LEADING, text, n)
    }
}

fn stopped(n: u32) -> u32
    ensures { result ≡ cap n }
{
    if 65536 < n { 65536 } else { n }
}

// As an entry keeps them: sizes, scales and counts of digits stop at 65,536.
fn ended(x: Clauses) -> Clauses
    ensures { result ≡ cap_ended x }
{
    Clauses {
        kind: x.kind,
        size: stopped(x.size),
        scale: stopped(x.scale),
        digits: stopped(x.digits),
        end: x.end,
    }
}

fn separate(kind: u32, i: u32, j: u32, text: &[u8], n: usize) -> Result<Clauses, usize>
    requires { (n ≤ length text.now) × ((i ≤ 131072) × (j ≤ 131072)) }
    ensures { result ≡ cap_clauses (separate_at kind i j text.now n) }
{
    let end = literal(b"SEPARATE.", text, n)?;
    Ok(ended(Clauses {
        kind,
        size: i + j + 1,
        scale: j,
        digits: i + j,
        end,
    }))
}

fn side_clause(i: u32, j: u32, text: &[u8], n: usize) -> Result<Clauses, usize>
    requires { (n ≤ length text.now) × ((i ≤ 131072) × (j ≤ 131072)) }
    ensures { result ≡ cap_clauses (after_side text.now i j (side_at text.now n)) }
{
    let side = side_at(text, n)?;
    separate(side.kind, i, j, text, side.end)
}

// The sign clause after a picture of i and j digits.
fn sign_at(i: u32, j: u32, text: &[u8], n: usize) -> Result<Clauses, usize>
    requires { (n ≤ length text.now) × ((i ≤ 131072) × (j ≤ 131072)) }
    ensures { result ≡ cap_clauses (sign_at i j text.now n) }
{
    let k = literal(b"SIGN", text, n)?;
    side_clause(i, j, text, k)
}

fn packed_kind(signed: bool) -> u32
    ensures { result ≡ packed_kind signed }
{
    if signed {
        return Row::PACKED;
    }
    Row::PACKED_UNSIGNED
}

// COMP-3 after a picture of i and j digits.
fn packed_at(signed: bool, i: u32, j: u32, text: &[u8], n: usize) -> Result<Clauses, usize>
    requires { (n ≤ length text.now) × ((i ≤ 131072) × (j ≤ 131072)) }
    ensures { result ≡ cap_clauses (packed_at signed i j text.now n) }
{
    let end = literal(b"COMP-3.", text, n)?;
    Ok(ended(Clauses {
        kind: packed_kind(signed),
        size: (i + j) / 2 + 1,
        scale: j,
        digits: i + j,
        end,
    }))
}

// SIGN, after an S, or COMP-3.
fn usage_at(signed: bool, i: u32, j: u32, text: &[u8], n: usize) -> Result<Clauses, usize>
    requires { (n ≤ length text.now) × ((i ≤ 131072) × (j ≤ 131072)) }
    ensures { result ≡ cap_clauses (usage_at signed i j text.now n) }
{
    let p = next_ink(text, n);
    if signed & (byte_at(text, p) == 0x53) {
        sign_at(i, j, text, n)
    } else {
        packed_at(signed, i, j, text, n)
    }
}

fn picture_clause(text: &[u8], n: usize) -> Result<Clauses, usize>
    requires { (n ≤ length text.now) × (length text.now ≤ 4096) }
    ensures { result ≡ cap_clauses (picture_clause text.now n) }
{
    match picture_at(text, n)? {
        Pictured::Ended(x) => Ok(ended(x)),
        Pictured::Number {
            signed,
            whole,
            fraction,
            end,
        } => usage_at(signed, whole, fraction, text, end),
    }
}

// What follows an item's name at n.
pub(crate) fn clauses_at(text: &[u8], n: usize) -> Result<Clauses, usize>
    requires { (n ≤ length text.now) × (length text.now ≤ 4096) }
    ensures { result ≡ cap_clauses (clauses_at text.now n) }
{
    let k = literal(b"PIC", text, n)?;
    picture_clause(text, k)
}
