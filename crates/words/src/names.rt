// Names and FILLER.
ghost use Rattle.std.specs.Prelude.{◌≡◌, [], ◌≤◌, length};
ghost use Rattle.description.specs.Grammar.{all, any, is_letter, is_name_byte};
ghost use Rattle.description.specs.Reader.{is_name, is_called, begins_name};
ghost use Rattle.description.specs.Stages.{reach, is_period, name_at, label_at};
ghost use Rattle.words.specs.Runs.{name_run};

use description::Called;
use keywords::{is_keyword, same_bytes};
use text_bytes::blanks::next_ink;
use text_bytes::bytes::{is_letter, is_name_byte};

fn all_name_bytes(w: &[u8]) -> bool
    ensures { result ≡ all is_name_byte w.now }
{
    for b in w {
        if !is_name_byte(*b) {
            return false;
        }
    }
    true
}

fn any_letter(w: &[u8]) -> bool
    ensures { result ≡ any is_letter w.now }
{
    for b in w {
        if is_letter(*b) {
            return true;
        }
    }
    false
}

pub fn is_name(w: &[u8]) -> bool
    ensures { result ≡ is_name w.now }
{
    if w.len() == 0 {
        return false;
    }
    let last = w.len() - 1;
    all_name_bytes(w)
        & (w[0] != 0x2d)
        & (w[last] != 0x2d)
        & any_letter(w)
        & (w.len() <= 30)
        & !is_keyword(w)
}

// A name or FILLER.
fn is_called(w: &[u8]) -> bool
    ensures { result ≡ is_called w.now }
{
    same_bytes(w, b"FILLER") | is_name(w)
}

// How many bytes stand first that a name may have, `most` at most.
fn name_run(rest: &[u8], most: usize) -> usize
    ensures { result ≡ name_run most rest.now }
{
    for k in 0..most {
        if rest.len() <= k {
            return k;
        }
        if !is_name_byte(rest[k]) {
            return k;
        }
    }
    most
}

// How many bytes may begin a name. With 29, one byte more must make it whole.
fn name_reach(rest: &[u8]) -> usize
    ensures { result ≡ reach begins_name [] rest.now }
{
    if rest.len() == 0 {
        return 0;
    }
    if rest[0] == 0x2d {
        return 0;
    }
    let m = name_run(rest, 29);
    if m != 29 {
        return m;
    }
    if rest.len() <= 29 {
        return 29;
    }
    if is_name(&rest[..30]) {
        return 30;
    }
    29
}

pub fn period_at(text: &[u8], k: usize) -> bool
    ensures { result ≡ is_period text.now k }
{
    if text.len() <= k {
        return false;
    }
    text[k] == 0x2e
}

// The name or FILLER of an entry, after a blank at n, or the first faulty byte.
pub fn name_at(level: u32, text: &[u8], n: usize) -> Result<Called, usize>
    requires { n ≤ length text.now }
    ensures { result ≡ name_at level text.now n }
{
    let p = next_ink(text, n);
    if p == n {
        return Err(n);
    }
    let m = name_reach(&text[p..]);
    let k = p + m;
    if !is_called(&text[p..k]) {
        return Err(k);
    }
    if period_at(text, k) & (level <= 48) {
        Ok(Called::Group(k + 1))
    } else {
        Ok(Called::Item(k))
    }
}

// The name of a level 88 entry, after a blank at n: no FILLER, no period. Where it ends, or the first faulty byte.
pub fn label_at(text: &[u8], n: usize) -> Result<usize, usize>
    requires { n ≤ length text.now }
    ensures { result ≡ label_at text.now n }
{
    let p = next_ink(text, n);
    if p == n {
        return Err(n);
    }
    let m = name_reach(&text[p..]);
    let k = p + m;
    if is_name(&text[p..k]) {
        return Ok(k);
    }
    Err(k)
}
