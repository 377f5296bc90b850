// One byte of a picture, and what a picture is where it ends.
ghost use Rattle.std.specs.Prelude.{◌≡◌, ◌≤◌};
ghost use Rattle.pictures.specs.Steps.{Small, total_of};
ghost use Rattle.pictures.specs.Drawings.{SmallDrawn, on_letters, on_pointed, on_point, on_number, on_first, on_drawn, number_end, letters_end, drawn_end};

use crate::tallies::{capped, read_byte};
use crate::{Drawn, Pending, Tally};
use content::Row;
use description::{Clauses, Pictured};

// How often a repeated character stands, where no count is being read.
fn total(t: Tally) -> Option<u32>
    requires { Small t }
    ensures { result ≡ total_of t }
{
    let n = t.count;
    let p = t.pending;
    match p {
        Pending::Settled => Some(n),
        Pending::Last => Some(capped(n + 1)),
        Pending::Counting(_) => None,
    }
}

fn letters(c: u8, t: Tally, b: u8) -> Option<Drawn>
    requires { Small t }
    ensures { result ≡ on_letters c t b }
{
    let u = read_byte(c, t, b)?;
    Some(Drawn::Letters(c, u))
}

fn pointed(signed: bool, before: u32, t: Tally, b: u8) -> Option<Drawn>
    requires { Small t }
    ensures { result ≡ on_pointed signed before t b }
{
    let u = read_byte(0x39, t, b)?;
    Some(Drawn::Pointed(signed, before, u))
}

// V after the digits that stand before it.
fn point(signed: bool, t: Tally) -> Option<Drawn>
    requires { Small t }
    ensures { result ≡ on_point signed t }
{
    let m = total(t)?;
    let none = Tally {
        count: 0,
        pending: Pending::Settled,
    };
    Some(Drawn::Pointed(signed, m, none))
}

fn number(signed: bool, t: Tally, b: u8) -> Option<Drawn>
    requires { Small t }
    ensures { result ≡ on_number signed t b }
{
    if b == 0x56 {
        return point(signed, t);
    }
    let u = read_byte(0x39, t, b)?;
    Some(Drawn::Whole(signed, u))
}

fn first(b: u8) -> Option<Drawn>
    ensures { result ≡ on_first b }
{
    let one = Tally {
        count: 0,
        pending: Pending::Last,
    };
    if b == 0x58 {
        return Some(Drawn::Letters(0x58, one));
    }
    if b == 0x41 {
        return Some(Drawn::Letters(0x41, one));
    }
    let none = Tally {
        count: 0,
        pending: Pending::Settled,
    };
    if b == 0x53 {
        return Some(Drawn::Whole(true, none));
    }
    number(false, none, b)
}

// One byte of a picture.
pub(crate) fn draw_byte(d: Drawn, b: u8) -> Option<Drawn>
    requires { SmallDrawn d }
    ensures { result ≡ on_drawn d b }
{
    match d {
        Drawn::Nothing => first(b),
        Drawn::Letters(c, t) => letters(c, t, b),
        Drawn::Whole(s, t) => number(s, t, b),
        Drawn::Pointed(s, m, t) => pointed(s, m, t, b),
    }
}

fn number_end(signed: bool, m: u32, n: u32, k: usize, period: bool) -> Result<Pictured, usize>
    requires { (m ≤ 131072) × ((n ≤ 131072) × (k ≤ 131072)) }
    ensures { result ≡ number_end signed m n k period }
{
    let digits = capped(m + n);
    if digits == 0 {
        return Err(k);
    }
    if period {
        return Ok(Pictured::Ended(Clauses {
            kind: if signed { Row::SIGNED } else { Row::UNSIGNED },
            size: digits,
            scale: n,
            digits,
            end: k + 1,
        }));
    }
    Ok(Pictured::Number {
        signed,
        whole: m,
        fraction: n,
        end: k,
    })
}

fn letters_end(c: u8, n: u32, k: usize, period: bool) -> Result<Pictured, usize>
    requires { k ≤ 131072 }
    ensures { result ≡ letters_end c n k period }
{
    if n == 0 {
        return Err(k);
    }
    if !period {
        return Err(k);
    }
    Ok(Pictured::Ended(Clauses {
        kind: if c == 0x58 {
            Row::ALPHANUMERIC
        } else {
            Row::ALPHABETIC
        },
        size: n,
        scale: 0,
        digits: 0,
        end: k + 1,
    }))
}

// What a picture is that goes on to place k, with or without a period there.
pub(crate) fn drawn_end(d: Drawn, k: usize, period: bool) -> Result<Pictured, usize>
    requires { (SmallDrawn d) × (k ≤ 131072) }
    ensures { result ≡ drawn_end d k period }
{
    match d {
        Drawn::Nothing => Err(k),
        Drawn::Letters(c, t) => match total(t) {
            Some(n) => letters_end(c, n, k, period),
            None => Err(k),
        },
        Drawn::Whole(s, t) => match total(t) {
            Some(m) => number_end(s, m, 0, k, period),
            None => Err(k),
        },
        Drawn::Pointed(s, m, t) => match total(t) {
            Some(n) => number_end(s, m, n, k, period),
            None => Err(k),
        },
    }
}
