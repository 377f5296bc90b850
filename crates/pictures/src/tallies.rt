// One byte of a repeated character and its counts.
ghost use Rattle.std.specs.Prelude.{◌≡◌, ◌≤◌, ◌+◌, ◌*◌, ◌-◌, min};
ghost use Rattle.description.specs.Grammar.{is_digit};
ghost use Rattle.pictures.specs.Steps.{on_settled, on_last, on_counting, on_tally, Small};

use crate::{Pending, Tally};
use text_bytes::bytes::is_digit;

pub(crate) fn capped(n: u32) -> u32
    ensures { result ≡ min n 131072 }
{
    if 131072 < n { 131072 } else { n }
}

fn settled(c: u8, n: u32, b: u8) -> Option<Tally>
    ensures { result ≡ on_settled c n b }
{
    if b == c {
        Some(Tally {
            count: n,
            pending: Pending::Last,
        })
    } else {
        None
    }
}

fn last(c: u8, n: u32, b: u8) -> Option<Tally>
    requires { n ≤ 131072 }
    ensures { result ≡ on_last c n b }
{
    if b == c {
        return Some(Tally {
            count: capped(n + 1),
            pending: Pending::Last,
        });
    }
    if b == 0x28 {
        Some(Tally {
            count: n,
            pending: Pending::Counting(0),
        })
    } else {
        None
    }
}

// the digit more
fn counted(v: u32, b: u8) -> u32
    requires { (v ≤ 131072) × (0x30 ≤ b) }
    ensures { result ≡ min (v * 10 + (b - 0x30)) 131072 }
{
    capped(v * 10 + u32::from(b - 0x30))
}

fn counting(n: u32, v: u32, b: u8) -> Option<Tally>
    requires { (n ≤ 131072) × (v ≤ 131072) }
    ensures { result ≡ on_counting n v b }
{
    if is_digit(b) {
        return Some(Tally {
            count: n,
            pending: Pending::Counting(counted(v, b)),
        });
    }
    if b != 0x29 {
        return None;
    }
    if v == 0 {
        return None;
    }
    Some(Tally {
        count: capped(n + v),
        pending: Pending::Settled,
    })
}

// One byte of a repeated character `c` and its counts.
pub(crate) fn read_byte(c: u8, t: Tally, b: u8) -> Option<Tally>
    requires { Small t }
    ensures { result ≡ on_tally c t b }
{
    let n = t.count;
    let p = t.pending;
    match p {
        Pending::Settled => settled(c, n, b),
        Pending::Last => last(c, n, b),
        Pending::Counting(v) => counting(n, v, b),
    }
}
