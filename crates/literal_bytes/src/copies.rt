// The bytes of a literal, written.
ghost use Rattle.std.specs.Prelude.{◌≡◌, false, cond, ◌++◌, ◌≤◌, length, drop};
ghost use Rattle.spelling.specs.Words.{is_quote};
ghost use Rattle.spelling.specs.Literals.{undoubled, number_of};
ghost use Rattle.literal_bytes.specs.Written.{literal_by, written_over};
ghost use Rattle.content.specs.Kinds.{kind_alphanumeric};

use crate::points::point_place;
use content::Row;

pub fn copy_bytes(from: &[u8], to: &mut [u8])
    requires { length from.now ≤ length to.old }
    ensures { to.new ≡ written_over from.now to.old }
{
    // Not `copy_from_slice`: through it the archive for C would ask for memmove.
    for n in 0..from.len() {
        to[n] = from[n];
    }
}

// The bytes of a number: its point is left out.
fn copy_number(word: &[u8], to: &mut [u8])
    requires { length (number_of word.now).bytes ≤ length to.old }
    ensures { to.new ≡ written_over (number_of word.now).bytes to.old }
{
    let point = point_place(word);
    copy_bytes(&word[..point], to);
    if point < word.len() {
        copy_bytes(&word[point + 1..], &mut to[point..]);
    }
}

// How far it is to the next byte that is kept: of each two quotes one is left out.
pub fn stride(b: u8) -> usize
    ensures { result ≡ cond (is_quote b) 2 1 }
{
    if b == 0x22 {
        return 2;
    }
    1
}

fn copy_undoubled(from: &[u8], to: &mut [u8])
    requires { length (undoubled false from.now) ≤ length to.old }
    ensures { to.new ≡ written_over (undoubled false from.now) to.old }
{
    let mut n: usize = 0;
    let mut i: usize = 0;
    // The step depends on what is read.
    while i < from.len() {
        let b = from[i];
        to[n] = b;
        n += 1;
        i += stride(b);
    }
}

// The bytes of a literal of this kind that a word writes.
pub fn copy_literal(row: Row, word: &[u8], to: &mut [u8])
    requires { (row.kind ≡ kind_alphanumeric → 2 ≤ length word.now) × (length (literal_by row.kind word.now).bytes ≤ length to.old) }
    ensures { to.new ≡ written_over (literal_by row.kind word.now).bytes to.old }
{
    let kind = row.kind;
    if kind == Row::ALPHANUMERIC {
        let last = word.len() - 1;
        copy_undoubled(&word[1..last], to);
        return;
    }
    copy_number(word, to);
}
