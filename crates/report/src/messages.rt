// Lines that tell of a refusal.
ghost use Rattle.std.specs.Prelude.{[], ◌∷◌, ◌++◌, replicate};
ghost use Rattle.lines.specs.Put.{Puts};
ghost use Rattle.report.specs.Messages.{PutsRefusal, PutsSpot, unseen};

use lines::text::{put, put_spaces};
use number_lines::numbers::{put_hex, put_number};
use wordings::sentences::put_sentence;

// A word, the refusal's number and its sentence.
pub fn put_refusal(out: &mut [u8], at: usize, word: &[u8], number: u32) -> usize
    ensures { PutsRefusal out.old at word.now number result out.new }
{
    let said = put(out, at, word);
    let figure = put_number(out, said, number as usize);
    let parted = put(out, figure, b", ");
    let told = put_sentence(out, parted, number);
    put(out, told, b"\n")
}

// After the name of a text, where in it.
pub fn put_spot(out: &mut [u8], at: usize, line: usize, column: usize) -> usize
    ensures { PutsSpot out.old at line column result out.new }
{
    let lead = put(out, at, b", line ");
    let row = put_number(out, lead, line);
    let middle = put(out, row, b", column ");
    let place = put_number(out, middle, column);
    put(out, place, b":\n")
}

// A caret under the byte that so many come before.
pub fn put_caret(out: &mut [u8], at: usize, before: usize) -> usize
    ensures { Puts out.old at (replicate before 0x20 ++ 0x5E ∷ 0x0A ∷ []) result out.new }
{
    let under = put_spaces(out, at, before);
    put(out, under, b"^\n")
}

// What stands over the caret, where nobody can see it: a tab, a carriage return.
pub fn put_unseen(out: &mut [u8], at: usize, byte: u8) -> usize
    ensures { Puts out.old at (unseen byte) result out.new }
{
    if (0x20 <= byte) & (byte <= 0x7E) | (byte == 0x0A) {
        return put(out, at, b"");
    }
    let lead = put(out, at, b"there stands hex ");
    let told = put_hex(out, lead, byte);
    put(out, told, b"\n")
}
