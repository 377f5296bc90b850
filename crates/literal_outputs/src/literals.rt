// Literals of level 88 entries. Seven numbers of each are noted: its row, and where its word starts and
// ends.
ghost use Rattle.std.specs.Prelude.{◌≡◌, ◌++◌, ◌+◌, ◌*◌, ◌≤◌, ◌<◌, length, drop};
ghost use Rattle.literal_bytes.specs.Written.{written_over};
ghost use Rattle.outputs.specs.Noted.{noted_row, rows_from, bytes_from, Words};
ghost use Rattle.content.specs.Kinds.{row_width};

use content::Row;
use literal_bytes::copies::copy_literal;

pub fn copy_rows(notes: &[u32], n: usize, to: &mut [u32])
    requires { (n * 7 ≤ length notes.now) × (n * row_width ≤ length to.old) }
    ensures { to.new ≡ rows_from notes.now 0 n ++ drop (n * row_width) to.old }
{
    for i in 0..n {
        let from = i * 7;
        let at = i * Row::WIDTH;
        to[at] = notes[from];
        to[at + 1] = notes[from + 1];
        to[at + 2] = notes[from + 2];
        to[at + 3] = notes[from + 3];
        to[at + 4] = notes[from + 4];
    }
}

// The row of literal i.
fn noted_row(notes: &[u32], i: usize) -> Row
    requires { i * 7 + 4 < length notes.now }
    ensures { result ≡ noted_row notes.now i }
{
    let at = i * 7;
    Row {
        kind: notes[at],
        offset: notes[at + 1],
        size: notes[at + 2],
        scale: notes[at + 3],
        digits: notes[at + 4],
    }
}

// The bytes of each literal, from its word.
pub fn copy_words(text: &[u8], notes: &[u32], n: usize, to: &mut [u8])
    requires { Words text.now notes.now n × (length (bytes_from text.now notes.now 0 n) ≤ length to.old) }
    ensures { to.new ≡ written_over (bytes_from text.now notes.now 0 n) to.old }
{
    for i in 0..n {
        let note = i * 7;
        let at = notes[note + 1] as usize;
        let from = notes[note + 5] as usize;
        let until = notes[note + 6] as usize;
        copy_literal(noted_row(notes, i), &text[from..until], &mut to[at..]);
    }
}
