// Literals and pairs in lent buffers: seven numbers of a literal, its row and where it stands in the
// text; two of a pair.
ghost use Rattle.std.specs.Prelude.{◌≡◌, [], ◌∷◌, ◌+◌, ◌*◌, ◌<◌, ◌≤◌, length, replicate};
ghost use Rattle.std.proofs.lemmas.List.Edits.{sets};
ghost use Rattle.value_notes.specs.Taking.{note_numbers};

use content::Row;

pub(crate) fn put_literal(notes: &mut [u32], i: usize, row: Row, offset: usize, p: usize, e: usize)
    requires { (i * 7 + 6 < length notes.old) × ((offset ≤ 65535) × ((p ≤ 4096) × (e ≤ 4096))) }
    ensures { notes.new ≡ sets notes.old (i * 7) (note_numbers row offset p e) }
{
    let at = i * 7;
    notes[at] = row.kind;
    notes[at + 1] = offset as u32;
    notes[at + 2] = row.size;
    notes[at + 3] = row.scale;
    notes[at + 4] = row.digits;
    notes[at + 5] = p as u32;
    notes[at + 6] = e as u32;
}

pub(crate) fn put_pair(row: &mut [u32], i: usize, low: usize, high: usize)
    requires { (i * 2 + 3 < length row.old) × ((low ≤ 65535) × (high ≤ 65535)) }
    ensures { row.new ≡ sets row.old (i * 2 + 2) (low ∷ high ∷ []) }
{
    let at = i * 2 + 2;
    row[at] = low as u32;
    row[at + 1] = high as u32;
}

// A row of zeros.
pub fn clear(row: &mut [u32])
    ensures { row.new ≡ replicate (length row.old) 0 }
{
    row.fill(0);
}
