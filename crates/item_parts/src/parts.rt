// The bytes of an item compared, copied and replaced.
ghost use Rattle.std.specs.Prelude.{◌≡◌, ◌+◌, ◌≤◌, length, take};
ghost use Rattle.items.specs.Items.{same, replaced};

use content::Row;

pub fn same_bytes(xs: &[u8], ys: &[u8]) -> bool
    ensures { result ≡ same xs.now ys.now }
{
    xs == ys
}

pub fn copy_bytes(from: &[u8], out: &mut [u8])
    requires { length out.old ≡ length from.now }
    ensures { out.new ≡ from.now }
{
    // Not `copy_from_slice`: through it the archive for C would ask for memmove.
    for i in 0..from.len() {
        out[i] = from[i];
    }
}

// The record with the row's part replaced.
pub fn put_part(row: Row, bytes: &[u8], out: &mut [u8])
    requires { (length bytes.now ≡ row.size) × (row.offset + row.size ≤ length out.old) }
    ensures { out.new ≡ replaced row bytes.now out.old }
{
    let start = row.offset as usize;
    let end = start + row.size as usize;
    copy_bytes(bytes, &mut out[start..end]);
}
