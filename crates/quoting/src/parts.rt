// Bytes in quotes, or with a point.
ghost use Rattle.std.specs.Prelude.{◌≡◌, ◌≤◌, length};
ghost use Rattle.spelling.specs.Literals.{doubled, quoted};
ghost use Rattle.literal_bytes.specs.Written.{written_over};

use literal_bytes::copies::stride;

// The number of bytes with each quote doubled.
fn doubled_size(part: &[u8]) -> usize
    requires { length part.now ≤ 256 }
    ensures { result ≡ length (doubled part.now) }
{
    let mut size: usize = 0;
    for b in part {
        size += stride(*b);
    }
    size
}

pub fn quoted_size(part: &[u8]) -> usize
    requires { length part.now ≤ 256 }
    ensures { result ≡ length (quoted part.now) }
{
    doubled_size(part) + 2
}

// A quote is written again where the next byte will not be.
fn put_doubled(part: &[u8], out: &mut [u8])
    requires { length (doubled part.now) ≤ length out.old }
    ensures { out.new ≡ written_over (doubled part.now) out.old }
{
    let mut n: usize = 0;
    for b in part {
        out[n] = *b;
        n += stride(*b);
        out[n - 1] = *b;
    }
}

pub fn put_quoted(part: &[u8], out: &mut [u8])
    requires { (length part.now ≤ 256) × (length (quoted part.now) ≤ length out.old) }
    ensures { out.new ≡ written_over (quoted part.now) out.old }
{
    let last = quoted_size(part) - 1;
    out[0] = 0x22;
    put_doubled(part, &mut out[1..]);
    out[last] = 0x22;
}
