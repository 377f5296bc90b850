// A number with its point.
ghost use Rattle.std.specs.Prelude.{◌≡◌, ◌≤◌, length};
ghost use Rattle.spelling.specs.Literals.{pointed};
ghost use Rattle.literal_bytes.specs.Written.{written_over};

use literal_bytes::copies::copy_bytes;

pub fn pointed_size(scale: usize, part: &[u8]) -> usize
    requires { (scale ≤ length part.now) × (length part.now ≤ 256) }
    ensures { result ≡ length (pointed scale part.now) }
{
    if scale == 0 {
        return part.len();
    }
    part.len() + 1
}

// With a point before the last digits.
pub fn put_pointed(scale: usize, part: &[u8], out: &mut [u8])
    requires { (scale ≤ length part.now) × (length (pointed scale part.now) ≤ length out.old) }
    ensures { out.new ≡ written_over (pointed scale part.now) out.old }
{
    if scale == 0 {
        copy_bytes(part, out);
        return;
    }
    let whole = part.len() - scale;
    let after = whole + 1;
    copy_bytes(&part[..whole], out);
    out[whole] = 0x2e;
    copy_bytes(&part[whole..], &mut out[after..]);
}
