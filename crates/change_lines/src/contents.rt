// What an item holds.
ghost use Rattle.std.specs.Prelude.{◌≡◌};
ghost use Rattle.lines.specs.Put.{Puts};
ghost use Rattle.change_lines.specs.Contents.{is_shown, byte_shown, content_shown};

use lines::text::put;
use number_lines::numbers::put_hex;

// A stroke stands before two digits, so it is not shown as itself.
fn is_shown(byte: u8) -> bool
    ensures { result ≡ is_shown byte }
{
    (0x20 <= byte) & (byte <= 0x7E) & (byte != 0x5C)
}

fn put_byte(out: &mut [u8], at: usize, byte: u8) -> usize
    ensures { Puts out.old at (byte_shown byte) result out.new }
{
    if is_shown(byte) {
        return put(out, at, &[byte]);
    }
    let stroke = put(out, at, b"\\");
    put_hex(out, stroke, byte)
}

// Its characters in quotes, a byte that has none as two digits after a stroke.
pub(crate) fn put_content(out: &mut [u8], at: usize, bytes: &[u8]) -> usize
    ensures { Puts out.old at (content_shown bytes.now) result out.new }
{
    let mut end = put(out, at, b"\"");
    for byte in bytes {
        end = put_byte(out, end, *byte);
    }
    put(out, end, b"\"")
}
