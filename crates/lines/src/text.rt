// Bytes as they are, and spaces.
ghost use Rattle.std.specs.Prelude.{◌++◌, ◌-◌, length, replicate};
ghost use Rattle.lines.specs.Put.{Puts};

// A text from a place on, as far as there is room; and where the next one goes.
pub fn put(out: &mut [u8], at: usize, text: &[u8]) -> usize
    ensures { Puts out.old at text.now result out.new }
{
    if at >= out.len() {
        return at;
    }
    let n = text.len().min(out.len() - at);
    out[at..at + n].copy_from_slice(&text[..n]);
    at + n
}

// So many spaces.
pub fn put_spaces(out: &mut [u8], at: usize, count: usize) -> usize
    ensures { Puts out.old at (replicate count 0x20) result out.new }
{
    let mut end = at;
    for _ in 0..count {
        end = put(out, end, b" ");
    }
    end
}

// A text in a column: spaces after it up to a width.
pub fn put_column(out: &mut [u8], at: usize, text: &[u8], width: usize) -> usize
    ensures { Puts out.old at (text.now ++ replicate (width - length text.now) 0x20) result out.new }
{
    let end = put(out, at, text);
    if text.len() >= width {
        return end;
    }
    put_spaces(out, end, width - text.len())
}
