// What is given where there is room.
ghost use Rattle.std.specs.Prelude.{◌≡◌, ◌*◌, ◌≤◌, length, take};
ghost use Rattle.literal_bytes.specs.Written.{written_over};
ghost use Rattle.books.specs.Calls.{Gives};
ghost use Rattle.content.specs.Kinds.{row_width};

use crate::{Counts, ReadRefusal};
use content::Row;
use lexer::Gathered;
use literal_bytes::copies::copy_bytes;

// Numbers over the start of an output.
fn copy_numbers(from: &[u32], to: &mut [u32])
    requires { length from.now ≤ length to.old }
    ensures { to.new ≡ written_over from.now to.old }
{
    to[..from.len()].copy_from_slice(from);
}

// What was gathered. A refusal changes no output.
pub fn give(
    held: Gathered,
    tokens: &[u32],
    rows: &[u32],
    bytes: &[u8],
    out: &mut [u32],
    literals: &mut [u32],
    content: &mut [u8],
) -> Result<Counts, ReadRefusal>
    requires { (held.tokens ≤ length tokens.now) × (held.literals * row_width ≤ length rows.now) × (held.bytes ≤ length bytes.now) }
    ensures { Gives (take held.tokens tokens.now) (take (held.literals * row_width) rows.now) (take held.bytes bytes.now) out.old literals.old content.old result out.new literals.new content.new }
{
    let n = held.tokens;
    let v = held.literals * Row::WIDTH;
    let b = held.bytes;
    if !((1 <= n) & (n <= 256)) {
        return Err(ReadRefusal::TokenCount);
    }
    if out.len() < n {
        return Err(ReadRefusal::Room(n));
    }
    if literals.len() < v {
        return Err(ReadRefusal::Room(v));
    }
    if content.len() < b {
        return Err(ReadRefusal::Room(b));
    }
    copy_numbers(&tokens[..n], out);
    copy_numbers(&rows[..v], literals);
    copy_bytes(&bytes[..b], content);
    Ok(Counts {
        tokens: n,
        literals: v,
        bytes: b,
    })
}
