// The kind of an item in words.
#![tactic(auto)]

ghost use Rattle.std.specs.Prelude.{◌++◌, ◌-◌, length, replicate};
ghost use Rattle.lines.specs.Put.{Puts};
ghost use Rattle.kind_words.specs.Kinds.{kind_words};

use content::Row;
use lines::text::{put_column, put_spaces};

// What a row's kind is called, nothing for a number that is no kind; spaces after it up to a width.
pub fn put_kind(out: &mut [u8], at: usize, kind: u32, width: usize) -> usize
    ensures { Puts out.old at (kind_words kind ++ replicate (width - length (kind_words kind)) 0x20) result out.new }
{
    if kind > Row::PACKED_UNSIGNED {
        return put_spaces(out, at, width);
    }
    match kind {
        Row::GROUP => put_column(out, at, b"group", width),
        Row::ALPHABETIC => put_column(out, at, b"alphabetic", width),
        Row::ALPHANUMERIC => put_column(out, at, b"alphanumeric", width),
        Row::UNSIGNED => put_column(out, at, b"unsigned", width),
        Row::SIGNED => put_column(out, at, b"signed in its last byte", width),
        Row::SIGN_LEADING => put_column(out, at, b"sign leading", width),
        Row::SIGN_TRAILING => put_column(out, at, b"sign trailing", width),
        Row::UNSIGNED_GROUP => put_column(out, at, b"group without sign", width),
        Row::PACKED => put_column(out, at, b"packed, signed", width),
        _ => put_column(out, at, b"packed, unsigned", width),
    }
}
