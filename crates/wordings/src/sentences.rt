// What a refusal's number means.
ghost use Rattle.std.specs.Prelude.{◌≡◌, ◌≤◌, length, drop};
ghost use Rattle.lines.specs.Put.{Puts};
ghost use Rattle.wordings.specs.Lines.{after_lines, line_of};
ghost use Rattle.wordings.specs.Sentences.{sentence};

use line_places::places::line_rest;
use lines::text::put;

// Where line `number` of a text starts, from 0 on; the text's end where there is no such line.
fn line_at(text: &[u8], number: u32) -> usize
    ensures { (result ≤ length text.now) × (drop result text.now ≡ after_lines number text.now) }
{
    let mut left = number;
    for (i, byte) in text.iter().enumerate() {
        if left == 0 {
            return i;
        }
        if *byte == 0x0A {
            left -= 1;
        }
    }
    text.len()
}

// That line.
fn put_line(out: &mut [u8], at: usize, text: &[u8], number: u32) -> usize
    ensures { Puts out.old at (line_of number text.now) result out.new }
{
    let start = line_at(text, number);
    let rest = &text[start..];
    let size = line_rest(rest);
    put(out, at, &rest[..size])
}

// The sentence of a refusal, nothing for any other number: a line for each number from 0 on.
pub fn put_sentence(out: &mut [u8], at: usize, number: u32) -> usize
    ensures { Puts out.old at (sentence number) result out.new }
{
    put_line(
        out,
        at,
        b"\n\
the item table is not whole rows, or has more than 64\n\
this item row breaks its rules\n\
the literal table is not whole rows, or has more than 64\n\
this literal row breaks its rules\n\
the rule has no word, or more than 256\n\
there is no such token\n\
no rule can go on like this\n\
more than 16 brackets are open\n\
these may not be compared or tested so\n\
there is too little room for the result\n\
the plan is not sound\n\
the record ends before this item does\n\
this item has to hold a number and does not\n\
no description can go on like this, or this entry passes a limit\n\
this word means nothing in a rule, or passes a limit\n\
nothing has this name, or more than one has it\n\
this item has to hold letters and spaces and does not\n\
this condition-name is not sound\n\
this item shares a byte with an earlier one\n\
the copies are not equally long\n\
records of this size do not fill the file\n",
        number,
    )
}
