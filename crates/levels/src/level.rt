// A level number in a text.
ghost use Rattle.std.specs.Prelude.{◌≡◌, true, [], ◌∷◌, ◌≤◌, ◌<◌, ◌+◌, ◌*◌, ◌-◌, length};
ghost use Rattle.description.specs.Grammar.{is_digit};
ghost use Rattle.description.specs.Reader.{enters, begins_level};
ghost use Rattle.description.specs.Stages.{level_at};
ghost use Rattle.levels.specs.Stack.{groups_of};

use crate::open::enter;
use description::Leveled;
use text_bytes::bytes::{byte_at, is_digit};

fn two_digits(a: u8, b: u8) -> u32
    requires { (is_digit a ≡ true) × (is_digit b ≡ true) }
    ensures { result ≡ 10 * (a - 0x30) + (b - 0x30) }
{
    10 * u32::from(a - 0x30) + u32::from(b - 0x30)
}

// Whether the two bytes are a level number that may stand here.
fn enters_with(stack: &[u32], depth: usize, waiting: u32, a: u8, b: u8) -> bool
    requires { depth ≤ length stack.now }
    ensures { result ≡ enters (groups_of stack.now depth waiting) (a ∷ b ∷ []) }
{
    if !is_digit(a) {
        return false;
    }
    if !is_digit(b) {
        return false;
    }
    let level = two_digits(a, b);
    if 88 <= level {
        return false;
    }
    enter(stack, depth, waiting, level).is_some()
}

// Whether a level number that may stand here begins with this byte.
fn begins_with(stack: &[u32], depth: usize, waiting: u32, a: u8) -> bool
    requires { depth ≤ length stack.now }
    ensures { result ≡ begins_level (groups_of stack.now depth waiting) (a ∷ []) }
{
    for n in 0..10 {
        if enters_with(stack, depth, waiting, a, 0x30 + n) {
            return true;
        }
    }
    false
}

// The level number at place p, or the first faulty byte. `named`: 88 may stand here.
pub fn level_at(
    stack: &[u32],
    depth: usize,
    waiting: u32,
    named: bool,
    text: &[u8],
    p: usize,
) -> Result<Leveled, usize>
    requires { (depth ≤ length stack.now) × (p < length text.now) }
    ensures { result ≡ level_at (groups_of stack.now depth waiting) named text.now p }
{
    let a = byte_at(text, p);
    let b = byte_at(text, p + 1);
    if enters_with(stack, depth, waiting, a, b) {
        return Ok(Leveled::Level(two_digits(a, b)));
    }
    if named & ((a == 0x38) & (b == 0x38)) {
        return Ok(Leveled::Name);
    }
    if begins_with(stack, depth, waiting, a) | (named & (a == 0x38)) {
        return Err(p + 1);
    }
    Err(p)
}
