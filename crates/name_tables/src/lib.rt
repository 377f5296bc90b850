// Refusal 18: the rows of the name table, of tables that 1 to 4 let pass.
#![tactic(auto)]

ghost use Rattle.std.specs.Prelude.{◌≡◌, ◌+◌, ◌*◌, ◌<◌, length, Ok};
ghost use Rattle.tables.specs.Rows.{name_width};
ghost use Rattle.tables.specs.Operands.{lend, lend_names};
ghost use Rattle.tables.specs.Refusals.{first_of};
ghost use Rattle.tables.specs.Tables.{table_lines};
ghost use Rattle.values.specs.Names.{every, name_sound, name_check};
ghost use Rattle.literal_sides.specs.Ranges.{Literals, place_of};

use content::Row;
use literal_sides::literals::number_at;
use name_pairs::pair_sound;
use tables::Refusal;
use tables::rows::{NAME_TABLE, NAME_WIDTH, row_at};

// Place k of the eight: a pair, or zeros.
fn place_sound(item: Row, literals: &[u32], bytes: &[u8], names: &[u32], v: usize, k: usize) -> bool
    requires { Literals literals.now bytes.now × (v * name_width + 17 < length names.now) × (k < 8) }
    ensures { result ≡ place_of literals.now bytes.now names.now item v k }
{
    let at = v * NAME_WIDTH;
    let low = number_at(names, at + 2 + k * 2);
    let high = number_at(names, at + 3 + k * 2);
    if k < number_at(names, at + 1) {
        return pair_sound(item, literals, bytes, low, high);
    }
    (low == 0) & (high == 0)
}

fn places_sound(item: Row, literals: &[u32], bytes: &[u8], names: &[u32], v: usize) -> bool
    requires { Literals literals.now bytes.now × (v * name_width + 17 < length names.now) }
    ensures { result ≡ every (place_of literals.now bytes.now names.now item v) 8 }
{
    for k in 0..8 {
        if !place_sound(item, literals, bytes, names, v, k) {
            return false;
        }
    }
    true
}

// Row v: an item row, a count of 1 to 8, that many pairs, zeros.
fn name_sound(items: &[u32], literals: &[u32], bytes: &[u8], names: &[u32], v: usize) -> bool
    requires { Literals literals.now bytes.now × (v * name_width + 17 < length names.now) }
    ensures { result ≡ name_sound (lend_names items.now literals.now bytes.now names.now) v }
{
    let at = v * NAME_WIDTH;
    let item = number_at(names, at);
    let pairs = number_at(names, at + 1);
    if !((item < items.len() / Row::WIDTH) & (1 <= pairs) & (pairs <= 8)) {
        return false;
    }
    places_sound(row_at(items, item), literals, bytes, names, v)
}

// 18 of a table: an unfit length, or the first row that is not sound.
fn check_name_rows(
    items: &[u32],
    literals: &[u32],
    bytes: &[u8],
    names: &[u32],
) -> Result<(), Refusal>
    requires { first_of (table_lines (lend items.now literals.now bytes.now)) ≡ Ok tt }
    ensures { result ≡ name_check (lend_names items.now literals.now bytes.now names.now) }
{
    let rows = names.len() / NAME_WIDTH;
    if !((names.len() % NAME_WIDTH == 0) & (names.len() <= NAME_TABLE)) {
        return Err(Refusal::Name(0));
    }
    for v in 0..rows {
        if !name_sound(items, literals, bytes, names, v) {
            return Err(Refusal::Name(v));
        }
    }
    Ok(())
}

// 18. Most rules have no names: a test of the length is then all.
pub fn check_names(
    items: &[u32],
    literals: &[u32],
    bytes: &[u8],
    names: &[u32],
) -> Result<(), Refusal>
    requires { first_of (table_lines (lend items.now literals.now bytes.now)) ≡ Ok tt }
    ensures { result ≡ name_check (lend_names items.now literals.now bytes.now names.now) }
{
    if names.len() == 0 {
        return Ok(());
    }
    check_name_rows(items, literals, bytes, names)
}
