// The lines of the table of refusals that look at tables and the record: 1 to 4 and 12.
ghost use Rattle.std.specs.Prelude.{◌≡◌, true, [], ◌≤◌, length};
ghost use Rattle.content.specs.WrongByte.{valid_content};
ghost use Rattle.tables.specs.Operands.{lend};
ghost use Rattle.tables.specs.Refusals.{first_of};
ghost use Rattle.tables.specs.Tables.{length_sound, is_literal_kind, literal_sound, item_row_check, literal_row_check, table_lines, record_check};

use content::Row;
use field_signs::signs::is_sign;
use numbers::reading::only_digits;
use row_rules::sound::row_sound;
use tables::Refusal;
use tables::rows::{ends_within, row_at, row_part};

fn length_sound(table: &[u32]) -> bool
    ensures { result ≡ length_sound table.now }
{
    (table.len() % Row::WIDTH == 0) & (table.len() <= Row::TABLE)
}

// 2: the first item row that breaks its rules.
fn check_item_rows(items: &[u32]) -> Result<(), Refusal>
    ensures { result ≡ item_row_check (lend items.now [] []) }
{
    let rows = items.len() / Row::WIDTH;
    for v in 0..rows {
        if !row_sound(row_at(items, v)) {
            return Err(Refusal::ItemRow(v));
        }
    }
    Ok(())
}

// A literal's content; digits are looked at eight at once, which costs less than to ask for each.
fn literal_valid(row: Row, bytes: &[u8]) -> bool
    requires { (is_literal_kind row.kind ≡ true) × (1 ≤ length bytes.now) }
    ensures { result ≡ valid_content row.kind row.digits bytes.now }
{
    let kind = row.kind;
    if kind == Row::ALPHANUMERIC {
        return true;
    }
    if kind == Row::UNSIGNED {
        return only_digits(bytes);
    }
    is_sign(bytes[0]) & only_digits(&bytes[1..])
}

fn literal_sound(row: Row, bytes: &[u8]) -> bool
    ensures { result ≡ literal_sound bytes.now row }
{
    if !row_sound(row) {
        return false;
    }
    let kind = row.kind;
    if !((kind == Row::ALPHANUMERIC) | (kind == Row::UNSIGNED) | (kind == Row::SIGN_LEADING)) {
        return false;
    }
    if !ends_within(row, bytes.len()) {
        return false;
    }
    literal_valid(row, row_part(row, bytes))
}

// 4: the first literal row that breaks its rules.
fn check_literal_rows(literals: &[u32], bytes: &[u8]) -> Result<(), Refusal>
    ensures { result ≡ literal_row_check (lend [] literals.now bytes.now) }
{
    let rows = literals.len() / Row::WIDTH;
    for v in 0..rows {
        if !literal_sound(row_at(literals, v), bytes) {
            return Err(Refusal::LiteralRow(v));
        }
    }
    Ok(())
}

// 1 to 4, in order.
pub fn check_tables(items: &[u32], literals: &[u32], bytes: &[u8]) -> Result<(), Refusal>
    ensures { result ≡ first_of (table_lines (lend items.now literals.now bytes.now)) }
{
    if !length_sound(items) {
        return Err(Refusal::ItemTable);
    }
    check_item_rows(items)?;
    if !length_sound(literals) {
        return Err(Refusal::LiteralTable);
    }
    check_literal_rows(literals, bytes)
}

// 12: the first item row that ends beyond the record, used or not.
pub fn check_record(items: &[u32], record: &[u8]) -> Result<(), Refusal>
    ensures { result ≡ record_check (lend items.now [] []) «record».now }
{
    let rows = items.len() / Row::WIDTH;
    for v in 0..rows {
        if !ends_within(row_at(items, v), record.len()) {
            return Err(Refusal::Record(v));
        }
    }
    Ok(())
}
