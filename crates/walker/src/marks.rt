// Marks of item rows: setting those of a simple condition, and listing the rows that have one.
ghost use Rattle.std.specs.Prelude.{◌≡◌, [], ◌∷◌, ◌++◌, ◌+◌, ◌≤◌, ◌<◌, length, set, drop};
ghost use Rattle.std.proofs.lemmas.List.Edits.{sets};
ghost use Rattle.typing.specs.Tests.{test_of};
ghost use Rattle.items.specs.Items.{listed};
ghost use Rattle.rules.specs.Footprint.{rows_asked, items_among};
ghost use Rattle.rules.specs.Calls.{room_check, writes, Leaves};
ghost use Rattle.walker.specs.Marks.{marked, marked_row, lent_names, AllBelow, Markable};

use items::lines::check_room;
use literal_sides::literals::number_at;
use operands::tokens::is_item;
use tables::Refusal;
use tables::rows::NAME_WIDTH;
use tables::tokens::{NAME, SPAN};
use typing::Test;
use typing::sides::test_of;

fn mark(row: usize, marks: &mut [u32])
    requires { row < length marks.old }
    ensures { marks.new ≡ set marks.old row 1 }
{
    marks[row] = 1;
}

// The row of an operand that is an item.
fn mark_operand(token: u32, marks: &mut [u32])
    requires { AllBelow (length marks.old) (items_among (token ∷ [])) }
    ensures { marks.new ≡ marked marks.old (items_among (token ∷ [])) }
{
    if is_item(token) {
        mark((token % SPAN) as usize, marks);
    }
}

// The item rows of one simple condition.
pub fn mark_condition(names: &[u32], subject: u32, relation: u32, object: u32, marks: &mut [u32])
    requires { Markable names.now (length marks.old) subject relation object }
    ensures { marks.new ≡ marked marks.old (rows_asked (lent_names names.now) (test_of relation) subject object) }
{
    let test = test_of(relation);
    match test {
        Test::Alone => {
            if subject / SPAN == NAME {
                mark(
                    number_at(names, (subject % SPAN) as usize * NAME_WIDTH),
                    marks,
                );
            }
        }
        Test::Relation { word, negated } => {
            mark_operand(subject, marks);
            mark_operand(object, marks);
        }
        Test::Class { word, negated } => mark_operand(subject, marks),
        Test::Sign { word, negated } => mark_operand(subject, marks),
        Test::Unknown => {}
    }
}

// How many of the first rows are marked.
fn count_marked(marks: &[u32], rows: usize) -> usize
    requires { rows ≤ length marks.now }
    ensures { result ≡ length (listed (marked_row marks.now) rows) }
{
    marks[..rows].iter().filter(|mark| **mark != 0).count()
}

// Row v listed behind so many numbers, where it is marked; and how many there are then.
fn list_row(marks: &[u32], v: usize, list: &mut [u32], count: usize) -> usize
    requires { (v < length marks.now) × (v < 64) × (count + length (marked_row marks.now v) ≤ length list.old) }
    ensures value { result ≡ count + length (marked_row marks.now v) }
    ensures list_after { list.new ≡ sets list.old count (marked_row marks.now v) }
{
    if marks[v] == 0 {
        return count;
    }
    list[count] = v as u32;
    count + 1
}

// The marked ones of the first rows, rising, at the start of the list.
fn write_marked(marks: &[u32], rows: usize, list: &mut [u32])
    requires { (rows ≤ length marks.now) × (rows ≤ 64) × (length (listed (marked_row marks.now) rows) ≤ length list.old) }
    ensures { list.new ≡ listed (marked_row marks.now) rows ++ drop (length (listed (marked_row marks.now) rows)) list.old }
{
    let mut count = 0;
    for v in 0..rows {
        count = list_row(marks, v, list, count);
    }
}

// The same, where the list has room: their count, or 10.
pub fn give_marked(marks: &[u32], rows: usize, list: &mut [u32]) -> Result<usize, Refusal>
    requires { (rows ≤ length marks.now) × (rows ≤ 64) }
    ensures { Leaves (writes (room_check (listed (marked_row marks.now) rows) list.old) (listed (marked_row marks.now) rows) list.old) result list.new }
{
    let needed = count_marked(marks, rows);
    check_room(needed, list.len())?;
    write_marked(marks, rows, list);
    Ok(needed)
}
