// A description's row.
ghost use Rattle.lines.specs.Parts.{PutsLine};
ghost use Rattle.item_lines.specs.Items.{item_line};

use content::Row;
use kind_words::put_kind;
use lines::text::{put, put_column};
use number_lines::numbers::{put_number, put_number_column};

// Row number, name, kind, offset, size, digits and scale, in columns.
pub fn put_item(out: &mut [u8], at: usize, v: usize, name: &[u8], row: Row) -> usize
    ensures { PutsLine out.old at (item_line v name.now row) result out.new }
{
    let number = put_number_column(out, at, v, 5);
    let named = put_column(out, number, name, 32);
    let kind = put_kind(out, named, row.kind, 25);
    let offset = put_number_column(out, kind, row.offset as usize, 8);
    let size = put_number_column(out, offset, row.size as usize, 7);
    let digits = put_number_column(out, size, row.digits as usize, 8);
    let scale = put_number(out, digits, row.scale as usize);
    put(out, scale, b"\n")
}
