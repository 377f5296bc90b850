// Class tests.
ghost use Rattle.std.specs.Prelude.{◌≡◌, ◌≤◌, length};
ghost use Rattle.compare.specs.Classes.{class_holds};

use alphabets::all_in_alphabet;
use content::Row;
use content::relations::NUMERIC;
use field_digits::digits::all_digits;
use fields::held::valid_content;

pub fn class_holds(word: u32, row: Row, bytes: &[u8]) -> bool
    requires { 1 ≤ length bytes.now }
    ensures { result ≡ class_holds word row.kind row.digits bytes.now }
{
    let kind = row.kind;
    if word == NUMERIC {
        if (kind == Row::ALPHANUMERIC) | (kind == Row::UNSIGNED_GROUP) {
            return all_digits(bytes);
        }
        return valid_content(row, bytes);
    }
    all_in_alphabet(word, bytes)
}
