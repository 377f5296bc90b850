// Classes of bytes.
ghost use Rattle.std.specs.Prelude.{◌≡◌, get_or};
ghost use Rattle.description.specs.Grammar.{is_blank, is_letter, is_digit, is_hyphen, is_name_byte};

use content::marks::marks;

pub fn is_blank(b: u8) -> bool
    ensures { result ≡ is_blank b }
{
    let marks = marks();
    content::marks::is_space(&marks, b) | (b == 0x0a)
}

pub fn is_digit(b: u8) -> bool
    ensures { result ≡ is_digit b }
{
    let marks = marks();
    content::marks::is_digit(&marks, b)
}

pub fn is_letter(b: u8) -> bool
    ensures { result ≡ is_letter b }
{
    let marks = marks();
    content::marks::is_upper(&marks, b)
}

pub fn is_name_byte(b: u8) -> bool
    ensures { result ≡ is_name_byte b }
{
    is_letter(b) | is_digit(b) | (b == 0x2d)
}

// The byte at a place, and 0 past the end.
pub fn byte_at(text: &[u8], k: usize) -> u8
    ensures { result ≡ get_or text.now k 0 }
{
    if text.len() <= k {
        return 0;
    }
    text[k]
}
