// Numbers as text.
ghost use Rattle.lines.specs.Put.{Puts, PutsNumber, PutsNumberColumn, hexadecimal};
ghost use Rattle.std.specs.Prelude.{◌≡◌, ◌<◌};
ghost use Rattle.io.specs.Digits.{hex_digit_ascii};

use lines::text::{put, put_column};

pub fn put_number(out: &mut [u8], at: usize, number: usize) -> usize
    ensures { PutsNumber out.old at number result out.new }
{
    let mut digits = [0u8; 20];
    let n = io::decimal(number as u64, &mut digits);
    put(out, at, &digits[..n])
}

fn hex_digit(digit: u8) -> u8
    requires { digit < 16 }
    ensures { result ≡ hex_digit_ascii digit }
{
    if digit < 10 {
        return 48 + digit;
    }
    87 + digit
}

// A byte as two hexadecimal digits.
pub fn put_hex(out: &mut [u8], at: usize, byte: u8) -> usize
    ensures { Puts out.old at (hexadecimal byte) result out.new }
{
    let digits = [hex_digit(byte / 16), hex_digit(byte % 16)];
    put(out, at, &digits)
}

// A number in a column: spaces after it up to a width.
pub fn put_number_column(out: &mut [u8], at: usize, number: usize, width: usize) -> usize
    ensures { PutsNumberColumn out.old at number width result out.new }
{
    let mut digits = [0u8; 20];
    let n = io::decimal(number as u64, &mut digits);
    put_column(out, at, &digits[..n], width)
}
