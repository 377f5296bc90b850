// A value in a text.
ghost use Rattle.std.specs.Prelude.{◌≡◌, ◌≤◌, length};
ghost use Rattle.condition_names.specs.Values.{value_at, thru_at, high_at};

use crate::{Found, ValueRead};
use description::Spelled;
use literal_spans::spans::spelled_at;
use text_bytes::blanks::next_ink;
use text_bytes::bytes::byte_at;
use wanted_words::literals::literal;

// The high end after THRU, whose low end stands from low to mid.
fn high_at(text: &[u8], low: usize, mid: usize, n: usize) -> Result<ValueRead, usize>
    requires { n ≤ length text.now }
    ensures { result ≡ high_at text.now low mid n }
{
    let high = next_ink(text, n);
    match spelled_at(text, n)? {
        Spelled::Open(end) => {
            let found = Found {
                low,
                mid,
                high,
                end,
                range: true,
            };
            Ok(ValueRead::Open { found, end })
        }
        Spelled::Ended(end) => {
            let found = Found {
                low,
                mid,
                high,
                end,
                range: true,
            };
            Ok(ValueRead::Ended {
                found,
                end: end + 1,
            })
        }
    }
}

fn thru_at(text: &[u8], low: usize, mid: usize) -> Result<ValueRead, usize>
    requires { mid ≤ length text.now }
    ensures { result ≡ thru_at text.now low mid }
{
    let k = literal(b"THRU", text, mid)?;
    high_at(text, low, mid, k)
}

// The value after a blank at n, or the first faulty byte. THRU begins with a T, and no literal does.
pub fn value_at(text: &[u8], n: usize) -> Result<ValueRead, usize>
    requires { n ≤ length text.now }
    ensures { result ≡ value_at text.now n }
{
    let low = next_ink(text, n);
    match spelled_at(text, n)? {
        Spelled::Open(mid) => {
            if byte_at(text, next_ink(text, mid)) == 0x54 {
                return thru_at(text, low, mid);
            }
            let found = Found {
                low,
                mid,
                high: low,
                end: mid,
                range: false,
            };
            Ok(ValueRead::Open { found, end: mid })
        }
        Spelled::Ended(mid) => {
            let found = Found {
                low,
                mid,
                high: low,
                end: mid,
                range: false,
            };
            Ok(ValueRead::Ended {
                found,
                end: mid + 1,
            })
        }
    }
}
