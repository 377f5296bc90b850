// The answers of calls that write, told.
ghost use Rattle.std.specs.Prelude.{◌≡◌, ◌≤◌};
ghost use Rattle.rules.specs.Places.{Small};
ghost use Rattle.answers.specs.Answer.{answer_numbers, written_number, written_place, written_count, written_numbers, narrowed, listed_numbers, Told};

use refusal_numbers::{number_of, place_of};
use tables::Refusal;

pub fn narrow(x: usize) -> u32
    ensures { result ≡ narrowed x }
{
    if x <= 4294967295 {
        return x as u32;
    }
    4294967295
}

// Every count and every place is at most 640, and a byte is one of an item.
pub fn answer_numbers(value: usize, byte: usize, judged: usize, written: usize) -> [u32; 9]
    requires { (value ≤ 640) × (byte ≤ 131071) × (judged ≤ 640) × (written ≤ 640) }
    ensures { result ≡ answer_numbers value byte judged written }
{
    [
        value as u32,
        byte as u32,
        judged as u32,
        written as u32,
        0,
        0,
        0,
        0,
        0,
    ]
}

fn written_number(written: Result<usize, Refusal>) -> u32
    ensures { result ≡ written_number written }
{
    match written {
        Ok(_) => 0,
        Err(refusal) => number_of(refusal),
    }
}

fn written_place(written: Result<usize, Refusal>) -> usize
    ensures { result ≡ written_place written }
{
    match written {
        Ok(_) => 0,
        Err(refusal) => place_of(refusal),
    }
}

fn written_count(written: Result<usize, Refusal>) -> usize
    ensures { result ≡ written_count written }
{
    match written {
        Ok(count) => count,
        Err(_) => 0,
    }
}

pub fn tell_written(written: Result<usize, Refusal>, answer: &mut [u32; 9]) -> u32
    requires { Small written }
    ensures { Told (written_number written) (written_numbers written) result answer.new }
{
    *answer = answer_numbers(written_place(written), 0, 0, written_count(written));
    written_number(written)
}

// Of a call whose counts and places are not as small as those of expand and plan.
fn listed_numbers(written: Result<usize, Refusal>) -> [u32; 9]
    ensures { result ≡ listed_numbers written }
{
    let place = narrow(written_place(written));
    let count = narrow(written_count(written));
    [place, 0, 0, count, 0, 0, 0, 0, 0]
}

pub fn tell_listed(written: Result<usize, Refusal>, answer: &mut [u32; 9]) -> u32
    ensures { Told (written_number written) (listed_numbers written) result answer.new }
{
    *answer = listed_numbers(written);
    written_number(written)
}
