// The answer of `merge`, told.
ghost use Rattle.std.specs.Prelude.{◌≡◌};
ghost use Rattle.answers.specs.Answer.{Told};
ghost use Rattle.record_answers.specs.Merging.{merged_number, merged_numbers};

use answers::written::narrow;
use merging::Merged;
use refusal_numbers::{number_of, place_of};
use tables::Refusal;

fn merged_number(merged: Result<Merged, Refusal>) -> u32
    ensures { result ≡ merged_number merged }
{
    match merged {
        Ok(_) => 0,
        Err(refusal) => number_of(refusal),
    }
}

fn merged_numbers(merged: Result<Merged, Refusal>) -> [u32; 9]
    ensures { result ≡ merged_numbers merged }
{
    match merged {
        Ok(Merged { bytes, rows }) => [0, 0, 0, narrow(bytes), narrow(rows), 0, 0, 0, 0],
        Err(refusal) => [narrow(place_of(refusal)), 0, 0, 0, 0, 0, 0, 0, 0],
    }
}

pub fn tell_merged(merged: Result<Merged, Refusal>, answer: &mut [u32; 9]) -> u32
    ensures { Told (merged_number merged) (merged_numbers merged) result answer.new }
{
    *answer = merged_numbers(merged);
    merged_number(merged)
}
