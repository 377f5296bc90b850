// The answer of `sweep`, told.
ghost use Rattle.std.specs.Prelude.{◌≡◌};
ghost use Rattle.answers.specs.Answer.{Told};
ghost use Rattle.record_answers.specs.Sweeping.{swept_number, swept_numbers};

use answers::written::narrow;
use refusal_numbers::{number_of, place_of};
use sweeps::Unswept;

fn swept_number(swept: Result<usize, Unswept>) -> u32
    ensures { result ≡ swept_number swept }
{
    match swept {
        Ok(_) => 0,
        Err(Unswept::Uneven) => 21,
        Err(Unswept::Refused(refusal)) => number_of(refusal),
    }
}

fn swept_numbers(swept: Result<usize, Unswept>) -> [u32; 9]
    ensures { result ≡ swept_numbers swept }
{
    match swept {
        Ok(numbers) => [0, 0, 0, narrow(numbers), 0, 0, 0, 0, 0],
        Err(Unswept::Uneven) => [0, 0, 0, 0, 0, 0, 0, 0, 0],
        Err(Unswept::Refused(refusal)) => [narrow(place_of(refusal)), 0, 0, 0, 0, 0, 0, 0, 0],
    }
}

pub fn tell_swept(swept: Result<usize, Unswept>, answer: &mut [u32; 9]) -> u32
    ensures { Told (swept_number swept) (swept_numbers swept) result answer.new }
{
    *answer = swept_numbers(swept);
    swept_number(swept)
}
