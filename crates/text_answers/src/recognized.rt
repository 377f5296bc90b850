// The answer of `read`, told.
ghost use Rattle.std.specs.Prelude.{◌≡◌};
ghost use Rattle.books.specs.Calls.{read_number};
ghost use Rattle.answers.specs.Answer.{Told};
ghost use Rattle.text_answers.specs.Texts.{read_numbers};

use answers::written::narrow;
use books::{Counts, ReadRefusal};

fn read_number(answer: Result<Counts, ReadRefusal>) -> u32
    ensures { result ≡ read_number answer }
{
    match answer {
        Ok(_) => 0,
        Err(ReadRefusal::Description(_)) => 14,
        Err(ReadRefusal::Word(_)) => 15,
        Err(ReadRefusal::Name(_)) => 16,
        Err(ReadRefusal::TokenCount) => 5,
        Err(ReadRefusal::Room(_)) => 10,
    }
}

fn read_numbers(answer: Result<Counts, ReadRefusal>) -> [u32; 9]
    ensures { result ≡ read_numbers answer }
{
    match answer {
        Ok(counts) => {
            [
                0,
                0,
                0,
                narrow(counts.tokens),
                narrow(counts.literals),
                narrow(counts.bytes),
                0,
                0,
                0,
            ]
        }
        Err(ReadRefusal::Description(place)) => [narrow(place), 0, 0, 0, 0, 0, 0, 0, 0],
        Err(ReadRefusal::Word(place)) => [narrow(place), 0, 0, 0, 0, 0, 0, 0, 0],
        Err(ReadRefusal::Name(place)) => [narrow(place), 0, 0, 0, 0, 0, 0, 0, 0],
        Err(ReadRefusal::TokenCount) => [0, 0, 0, 0, 0, 0, 0, 0, 0],
        Err(ReadRefusal::Room(needed)) => [narrow(needed), 0, 0, 0, 0, 0, 0, 0, 0],
    }
}

pub fn tell_read(given: Result<Counts, ReadRefusal>, answer: &mut [u32; 9]) -> u32
    ensures { Told (read_number given) (read_numbers given) result answer.new }
{
    *answer = read_numbers(given);
    read_number(given)
}
