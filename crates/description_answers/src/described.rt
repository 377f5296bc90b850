// The answer of `describe`, told.
ghost use Rattle.std.specs.Prelude.{◌≡◌};
ghost use Rattle.describing.specs.Calls.{number};
ghost use Rattle.answers.specs.Answer.{Told};
ghost use Rattle.description_answers.specs.Description.{described_numbers};

use answers::written::narrow;
use describing::Described;

fn described_number(described: Described) -> u32
    ensures { result ≡ number described }
{
    match described {
        Described::Counts(_, _, _, _, _, _) => 0,
        Described::Faulty(_) => 14,
        Described::Room(_) => 10,
    }
}

fn described_numbers(described: Described) -> [u32; 9]
    ensures { result ≡ described_numbers described }
{
    match described {
        Described::Counts(rows, places, names, spots, literals, bytes) => [
            0,
            0,
            0,
            narrow(rows),
            narrow(places),
            narrow(names),
            narrow(spots),
            narrow(literals),
            narrow(bytes),
        ],
        Described::Faulty(place) => [narrow(place), 0, 0, 0, 0, 0, 0, 0, 0],
        Described::Room(needed) => [narrow(needed), 0, 0, 0, 0, 0, 0, 0, 0],
    }
}

pub fn tell_described(described: Described, answer: &mut [u32; 9]) -> u32
    ensures { Told (number described) (described_numbers described) result answer.new }
{
    *answer = described_numbers(described);
    described_number(described)
}
