// The answer of `print`, told.
ghost use Rattle.std.specs.Prelude.{◌≡◌};
ghost use Rattle.books.specs.Calls.{print_number, print_place};
ghost use Rattle.answers.specs.Answer.{Told};
ghost use Rattle.print_answers.specs.Prints.{print_count, print_numbers};

use answers::written::narrow;
use books::PrintRefusal;
use refusal_numbers::{number_of, place_of};

fn print_number(answer: Result<usize, PrintRefusal>) -> u32
    ensures { result ≡ print_number answer }
{
    match answer {
        Ok(_) => 0,
        Err(PrintRefusal::Description(_)) => 14,
        Err(PrintRefusal::Refused(refusal)) => number_of(refusal),
        Err(PrintRefusal::Name(_)) => 16,
    }
}

fn print_place(answer: Result<usize, PrintRefusal>) -> usize
    ensures { result ≡ print_place answer }
{
    match answer {
        Ok(_) => 0,
        Err(PrintRefusal::Description(place)) => place,
        Err(PrintRefusal::Refused(refusal)) => place_of(refusal),
        Err(PrintRefusal::Name(token)) => token,
    }
}

fn print_count(answer: Result<usize, PrintRefusal>) -> usize
    ensures { result ≡ print_count answer }
{
    answer.unwrap_or(0)
}

fn print_numbers(answer: Result<usize, PrintRefusal>) -> [u32; 9]
    ensures { result ≡ print_numbers answer }
{
    let place = narrow(print_place(answer));
    let count = narrow(print_count(answer));
    [place, 0, 0, count, 0, 0, 0, 0, 0]
}

pub fn tell_printed(given: Result<usize, PrintRefusal>, answer: &mut [u32; 9]) -> u32
    ensures { Told (print_number given) (print_numbers given) result answer.new }
{
    *answer = print_numbers(given);
    print_number(given)
}
