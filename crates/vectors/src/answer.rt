// An answer as numbers.
ghost use Rattle.std.specs.Prelude.{◌≡◌};
ghost use Rattle.vectors.specs.Answers.{refused_as, written_as, judged_as, same_answer};

use refusal_numbers::{byte_of, number_of, place_of};
use tables::{Judged, Refusal, Verdict};

// A refusal's number, place and byte, or 0, the value and 0; how many simple conditions were judged.
#[derive(Clone, Copy)]
pub struct Answer {
    pub number: usize,
    pub value: usize,
    pub byte: usize,
    pub judged: usize,
}

fn of_refusal(refusal: Refusal, judged: usize) -> Answer
    ensures { result ≡ refused_as refusal judged }
{
    Answer {
        number: number_of(refusal) as usize,
        value: place_of(refusal),
        byte: byte_of(refusal),
        judged,
    }
}

pub(crate) fn of_written(given: Result<usize, Refusal>) -> Answer
    ensures { result ≡ written_as given }
{
    match given {
        Ok(n) => Answer {
            number: 0,
            value: n,
            byte: 0,
            judged: 0,
        },
        Err(refusal) => of_refusal(refusal, 0),
    }
}

pub(crate) fn of_judged(given: Judged) -> Answer
    ensures { result ≡ judged_as given }
{
    let verdict = given.verdict;
    let judged = given.count;
    match verdict {
        Verdict::True => Answer {
            number: 0,
            value: 1,
            byte: 0,
            judged,
        },
        Verdict::False => Answer {
            number: 0,
            value: 0,
            byte: 0,
            judged,
        },
        Verdict::Refused(refusal) => of_refusal(refusal, judged),
    }
}

pub(crate) fn same(one: Answer, other: Answer) -> bool
    ensures { result ≡ same_answer one other }
{
    (one.number == other.number)
        & (one.value == other.value)
        & (one.byte == other.byte)
        & (one.judged == other.judged)
}
