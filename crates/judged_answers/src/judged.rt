// The answers of judge and run, told.
ghost use Rattle.std.specs.Prelude.{◌≡◌};
ghost use Rattle.rules.specs.Places.{Fits};
ghost use Rattle.answers.specs.Answer.{verdict_number, verdict_value, verdict_byte, Tells};

use answers::written::answer_numbers;
use refusal_numbers::{byte_of, number_of, place_of};
use tables::{Judged, Verdict};

fn verdict_number(verdict: Verdict) -> u32
    ensures { result ≡ verdict_number verdict }
{
    match verdict {
        Verdict::True => 0,
        Verdict::False => 0,
        Verdict::Refused(refusal) => number_of(refusal),
    }
}

fn verdict_value(verdict: Verdict) -> usize
    ensures { result ≡ verdict_value verdict }
{
    match verdict {
        Verdict::True => 1,
        Verdict::False => 0,
        Verdict::Refused(refusal) => place_of(refusal),
    }
}

fn verdict_byte(verdict: Verdict) -> usize
    ensures { result ≡ verdict_byte verdict }
{
    match verdict {
        Verdict::True => 0,
        Verdict::False => 0,
        Verdict::Refused(refusal) => byte_of(refusal),
    }
}

pub fn tell_judged(judged: Judged, answer: &mut [u32; 9]) -> u32
    requires { Fits judged }
    ensures { Tells judged result answer.new }
{
    let verdict = judged.verdict;
    *answer = answer_numbers(
        verdict_value(verdict),
        verdict_byte(verdict),
        judged.count,
        0,
    );
    verdict_number(verdict)
}
