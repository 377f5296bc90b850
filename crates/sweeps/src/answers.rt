// What is told of one record.
ghost use Rattle.std.specs.Prelude.{◌≡◌, ◌+◌, ◌≤◌, length};
ghost use Rattle.std.proofs.lemmas.List.Edits.{sets};
ghost use Rattle.rules.specs.Places.{Fits};
ghost use Rattle.sweeps.specs.Sweep.{truth_or_number, place_in, byte_in, answer_of};

use refusal_numbers::{byte_of, number_of, place_of};
use tables::{Judged, Verdict};

fn truth_or_number(verdict: Verdict) -> u32
    ensures { result ≡ truth_or_number verdict }
{
    match verdict {
        Verdict::True => 1,
        Verdict::False => 0,
        Verdict::Refused(refusal) => number_of(refusal),
    }
}

fn place_in(verdict: Verdict) -> usize
    ensures { result ≡ place_in verdict }
{
    match verdict {
        Verdict::True => 0,
        Verdict::False => 0,
        Verdict::Refused(refusal) => place_of(refusal),
    }
}

fn byte_in(verdict: Verdict) -> usize
    ensures { result ≡ byte_in verdict }
{
    match verdict {
        Verdict::True => 0,
        Verdict::False => 0,
        Verdict::Refused(refusal) => byte_of(refusal),
    }
}

// The four numbers of one record, from a place on.
pub(crate) fn put_answer(answers: &mut [u32], at: usize, judged: Judged)
    requires { Fits judged × (at + 4 ≤ length answers.old) }
    ensures { answers.new ≡ sets answers.old at (answer_of judged) }
{
    let verdict = judged.verdict;
    let place = place_in(verdict);
    let byte = byte_in(verdict);
    answers[at] = truth_or_number(verdict);
    answers[at + 1] = place as u32;
    answers[at + 2] = byte as u32;
    answers[at + 3] = judged.count as u32;
}
