// Where the records of a block stand in a plan: each at a row, at a verdict, or where no more is known of it here.
// The loops are over all 64 places and store in every turn, so that sixteen records are done at once.
#![tactic(auto)]

ghost use Rattle.std.specs.Prelude.{◌≡◌, cond, ℕ, ◌+◌, ◌<◌, ◌≤◌, length, get_or};
ghost use Rattle.places.specs.Places.{start_place, next_place, next_count, UpTo, Lowest};

// As many records as a block has at most.
pub const BLOCK: usize = 64;

// The places after the rows 0 to 127.
pub const AT_FALSE: u8 = 128;

pub const AT_TRUE: u8 = 129;

pub const UNKNOWN: u8 = 130;

// Without a branch.
pub fn choose(test: bool, first: u8, second: u8) -> u8
    ensures { result ≡ cond test first second }
{
    if test { first } else { second }
}

// One number for each record.
pub fn fill(numbers: &mut [u8], number: u8)
    requires { length numbers.old ≡ 64 }
    ensures { (j : ℕ) → j < 64 → get_or numbers.new j 0 ≡ number }
{
    numbers.fill(number);
}

// The first n records start at row 0; there are no others.
pub fn start(at: &mut [u8], n: usize)
    requires { length at.old ≡ 64 }
    ensures { (j : ℕ) → j < 64 → get_or at.new j 0 ≡ start_place n j }
{
    for j in 0..BLOCK {
        at[j] = choose(j < n, 0, UNKNOWN);
    }
}

// The first place at which a record stands.
pub fn least(at: &[u8]) -> u8
    requires { length at.now ≡ 64 }
    ensures { Lowest at.now result 64 }
{
    let mut low = UNKNOWN;
    for j in 0..BLOCK {
        let place = at[j];
        low = if place < low { place } else { low };
    }
    low
}

fn next_place(place: u8, row: u8, truth: u8, holds: u8, fails: u8) -> u8
    ensures { result ≡ next_place row holds fails place truth }
{
    let known = choose(truth == 1, holds, fails);
    choose(place == row, choose(truth < 2, known, UNKNOWN), place)
}

fn next_count(place: u8, row: u8, count: u8) -> u8
    requires { count ≤ 254 }
    ensures { result ≡ next_count row place count }
{
    choose(place == row, count + 1, count)
}

// Each record that stands at a row goes on by the row's truth for it, and has one simple condition more behind it.
pub fn advance(at: &mut [u8], counts: &mut [u8], truths: &[u8], row: u8, holds: u8, fails: u8)
    requires { (length at.old ≡ 64) × (length counts.old ≡ 64) × (length truths.now ≡ 64) × UpTo 254 counts.old }
    ensures by_index { (j : ℕ) → j < 64 → get_or at.new j 0 ≡ next_place row holds fails (get_or at.old j 0) (get_or truths.now j 0) }
    ensures by_index_2 { (j : ℕ) → j < 64 → get_or counts.new j 0 ≡ next_count row (get_or at.old j 0) (get_or counts.old j 0) }
{
    for j in 0..BLOCK {
        let place = at[j];
        at[j] = next_place(place, row, truths[j], holds, fails);
        counts[j] = next_count(place, row, counts[j]);
    }
}
