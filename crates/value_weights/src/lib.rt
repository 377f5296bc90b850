// Values of level 88 entries: what refusal 18 and 01's limits bar.
#![tactic(auto)]

pub mod weights; // whether a value is barred

use content::Row;

// A value that is barred, or the rows of its ends, their bytes laid at offset 0.
#[derive(Clone, Copy)]
pub enum Weighed {
    Barred,
    Single(Row),
    Range(Row, Row),
}
