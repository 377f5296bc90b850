// The parts of a file of records, one plan run over each; what is told of a record.
#![tactic(auto)]

use tables::Refusal;

mod answers; // what is told of one record
pub mod parts; // a block of records after the other

// Why nothing was written: records of this size do not fill the file; or a refusal of run's, or 10.
#[derive(Clone, Copy)]
pub enum Unswept {
    Uneven,
    Refused(Refusal),
}
