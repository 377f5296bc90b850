// Which tokens may be printed: refusals 6 and 16 of the printer.
#![tactic(auto)]

pub mod refusals; // the first token that may not
