// A condition made ready: refusals 1 to 9 and 18 in order, and the rows of one that none of them refuses.
#![tactic(auto)]

pub mod lent; // what is lent to every call
pub mod prepare; // the lines and the rows
