// The digit fields of a block of records, each read as one word, record by record.
#![tactic(auto)]

pub mod words; // the words of one field, record by record
