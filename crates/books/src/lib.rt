// Conditions as printed: the types of the answers, and what is given where there is room.
#![tactic(auto)]

pub mod given; // what is given where there is room

use tables::Refusal;

// How many numbers or bytes `read` wrote in each output.
#[derive(Debug, Clone, Copy, PartialEq, Eq)]
pub struct Counts {
    pub tokens: usize,
    pub literals: usize,
    pub bytes: usize,
}

// A refusal of `read`: the place of 14, of 15, of 16; 5; or what is needed in the first output that is too
// short. Numbers and places: specs/Calls.antt.
#[derive(Debug, Clone, Copy, PartialEq, Eq)]
pub enum ReadRefusal {
    Description(usize),
    Word(usize),
    Name(usize),
    TokenCount,
    Room(usize),
}

// A refusal of `print`: the place of 14; 3 to 6 or 10; the token of 16.
#[derive(Clone, Copy)]
pub enum PrintRefusal {
    Description(usize),
    Refused(Refusal),
    Name(usize),
}

// What a description gives a condition text: how many places of items' names there are, and of all names; and how many
// literals and literal bytes. The places, rows and bytes themselves are in lent outputs.
#[derive(Debug, Clone, Copy, PartialEq, Eq)]
pub struct Book {
    pub items: usize,
    pub places: usize,
    pub literals: usize,
    pub bytes: usize,
}
