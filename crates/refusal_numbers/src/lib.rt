// The number, the place and the byte of a refusal.
#![tactic(auto)]

ghost use Rattle.std.specs.Prelude.{◌≡◌};
ghost use Rattle.tables.specs.Refusals.{number, place, byte_of};

use tables::Refusal;

pub fn number_of(refusal: Refusal) -> u32
    ensures { result ≡ number refusal }
{
    match refusal {
        Refusal::ItemTable => 1,
        Refusal::ItemRow(_) => 2,
        Refusal::LiteralTable => 3,
        Refusal::LiteralRow(_) => 4,
        Refusal::TokenCount => 5,
        Refusal::Token(_) => 6,
        Refusal::Grammar(_) => 7,
        Refusal::Depth(_) => 8,
        Refusal::Typing(_) => 9,
        Refusal::Room(_) => 10,
        Refusal::PlanRow(_) => 11,
        Refusal::Record(_) => 12,
        Refusal::Data {
            condition: _,
            byte: _,
        } => 13,
        Refusal::Letters {
            condition: _,
            byte: _,
        } => 17,
        Refusal::Name(_) => 18,
        Refusal::Overlap(_) => 19,
        Refusal::Lengths => 20,
    }
}

pub fn place_of(refusal: Refusal) -> usize
    ensures { result ≡ place refusal }
{
    match refusal {
        Refusal::ItemTable => 0,
        Refusal::ItemRow(row) => row,
        Refusal::LiteralTable => 0,
        Refusal::LiteralRow(row) => row,
        Refusal::TokenCount => 0,
        Refusal::Token(at) => at,
        Refusal::Grammar(at) => at,
        Refusal::Depth(at) => at,
        Refusal::Typing(condition) => condition,
        Refusal::Room(needed) => needed,
        Refusal::PlanRow(row) => row,
        Refusal::Record(row) => row,
        Refusal::Data { condition, byte: _ } => condition,
        Refusal::Letters { condition, byte: _ } => condition,
        Refusal::Name(row) => row,
        Refusal::Overlap(row) => row,
        Refusal::Lengths => 0,
    }
}

// The byte of a refusal that has none.
const NO_BYTE: usize = 0;

pub fn byte_of(refusal: Refusal) -> usize
    ensures { result ≡ byte_of refusal }
{
    match refusal {
        Refusal::ItemTable => NO_BYTE,
        Refusal::ItemRow(_) => NO_BYTE,
        Refusal::LiteralTable => NO_BYTE,
        Refusal::LiteralRow(_) => NO_BYTE,
        Refusal::TokenCount => NO_BYTE,
        Refusal::Token(_) => NO_BYTE,
        Refusal::Grammar(_) => NO_BYTE,
        Refusal::Depth(_) => NO_BYTE,
        Refusal::Typing(_) => NO_BYTE,
        Refusal::Room(_) => NO_BYTE,
        Refusal::PlanRow(_) => NO_BYTE,
        Refusal::Record(_) => NO_BYTE,
        Refusal::Data { condition: _, byte } => byte,
        Refusal::Letters { condition: _, byte } => byte,
        Refusal::Name(_) => NO_BYTE,
        Refusal::Overlap(_) => NO_BYTE,
        Refusal::Lengths => NO_BYTE,
    }
}
