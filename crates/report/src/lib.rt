// What a member is told: lines that tell of a refusal. Where a byte stands in a text is `line_places`.
#![tactic(auto)]

pub mod messages; // lines that tell of a refusal
