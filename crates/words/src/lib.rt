// Words of a text, parted by spaces and line feeds: names. Words that are asked for are `wanted_words`, what words are keywords is `keywords`.
#![tactic(auto)]

pub mod names; // names and FILLER
