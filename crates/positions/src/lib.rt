// Where in a rule's text a refusal of its tokens stands.
#![tactic(auto)]

mod numbering; // the token at which a simple condition starts
pub mod refusals; // the byte at which a refusal stands
mod starts; // the byte at which a token starts
