// What a description gives may be lent to every call: theorems. Crate descriptions has the code.
#![tactic(auto)]
