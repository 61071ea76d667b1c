// What every operation of document 03 promises, and laws of a check and of a doing: in specs/ and proofs/. The refusals and their numbers.
#![tactic(auto)]

pub mod checks;
pub mod refusals;
