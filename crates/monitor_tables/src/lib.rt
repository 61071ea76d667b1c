// A guest's stage-2 tables: the way of a page through them, what stands in them, and a new one.
// Stays: RAM and the ledger, and Sound of both, in each contract: slices are parameters (docs/DECISIONS.md, 60).
#![tactic(auto)]

pub mod entries;
pub mod new_table;
pub mod way;
