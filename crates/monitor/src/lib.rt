// The operations of document 03, section 3, on the two lent slices: RAM, and the ledger outside it.
// An operation is a check, which only borrows, so that a refusal changes nothing; and then a doing, which cannot fail.
// Stays: `check?; do; Ok(())` nine times. One function of both would take two closures, whose clauses are longer than the three lines.
#![tactic(auto)]

pub mod start;

pub use monitor_contract::refusals;
pub use monitor_create::create;
pub use monitor_destroy::destroy;
pub use monitor_give_take::{give, take};
pub use monitor_invalidated::invalidated;
pub use monitor_map::map;
pub use monitor_share::{share, unshare};
pub use monitor_unmap::unmap;
