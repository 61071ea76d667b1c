// What the script language prints: a walk's answer, what a guest and a frame are, and the whole ledger.
// Each is put at a place of a slice that the caller lends, and the place after it is answered.
// Stays: put_.. and no Display: they can't fail, where write! answers a Result, and Wrote says how many bytes of the slice are touched.
// Stays: the slice and the place beside it, RAM and ledger, and Sound of both: slices are parameters (docs/DECISIONS.md, 60).
#![tactic(auto)]

pub mod answers;
pub mod frames;
pub mod guests;
