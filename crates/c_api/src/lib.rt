// What C and Rust programs link: include/pageledger.h tells a caller what each function does. Numbers and slices only.
// Nothing is asked of the caller's numbers, and an array that has too little room is answered. Operations and questions count on two slices
// that set-up and operations have made; set-up and the walks ask nothing of what the slices hold.
// Arguments come in one order: (base, frames), (frame, guest), (owner, frame, with), (access, el); unmap's is document 03's, (ipa, guest).
#![tactic(auto)]

pub mod operations;
pub mod questions;
pub mod walks;
