// The numbers that C is told, by the names of include/pageledger.h without its prefix: specs/Numbers.antt has them for the contracts.
pub const DONE: u64 = 0;

pub const SHORT: u64 = 64;

// The places of a walk's answer, and how many they are.
pub const ANSWER_WHAT: usize = 0;

pub const ANSWER_ADDRESS: usize = 1;

pub const ANSWER_KIND: usize = 2;

pub const ANSWER_STAGE: usize = 3;

pub const ANSWER_LEVEL: usize = 4;

pub const ANSWER_OF: usize = 5;

pub const ANSWER_FETCHED: usize = 6;

pub const ANSWER_NUMBERS: usize = 7;

pub const FOUND: u64 = 0;

pub const FAULT: u64 = 1;

pub const DURING: u64 = 2;

pub const REFUSED: u64 = 3;

pub const WALK_ABORT: u64 = 1;

pub const TRANSLATION: u64 = 2;

pub const NOT_MODELLED: u64 = 3;

pub const ACCESS_FLAG: u64 = 4;

pub const PERMISSION: u64 = 5;

// The places of an answer about a frame, and how many they are; those of one about a guest are the same three.
pub const FRAME_WHAT: usize = 0;

pub const FRAME_GUEST: usize = 1;

pub const FRAME_PLACES: usize = 2;

pub const FRAME_NUMBERS: usize = 3;

pub const GUEST_NUMBERS: usize = 3;

pub const FRAME_OUTSIDE: u64 = 0;

pub const FRAME_MONITOR: u64 = 1;

pub const FRAME_FREE: u64 = 2;

pub const FRAME_TABLE: u64 = 3;

pub const FRAME_DRAINING: u64 = 4;

pub const FRAME_PAGE: u64 = 5;

pub const GUEST_NOBODY: u64 = 0;

pub const GUEST_ABSENT: u64 = 1;

pub const GUEST_PRESENT: u64 = 2;
