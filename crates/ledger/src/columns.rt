// The ledger's rows and columns by name; specs/Columns.antt has the same names for the definitions.
// They are said twice, so that a number that is changed here alone is refused.

// A row, of 64 bytes.
pub const ROW_WORDS: u64 = 16;
// The header's row, and those of guests 1 to 8.
pub const GUEST_ROWS: u64 = 9;
// The words of these rows: the first frame's row begins after them.
pub const HEADER_WORDS: u64 = 144;
// A word holds the numbers below.
pub const WORD_LIMIT: u64 = 0x100000000;

// The header: its row; how many frames are free; n; b / 4096, its low 32 bits and the rest.
pub const HEADER: u64 = 0;

pub const FREE_COUNT: u64 = 3;

pub const FRAME_COUNT: u64 = 4;

pub const FIRST_LOW: u64 = 5;

pub const FIRST_HIGH: u64 = 6;

// A guest: whether it exists; whether it is dirty; its root table.
pub const EXISTS: u64 = 0;

pub const DIRTY: u64 = 1;

pub const ROOT: u64 = 2;

// A frame: what it is (kinds.rt); the guest; a table's height; the range that it serves, below 2^27.
pub const KIND: u64 = 0;

pub const GUEST: u64 = 1;

pub const HEIGHT: u64 = 2;

pub const RANGE: u64 = 3;
// CELLS + g, for guest g from 1 on: in how many places g maps it, plus SHARE_UNIT times what is shared with g.
pub const CELLS: u64 = 3;

pub const SHARE_UNIT: u64 = 0x40000000;
// The free set: the frame at a place, the free ones first; and the place of this frame.
pub const FRAME_AT: u64 = 12;

pub const PLACE: u64 = 13;
