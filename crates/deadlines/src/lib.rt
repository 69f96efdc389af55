// Deadlines on one 32-bit millisecond clock that wraps (R-13): a table of ten timers beside the record, what a reply makes of it, which timer is due, and for how long nobody has to ask.
#![tactic(auto)]

mod arming;
mod asking;
mod slots;
mod waiting;

// One timer: held or not, the deadline at which its lap ends, and the milliseconds that rest after that lap.
#[derive(Clone, Copy)]
pub struct Slot {
    pub held: u8,
    pub ends: u32,
    pub rests: u64,
}

// Slots in the order of ties: T3510, T3511, T3502, T3346, of access 0 and of access 1 each, T3512, T3247. Any octets are a table; all zero, no timer has a deadline.
// Kept: three columns and not ten slots, since the C interface has them.
#[repr(C)]
#[derive(Clone, Copy)]
pub struct Table {
    pub rests: [u64; 10],
    pub ends: [u32; 10],
    pub held: [u8; 10],
}

// The slot furthest past its deadline so far, and one more than how far, in milliseconds.
// Kept: 0 and not an Option where none is due, since weight and best_to of specs/, on which the theorem furthest-named stands, count so.
#[derive(Clone, Copy)]
pub struct Best {
    pub at: usize,
    pub most: u64,
}
