// The record lent to firmware: one call takes an event and updates the record in place, and the calls that C makes.
#![tactic(auto)]

mod calls;
mod clock;
mod lent;
mod storage;
mod told;

pub use calls::{
    reject_cause, timer_seconds, tjernfaug_cells, tjernfaug_event, tjernfaug_forbidden,
    tjernfaug_new, tjernfaug_request, tjernfaug_request_from_s1, tjernfaug_version,
};
pub use clock::{tjernfaug_arm, tjernfaug_ask, tjernfaug_round, tjernfaug_wait};
pub use lent::handle;
pub use storage::{tjernfaug_load, tjernfaug_save};

// What is told of a timer: 0 left, 1 stopped, 2 started, and then for how many seconds.
// Kept: a number for a kind, here and in Notice, since the C interface has it.
#[repr(C)]
#[derive(Clone, Copy)]
pub struct Timer {
    pub told: u32,
    pub seconds: u32,
}

#[repr(C)]
#[derive(Clone, Copy)]
pub struct Timers {
    pub t3510: Timer,
    pub t3511: Timer,
    pub t3502: Timer,
    pub t3346: Timer,
}

// A reply but for its answer, as numbers. The offset is of the octet at fault in a message, 0 where the answer is none of 13 to 18.
// A request is 0 for none, else 1 plus the access that it is meant for. Changed is 1 if the record is another than before, else 0.
#[repr(C)]
#[derive(Clone, Copy)]
pub struct Notice {
    pub offset: usize,
    pub c0: Timers,
    pub c1: Timers,
    pub t3247: Timer,
    pub t3512: Timer,
    pub restart: u32,
    pub leave: u32,
    pub update: u32,
    pub changed: u32,
}
