// What an event makes of one access's numbers and timers: the rows of document 01, each by its own words.
#![tactic(auto)]

use record::Access;

mod flags;
mod given;
mod rows;
mod turns;

pub use flags::{clocked, clocks_of, flag_after, is_device_timer, runs_in, runs_on, told_of};
pub use rows::{
    across_n1, is_card, is_registered, needs_entry, row_of, starts_t3247, to_regional, to_roaming,
};
pub use turns::{
    accepted, clock_turn, cycled, key_set, other_turn, renewed, row_turn, started, still, updated,
};

// What an event does to a timer: nothing, stop it, or run it for so many seconds.
// Kept: no plainer, to leave a timer is an order among the others in each set of document 01 (`flag_after`).
#[derive(Clone, Copy)]
pub enum Order {
    Leave,
    Stop,
    Run(u32),
}

#[derive(Clone, Copy)]
pub struct Orders {
    pub t3510: Order,
    pub t3511: Order,
    pub t3502: Order,
    pub t3346: Order,
}

// What the caller is told of a timer.
// Kept: no plainer, three cases that document 01 tells of a timer.
#[derive(Clone, Copy)]
pub enum Told {
    Left,
    Stopped,
    Started(u32),
}

#[derive(Clone, Copy)]
pub struct Clocks {
    pub t3510: Told,
    pub t3511: Told,
    pub t3502: Told,
    pub t3346: Told,
}

// An access's numbers after an event, and what becomes of its timers.
#[derive(Clone, Copy)]
pub struct Turn {
    pub access: Access,
    pub orders: Orders,
}

// The rows of the table of rejects, in their order.
#[derive(Clone, Copy)]
pub enum Row {
    CardBelow,
    CardLimit,
    CardProtected,
    Away,
    Home,
    Area,
    N1,
    Congested,
    Protocol,
    Other,
}

// What a message comes with: a draw for T3247, and one for T3346 where the message's own time is not protected.
#[derive(Clone, Copy)]
pub struct Draws {
    pub t3247: u16,
    pub t3346: u16,
}
