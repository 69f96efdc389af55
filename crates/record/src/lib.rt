// The registration record: what document 01 holds, as numbers and arrays of numbers, so that any octets lent are a record.
#![tactic(auto)]

use entries::Entries;
use octets::Fault;

mod answers;
mod code;
mod joins;
mod new;
mod setters;
mod sides;

pub use answers::{number, offset, taken};
pub use code::network;
pub use joins::{all, and, not, or, pick, ranged};
pub use new::{empty, fresh, new_access};
pub use setters::{
    counted, emptied, entered, forgotten, keyed, moved, pending, taught, with_entries,
};
pub use sides::{access_of, hot_with, other_of};

// The device's numbers. A flag is 0 or 1; lengths and counts say how much of an array is in use; due says whether a periodic
// update is; edition, 1 to 3, by which text a request's identity is chosen. Here and below the widest fields come first: no gaps
// between them, so that a copy is a few wide moves.
#[repr(C)]
#[derive(Clone, Copy)]
pub struct Device {
    pub home: u32,
    pub t3512length: u32,
    pub card: u8,
    pub suci: u8,
    pub cardlimit: u8,
    pub banlimit: u8,
    pub n1limit: u8,
    pub t3247: u8,
    pub t3512: u8,
    pub due: u8,
    pub capability: u8,
    pub security: u8,
    pub roaming: u8,
    pub regional: u8,
    pub edition: u8,
}

// Update status 5U1, 5U2 and 5U3. Kept: a number, as the states below are and the flags above: the C interface, and any octets lent are a record.
pub const U1: u8 = 1;

pub const U2: u8 = 2;

pub const U3: u8 = 3;

// One access's numbers. States: 0 NO-SUPI, 1 NORMAL-SERVICE, 2 LIMITED-SERVICE, 3 ATTEMPTING-REGISTRATION, 4 REGISTERED-INITIATED,
// 5 REGISTERED, 6 PLMN-SEARCH. The pending area is net and code, the pending registration's type regtype (1 initial, 2 mobility,
// 3 periodic); uplink and sessions are its octets of 40 and 50, the first one low: session i is bit i. guti and visited say
// whether a GUTI and a last area are held.
#[repr(C)]
#[derive(Clone, Copy)]
pub struct Access {
    pub net: u32,
    pub code: u32,
    pub lastnet: u32,
    pub lastcode: u32,
    pub t3502length: u16,
    pub uplink: u16,
    pub sessions: u16,
    pub state: u8,
    pub status: u8,
    pub attempts: u8,
    pub cardcounter: u8,
    pub t3510: u8,
    pub t3511: u8,
    pub t3502: u8,
    pub guti: u8,
    pub visited: u8,
    pub ksi: u8,
    pub equivalents: u8,
    pub entries: u8,
    pub regtype: u8,
    pub t3346: u8,
}

// What every event reads and may change: small, and handed on by value.
#[repr(C)]
#[derive(Clone, Copy)]
pub struct Hot {
    pub dev: Device,
    pub a0: Access,
    pub a1: Access,
}

// What a caller holds, by value or lent. Kept: arrays with their counts among the numbers, and each access's beside the other's: the C interface.
#[repr(C)]
#[derive(Clone, Copy)]
pub struct Record {
    pub hot: Hot,
    pub e0: Entries,
    pub e1: Entries,
    pub roaming: [u64; 40],
    pub regional: [u64; 40],
    pub guti0: [u8; 10],
    pub guti1: [u8; 10],
    pub equivalents0: [u32; 15],
    pub equivalents1: [u32; 15],
    pub suci: [u8; 64],
    pub capability: [u8; 13],
    pub security: [u8; 8],
}

// The reply numbers' cases, in their order.
// Kept: no plainer, document 01 has one table of answers, 0 among them (`number_of`), and a reply carries one.
#[derive(Clone, Copy)]
pub enum Answer {
    Taken,
    Range,
    Ignored,
    Malformed(Fault, usize),
    Full,
    StateZero,
    State,
    Same,
    Listed,
    Area,
    Unprotected,
    Idle,
    Short,
    Waiting,
}

// Kept: an answer beside a record: a refusal brings one too, the smallest (`made_of`), which C gets by value.
#[derive(Clone, Copy)]
pub struct Made {
    pub answer: Answer,
    pub made: Record,
}
