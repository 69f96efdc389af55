// What an event is answered and what it plans: decided on the record's numbers, what stands about a network, and the message's reading.
#![tactic(auto)]

use effects::Work;
use record::{Answer, Hot};
use turns::{Clocks, Draws, Told};

mod asking;
mod decision;
mod deeds;
mod numbers;
mod replies;
mod work;

pub use asking::{ask_of, site_of};
pub use decision::plan_of;
pub use deeds::deed_on;
pub use numbers::numbers_plan;
pub use replies::refused_reply;
pub use work::{has_work, work_plan};

// A card's SUCI, a message's octets and the file of an import come beside the event.
// Kept: what may not change: accesses, flags, timers' and types' numbers are octets, since any that a caller has is taken, and answered 1 if out of range (`answer_of`).
#[derive(Clone, Copy)]
pub enum Event {
    Card {
        edition: u8,
        home: u32,
    },
    Start {
        access: u8,
        manual: u8,
        net: u32,
        code: u32,
    },
    Message {
        access: u8,
        protected: u8,
        draws: Draws,
    },
    Timer {
        number: u8,
        access: u8,
    },
    Power,
    Key {
        access: u8,
        set: u8,
    },
    Update {
        access: u8,
        regtype: u8,
        net: u32,
        code: u32,
        uplink: u16,
        sessions: u16,
    },
    Import,
    Unknown,
}

// What the caller is told. A request is named by the access that it is meant for.
#[derive(Clone, Copy)]
pub struct Reply {
    pub answer: Answer,
    pub c0: Clocks,
    pub c1: Clocks,
    pub t3247: Told,
    pub t3512: Told,
    pub restart: Option<u8>,
    pub leave: Option<u8>,
    pub update: Option<u8>,
}

// The network whose entry is looked up before an event is decided, or the file whose networks are.
// Kept: no plainer, three cases, and none of them is the lack of another.
#[derive(Clone, Copy)]
pub enum Ask {
    Nothing,
    Network { access: u8, net: u32 },
    File,
}

// The area that is looked up in the lists.
#[derive(Clone, Copy)]
pub struct Area {
    pub net: u32,
    pub code: u32,
}

// What an event comes to: the reply, the numbers after it but for the area lists' counts, the work on the arrays, and the event's own access.
#[derive(Clone, Copy)]
pub struct Plan {
    pub reply: Reply,
    pub hot: Hot,
    pub work: Work,
    pub access: u8,
}
