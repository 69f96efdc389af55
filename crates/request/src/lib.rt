// The registration request: its writing and its reading.
#![tactic(auto)]

ghost use Rattle.std.specs.Prelude.{◌≡◌};

use octets::{Malformed, Part};

mod laying;
mod reading;
mod sending;
mod writing;

pub use reading::{number, offset, read};
pub use writing::{no_s1, write};

// What a request says, each part as an offset and a length in its octets.
#[derive(Clone, Copy)]
pub struct Request {
    pub regtype: u8,
    pub ksi: u8,
    pub identity: Part,
    pub capability: Option<Part>,
    pub security: Option<Part>,
    pub last: Option<Part>,
    pub uplink: Option<Part>,
    pub sessions: Option<Part>,
    pub additional: Option<Part>,
    pub status: Option<Part>,
    pub attach: Option<Part>,
}

// Why octets are not read as a request: a fault and its offset, a third level and its 71's offset, or a well-formed request that breaks the layout.
#[derive(Clone, Copy)]
pub enum Unread {
    Malformed(Malformed),
    Deep(usize),
    Unfit,
}

impl From<Malformed> for Unread {
    ghost use Rattle.request.specs.declared.Unread.TheVariants as unread;

    ghost from_gives = { λ m u. u ≡ unread.Malformed m };

    fn from(m: Malformed) -> Unread {
        Unread::Malformed(m)
    }
}
