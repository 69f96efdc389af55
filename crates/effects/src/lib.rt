// Effects of a taken event: numbers, timers, work on the arrays, requests.
#![tactic(auto)]

use areas::Task;
use entries::Deed;
use messages::Accept;
use record::Device;
use turns::{Order, Turn};

mod accepts;
mod clocks;
mod imports;
mod parts;
mod rejects;
mod starts;

pub use accepts::accept_effect;
pub use clocks::{card_effect, power_effect, t3247_effect, timer_effect};
pub use imports::import_effect;
pub use parts::{idle, plain, scheduled, ticked};
pub use rejects::reject_effect;
pub use starts::{key_effect, start_effect, stop_over_0, update_effect};

// What is kept of the octets: an accept's GUTI and equivalents, a card's SUCI.
// Kept: no plainer, nothing is one of three cases, as in `Deed` and `Task` beside it.
#[derive(Clone, Copy)]
pub enum Keep {
    Nothing,
    Gift(Accept),
    Card,
}

// What is to be done on the entries of the event's access and of the other one, on the two area lists, and what is kept.
#[derive(Clone, Copy)]
pub struct Work {
    pub mine: Deed,
    pub theirs: Deed,
    pub roaming: Task,
    pub regional: Task,
    pub keep: Keep,
}

// A taken event: the device's numbers, the turns of access 0 and 1, T3247, T3512, the work, and whether a restart is asked.
#[derive(Clone, Copy)]
pub struct Sides {
    pub dev: Device,
    pub t0: Turn,
    pub t1: Turn,
    pub t3247: Order,
    pub t3512: Order,
    pub work: Work,
    pub restart: bool,
}
