// An event on the whole record, which is lent and changed in place: seen, decided, carried out; and the step by value.
#![tactic(auto)]

mod held;
mod lent;
mod seeing;
mod value;

pub use held::{keep, network, tail};
pub use lent::{core, counted, handle, swift};
use record::{Hot, Record};
use rules::{Plan, Reply};
pub use value::step;

// The answer with what is told, and the record after the event.
#[derive(Clone, Copy)]
pub struct Outcome {
    pub reply: Reply,
    pub next: Record,
}

// What the replay is told of an event, and the numbers after it.
#[derive(Clone, Copy)]
pub struct Advanced {
    pub reply: Reply,
    pub hot: Hot,
}

// In the definitions what the core decided, and the numbers with the area lists' counts after it.
#[derive(Clone, Copy)]
pub struct Done {
    pub plan: Plan,
    pub hot: Hot,
}
