// An asking round (R-13): the due timers run out on the record, one after the other, each reply arms the table of deadlines, and all are handed out.
#![tactic(auto)]

use deadlines::Table;
use record::{Answer, Record};

mod going;
mod value;
mod words;

pub use value::{round, run};
pub use words::asked_word;

// The answer, how many timers ran out, and the record and the table after them.
// Kept: an answer beside a count: a refusal too gives back the record and the table (`round_of`); `run` gives a Result.
#[derive(Clone, Copy)]
pub struct Rounded {
    pub answer: Answer,
    pub count: usize,
    pub next: Record,
    pub table: Table,
}
