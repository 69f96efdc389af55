// The record and its deadlines as octets that outlive a power cut: a fixed layout with a version and a checksum, saved and loaded; and whether an event changed the record at all.
#![tactic(auto)]

use deadlines::Table;
use record::Record;

mod alike;
mod checksum;
mod columns;
mod laying;
mod loading;
mod reading;
mod saving;

pub use alike::same;
pub use loading::load;
pub use saving::save;

// What an image holds: the record, its table and the serial.
#[derive(Clone, Copy)]
pub struct Loaded {
    pub next: Record,
    pub table: Table,
    pub serial: u32,
}

// Why octets are not loaded: a record that is not valid, another version, or no image that holds.
#[derive(Clone, Copy)]
pub enum Refusal {
    Invalid,
    Version,
    Damaged,
}
