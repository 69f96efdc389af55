// What an event is called, and how text is written.
use crate::frames::Replay;
use messages::octet;
use rules::Event;
use std::fmt;

// An event by its number, its offset and what it is.
#[derive(Clone, Copy)]
pub(crate) struct Named<'a> {
    pub(crate) replay: &'a Replay<'a>,
    pub(crate) number: usize,
}

// By its type; of a reject also the cause, which stands behind it.
fn message<W: fmt::Write>(f: &mut fmt::Formatter<W>, protected: u8, octets: &[u8]) -> fmt::Result {
    if octet(octets, 2) == 0x42 {
        return write!(f, "accept");
    }
    if octet(octets, 2) != 0x44 || octets.len() < 4 {
        return write!(f, "message");
    }
    let kind = if protected == 0 {
        "unprotected"
    } else {
        "protected"
    };
    write!(f, "{kind} reject, cause {}", octet(octets, 3))
}

fn timer(number: u8) -> &'static str {
    match number {
        1 => "T3510 out",
        2 => "T3511 out",
        3 => "T3502 out",
        4 => "T3247 out",
        5 => "T3512 out",
        6 => "T3346 out",
        _ => "timer",
    }
}

impl fmt::Display for Named<'_> {
    fn fmt<W: fmt::Write>(&self, f: &mut fmt::Formatter<W>) -> fmt::Result {
        let number = self.number;
        let at = self.replay.start(number);
        write!(f, "event {number} at {at}, ")?;
        match self.replay.event(number) {
            Event::Card { .. } => write!(f, "card"),
            Event::Start { .. } => write!(f, "start"),
            Event::Message { protected, .. } => message(f, protected, self.replay.octets(number)),
            Event::Timer { number, .. } => write!(f, "{}", timer(number)),
            Event::Power => write!(f, "power cycle"),
            Event::Key { .. } => write!(f, "key set"),
            Event::Update { .. } => write!(f, "update"),
            Event::Import => write!(f, "import"),
            Event::Unknown => write!(f, "unknown"),
        }
    }
}

// False where it cannot be written.
pub(crate) fn write(rt: &(impl Print + Eprint), text: impl fmt::Display + Drop) -> bool {
    if rt.print(text).is_ok() {
        return true;
    }
    let _ = rt.eprintln("explain: cannot write");
    false
}
