// The four lines of a point.
use crate::ask::Question;
use crate::frames::Replay;
use crate::marks::Trace;
use crate::points::{LIMIT, Point};
use crate::text::{Named, write};
use rules::Event;
use std::fmt;

// MCC-MNC; the octets have each two digits the other way round.
#[derive(Clone, Copy)]
struct Network(u32);

impl fmt::Display for Network {
    fn fmt<W: fmt::Write>(&self, f: &mut fmt::Formatter<W>) -> fmt::Result {
        let net = self.0;
        let (a, b, c) = (net / 0x10000 % 16, net / 0x100000 % 16, net / 0x100 % 16);
        let (d, e) = (net % 16, net / 0x10 % 16);
        write!(f, "{a}{b}{c}-{d}{e}")?;
        match net / 0x1000 % 16 {
            15 => Ok(()),
            third => write!(f, "{third}"),
        }
    }
}

// Whether a mark stands and why, behind the point's events.
#[derive(Clone, Copy)]
struct Mark<'a> {
    replay: &'a Replay<'a>,
    offset: Option<usize>,
    trace: Trace,
    n1: bool,
}

impl<'a> Mark<'a> {
    fn named(&self, number: usize) -> Named<'a> {
        Named {
            replay: self.replay,
            number,
        }
    }

    // Why an event lifted it.
    fn why<W: fmt::Write>(&self, f: &mut fmt::Formatter<W>, e: Event, counter: u8) -> fmt::Result {
        match e {
            Event::Card { .. } => write!(f, "a new record"),
            Event::Message { .. } => write!(f, "the network accepted"),
            Event::Power if self.n1 => write!(f, "it clears every N1 mark"),
            _ => write!(f, "the counter, {counter}, was above 0 and below its limit"),
        }
    }

    fn clear<W: fmt::Write>(&self, f: &mut fmt::Formatter<W>) -> fmt::Result {
        let Trace::Lifted { by, counter } = self.trace else {
            return write!(f, "no, never set");
        };
        write!(f, "no, lifted by {}: ", self.named(by))?;
        self.why(f, self.replay.event(by), counter)
    }

    fn set<W: fmt::Write>(&self, f: &mut fmt::Formatter<W>, offset: usize) -> fmt::Result {
        write!(f, "yes, set by {}", self.named(self.replay.number(offset)))?;
        let Trace::Kept { by, counter } = self.trace else {
            return Ok(());
        };
        write!(f, "; kept by {}: ", self.named(by))?;
        if counter == 0 {
            return write!(f, "the counter is 0, the card's own list put it there");
        }
        write!(f, "the counter, {counter}, is at its limit")
    }
}

impl fmt::Display for Mark<'_> {
    fn fmt<W: fmt::Write>(&self, f: &mut fmt::Formatter<W>) -> fmt::Result {
        match self.offset {
            None => self.clear(f),
            Some(offset) => self.set(f, offset),
        }
    }
}

// A point's lines, apart from those before it.
#[derive(Clone, Copy)]
struct Block<'a> {
    q: Question,
    p: Point,
    replay: &'a Replay<'a>,
}

impl<'a> Block<'a> {
    fn when<W: fmt::Write>(&self, f: &mut fmt::Formatter<W>) -> fmt::Result {
        let number = self.p.number;
        if number < 1 {
            return writeln!(f, ", no event");
        }
        let event = Named {
            replay: self.replay,
            number,
        };
        writeln!(f, " after {event}, answer {}", self.replay.answer(number))
    }

    fn mark(&self, offset: Option<usize>, trace: Trace, n1: bool) -> Mark<'a> {
        Mark {
            replay: self.replay,
            offset,
            trace,
            n1,
        }
    }
}

impl fmt::Display for Block<'_> {
    fn fmt<W: fmt::Write>(&self, f: &mut fmt::Formatter<W>) -> fmt::Result {
        let p = self.p;
        if self.q.each && 1 < p.number {
            writeln!(f)?;
        }
        let access = if self.q.access == 0 {
            "mobile"
        } else {
            "Wi-Fi"
        };
        write!(f, "{} over {access}", Network(self.q.net))?;
        self.when(f)?;
        writeln!(
            f,
            "ban counter {} of {LIMIT}, N1 counter {} of {LIMIT}",
            p.told.ban, p.told.n1
        )?;
        writeln!(
            f,
            "forbidden: {}",
            self.mark(p.told.forbidden, p.forbidden, false)
        )?;
        writeln!(
            f,
            "N1 not allowed: {}",
            self.mark(p.told.barred, p.barred, true)
        )
    }
}

// False where it cannot be written.
pub(crate) fn tell(rt: &(impl Print + Eprint), q: Question, p: Point, replay: &Replay) -> bool {
    write(rt, Block { q, p, replay })
}
