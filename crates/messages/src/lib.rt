// Messages from the network: the reading of an accept or a reject, and the calls for C firmware.
#![tactic(auto)]

ghost use Rattle.std.specs.Prelude.{◌≡◌, false, ◌≤◌, get_or, Some, None, Ok};
ghost use Rattle.octets.specs.Element.{Elements, elements_from, gather_of, malformed};
ghost use Rattle.timers.specs.Timer.{span2_of};
ghost use Rattle.messages.specs.Message.{guti_of, count_of, triplets_of, timer2_in, paced_of, timed_of, seconds_of, accept_of, accepted_of, accept_reading, reject_of, reject_reading, type_reading, opened_by, reading_of, opening_of, fault_number, cause_reading, cause_of, timer_seconds};

use octets::{Fault, Gathered, Malformed, Part};
use timers::Span;

// Offsets are in the message; what is absent is 0 there.
#[derive(Clone, Copy, Debug, PartialEq, Eq)]
pub struct Accept {
    pub result: u8,
    // where the ten octets of the GUTI lie
    pub guti: Option<usize>,
    // the equivalents' triplets lie from here on, count of them
    pub triplets: usize,
    pub count: u8,
    // T3502, this many seconds long; none also where it is deactivated
    pub t3502length: Option<u16>,
    // T3512, this many seconds long; 0 also where it is deactivated
    pub t3512length: Option<u32>,
}

// T3346 is so many seconds long: 0 where it is absent, zero or deactivated.
#[derive(Clone, Copy, Debug, PartialEq, Eq)]
pub struct Reject {
    pub cause: u8,
    pub t3346length: u16,
}

#[derive(Clone, Copy, Debug, PartialEq, Eq)]
pub enum Message {
    Accept(Accept),
    Reject(Reject),
}

// The octet at a place, 0 past the end.
pub fn octet(msg: &[u8], at: usize) -> u8
    ensures { result ≡ get_or msg.now at 0 }
{
    msg.get(at).copied().unwrap_or(0)
}

// Where the ten octets lie of a GUTI.
#[tactic(auto, unfolding(crate::specs::Message::guti_of))]
fn guti(msg: &[u8], part: Option<Part>) -> Option<usize>
    ensures { result ≡ guti_of msg.now part }
{
    match part {
        Some(p) if 11 <= p.len && octet(msg, p.start) == 0xF2 => Some(p.start + 1),
        _ => None,
    }
}

#[tactic(auto, unfolding(crate::specs::Message::count_of))]
fn count(part: Option<Part>) -> u8
    ensures { result ≡ count_of part }
{
    match part {
        Some(p) if p.len / 3 < 15 => (p.len / 3) as u8,
        Some(_) => 15,
        None => 0,
    }
}

// The place of the equivalents, or 0 where there are none.
#[tactic(auto, unfolding(crate::specs::Message::triplets_of, crate::specs::Message::count_of))]
fn triplets(part: Option<Part>) -> usize
    ensures { result ≡ triplets_of part }
{
    match part {
        Some(p) if 3 <= p.len => p.start,
        _ => 0,
    }
}

// T3502 or T3346.
#[tactic(auto, unfolding(crate::specs::Message::timer2_in))]
fn timer2_in(msg: &[u8], part: Option<Part>) -> Span
    ensures { result ≡ timer2_in msg.now part }
{
    match part {
        Some(p) if 0 < p.len => timers::timer2(octet(msg, p.start)),
        _ => Span::Off,
    }
}

#[tactic(auto, unfolding(crate::specs::Message::paced_of))]
fn paced(msg: &[u8], part: Option<Part>) -> Option<u32>
    ensures { result ≡ paced_of msg.now part }
{
    match part {
        Some(p) if 0 < p.len => Some(seconds(timers::timer3(octet(msg, p.start)))),
        _ => None,
    }
}

fn seconds(s: Span) -> u32
    ensures { result ≡ seconds_of s }
{
    match s {
        Span::Seconds(n) => n,
        _ => 0,
    }
}

// The seconds of timer 2 fit 16 bits.
fn timed(s: Span) -> Option<u16>
    requires { seconds_of s ≤ 11160 }
    ensures { result ≡ timed_of s }
{
    match s {
        Span::Off => None,
        Span::Zero => Some(0),
        Span::Seconds(n) => Some(n as u16),
    }
}

// An accept, by its first 77, 4A, 16 and 5E.
fn accepted(msg: &[u8], g: Gathered) -> Accept
    ensures { (l : Elements) → g ≡ gather_of (Some 0x77) (Some 0x4A) (Some 0x16) (Some 0x5E) l → result ≡ accept_of msg.now l }
{
    Accept {
        result: octet(msg, 4),
        guti: guti(msg, g.first),
        triplets: triplets(g.second),
        count: count(g.second),
        t3502length: timed(timer2_in(msg, g.third)),
        t3512length: paced(msg, g.fourth),
    }
}

fn malformed<A>(fault: Fault, at: usize) -> Result<A, Malformed>
    ensures { result ≡ malformed fault at }
{
    Err(Malformed { fault, at })
}

// What the elements from a place on make of an accept.
fn read_elements(msg: &[u8], from: usize) -> Result<Message, Malformed>
    ensures { result ≡ accepted_of msg.now (elements_from false msg.now from) }
{
    let g = octets::gather(
        msg,
        from,
        false,
        Some(0x77),
        Some(0x4A),
        Some(0x16),
        Some(0x5E),
    );
    g.end?;
    Ok(Message::Accept(accepted(msg, g)))
}

#[tactic(auto, unfolding(crate::specs::Message::accept_reading))]
fn read_accept(msg: &[u8]) -> Result<Message, Malformed>
    ensures { result ≡ accept_reading msg.now }
{
    if msg.len() <= 3 {
        return malformed(Fault::Cut, 3);
    }
    let n = usize::from(msg[3]);
    if n == 0 {
        return malformed(Fault::Cut, 3);
    }
    if msg.len() < 4 + n {
        return malformed(Fault::Cut, msg.len());
    }
    read_elements(msg, 4 + n)
}

// A reject, by its first 5F.
fn rejected(msg: &[u8], g: Gathered) -> Reject
    ensures { (l : Elements) → g ≡ gather_of (Some 0x5F) None None None l → result ≡ reject_of msg.now l }
{
    Reject {
        cause: octet(msg, 3),
        t3346length: seconds(timer2_in(msg, g.first)) as u16,
    }
}

fn read_reject(msg: &[u8]) -> Result<Message, Malformed>
    ensures { result ≡ reject_reading msg.now }
{
    if msg.len() <= 3 {
        return malformed(Fault::Cut, 3);
    }
    let g = octets::gather(msg, 4, false, Some(0x5F), None, None, None);
    g.end?;
    Ok(Message::Reject(rejected(msg, g)))
}

#[tactic(auto, unfolding(crate::specs::Message::type_reading))]
fn read_type(msg: &[u8]) -> Result<Message, Malformed>
    ensures { result ≡ type_reading msg.now }
{
    if msg.len() <= 2 {
        return malformed(Fault::Cut, 2);
    }
    match msg[2] {
        0x42 => read_accept(msg),
        0x44 => read_reject(msg),
        _ => malformed(Fault::Kind, 2),
    }
}

// An octet that has to stand at a place, or else a fault.
#[tactic(auto, unfolding(crate::specs::Message::opened_by))]
fn opened(msg: &[u8], at: usize, octet: u8, fault: Fault) -> Result<(), Malformed>
    ensures { result ≡ opened_by malformed msg.now at octet fault (Ok tt) }
{
    if msg.len() <= at {
        return malformed(Fault::Cut, at);
    }
    if msg[at] != octet {
        return malformed(fault, at);
    }
    Ok(())
}

// The two octets that all messages begin with.
pub fn opens(msg: &[u8]) -> Result<(), Malformed>
    ensures { result ≡ opening_of msg.now }
{
    opened(msg, 0, 0x7E, Fault::First)?;
    opened(msg, 1, 0x00, Fault::Second)
}

pub fn read(msg: &[u8]) -> Result<Message, Malformed>
    ensures { result ≡ reading_of msg.now }
{
    opens(msg)?;
    read_type(msg)
}

// The number that R-1 has for a fault.
// Kept: no plainer, R-1's numbers are of messages and `Fault` is of octets, which has no number to convert by.
pub fn number(f: Fault) -> u8
    ensures { result ≡ fault_number f }
{
    match f {
        Fault::Cut => 13,
        Fault::First => 14,
        Fault::Second => 15,
        Fault::Kind => 16,
        Fault::Past => 17,
        Fault::Strange => 18,
    }
}

fn read_cause(msg: &[u8]) -> Result<Message, Malformed>
    ensures { result ≡ cause_reading msg.now }
{
    opens(msg)?;
    opened(msg, 2, 0x44, Fault::Kind)?;
    read_reject(msg)
}

#[tactic(auto, unfolding(crate::specs::Message::cause_of))]
pub fn reject_cause(msg: &[u8]) -> u32
    ensures { result ≡ cause_of (cause_reading msg.now) }
{
    match read_cause(msg) {
        Ok(Message::Reject(r)) => u32::from(r.cause),
        Ok(Message::Accept(_)) => 256 + u32::from(number(Fault::Kind)),
        Err(e) => 256 + u32::from(number(e.fault)),
    }
}

pub fn timer_seconds(octet: u8) -> u32
    ensures { result ≡ timer_seconds (span2_of octet) }
{
    match timers::timer2(octet) {
        Span::Off => 65535,
        Span::Zero => 0,
        Span::Seconds(n) => n,
    }
}
