// Requests written into buffers of AA, and the buffers printed.
use crate::shapes::facts;
use identity::S1;
use record::{Answer, Record};
use std::{fmt, io};

// An attach message that others read.
const ATTACH: [u8; 24] = [
    0x07, 0x41, 0x71, 0x0B, 0xF6, 0x00, 0xF1, 0x10, 0x80, 0x01, 0xC5, 0xD1, 0xC2, 0xB3, 0xA4, 0x02,
    0xF0, 0x70, 0x00, 0x04, 0x02, 0x01, 0xD0, 0x11,
];

// Octets as they are printed, each behind a space.
#[derive(Clone, Copy)]
struct Octets<'a>(&'a [u8]);

impl fmt::Display for Octets<'_> {
    fn fmt<W: fmt::Write>(&self, f: &mut fmt::Formatter<W>) -> fmt::Result {
        for octet in self.0 {
            write!(f, " {octet:02X}")?;
        }
        Ok(())
    }
}

// The answer and the length, then octets of the buffer.
fn tell(rt: &impl Print, name: &str, w: Result<usize, Answer>, shown: &[u8]) -> io::Result<()> {
    let (answer, len) = match w {
        Ok(len) => (Answer::Taken, len),
        Err(answer) => (answer, 0),
    };
    let answer = record::number(answer);
    let octets = Octets(shown);
    println!(rt; "{name} {answer} length {len}:{octets}")
}

fn send(
    rt: &impl Print,
    r: &Record,
    access: u8,
    s1: S1,
    attach: &[u8],
    buffer: &mut [u8],
) -> io::Result<()> {
    let w = request::write(r, access, s1, attach, buffer);
    tell(rt, "answer", w, buffer)
}

// With an attach message of n octets, into a buffer of AA with this many octets of room.
pub fn lent(
    rt: &impl Print,
    r: Record,
    access: u8,
    s1: S1,
    n: usize,
    room: usize,
) -> io::Result<()> {
    let filler = [0x55u8; 300];
    let mut buffer = [0xAAu8; 1000];
    if n > filler.len() || room > buffer.len() {
        return Ok(());
    }
    let attach = if n == ATTACH.len() {
        &ATTACH[..]
    } else {
        &filler[..n]
    };
    send(rt, &r, access, s1, attach, &mut buffer[..room])
}

pub fn sent(rt: &impl Print, r: Record, access: u8, room: usize) -> io::Result<()> {
    lent(rt, r, access, facts(0), 0, room)
}

// How many octets the request has, by a first try with room for any.
pub fn length(r: Record, access: u8, s1: S1, n: usize) -> usize {
    let filler = [0x55u8; 300];
    let mut buffer = [0u8; 1000];
    if n > filler.len() {
        return 0;
    }
    request::write(&r, access, s1, &filler[..n], &mut buffer).unwrap_or(0)
}

// Of a long buffer the first octets alone: what is written of such requests is compared elsewhere.
fn first(s: &[u8]) -> &[u8] {
    if s.len() < 60 { s } else { &s[..60] }
}

fn send_long(rt: &impl Print, r: &Record, attach: &[u8], buffer: &mut [u8]) -> io::Result<()> {
    let w = request::write(r, 0, facts(31), attach, buffer);
    tell(rt, "long answer", w, first(buffer))
}

// Not inlined, so that the stack holds its two arrays once.
#[inline(never)]
pub fn long(rt: &impl Print, r: Record, n: usize, room: usize) -> io::Result<()> {
    let attach = [0x55u8; 65001];
    let mut buffer = [0xAAu8; 130200];
    if n > attach.len() || room > buffer.len() {
        return Ok(());
    }
    send_long(rt, &r, &attach[..n], &mut buffer[..room])
}
