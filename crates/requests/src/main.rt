// Writes requests of records of each shape into buffers of different lengths, and prints the buffers.
#![tactic(auto)]

use sent::{length, lent, long, sent};
use shapes::{Shape, bits, facts, fresh, made, message, short, varied};
use std::io;

mod sent;
mod shapes;

fn sucis(rt: &impl Print) -> io::Result<()> {
    let mut s = short();
    sent(rt, made(s), 0, 19)?;
    sent(rt, made(s), 1, 24)?;
    sent(rt, made(s), 0, 18)?;
    sent(rt, made(s), 0, 0)?;
    s.suci = 64;
    sent(rt, made(s), 0, 80)?;
    s.security = 8;
    sent(rt, made(s), 0, 80)?;
    sent(rt, made(s), 0, 79)?;
    s.capability = 13;
    s.visited = 1;
    s.ksi = 6;
    sent(rt, made(s), 0, 185)?;
    sent(rt, made(s), 0, 184)
}

// With room for the clear part, or for it and the container's lead, none of it is written.
fn gutis(rt: &impl Print) -> io::Result<()> {
    let mut s = Shape {
        guti0: 1,
        visited: 1,
        ksi: 3,
        ..short()
    };
    sent(rt, made(s), 0, 55)?;
    sent(rt, made(s), 0, 56)?;
    sent(rt, made(s), 1, 54)?;
    sent(rt, made(s), 0, 21)?;
    sent(rt, made(s), 0, 24)?;
    s.guti1 = 1;
    s.ksi = 0;
    s.visited = 0;
    s.net = 0x00F220;
    sent(rt, made(s), 0, 48)?;
    sent(rt, made(s), 1, 48)?;
    s.net = 0x00F330;
    sent(rt, made(s), 0, 48)?;
    sent(rt, made(s), 1, 48)?;
    s.equivalents = 1;
    sent(rt, made(s), 0, 48)?;
    sent(rt, made(s), 1, 48)?;
    s.guti0 = 0;
    sent(rt, made(s), 0, 48)?;
    s.ksi = 7;
    sent(rt, made(s), 1, 21)
}

// A mobility update of session 5, then without uplink data; sessions 1, 8 and 15; none at all.
fn updates(rt: &impl Print) -> io::Result<()> {
    let mut s = Shape {
        guti0: 1,
        visited: 1,
        ksi: 3,
        regtype: 2,
        uplink: 0x0020,
        sessions: 0x0020,
        ..short()
    };
    sent(rt, made(s), 0, 63)?;
    sent(rt, made(s), 1, 64)?;
    sent(rt, made(s), 0, 62)?;
    s.uplink = 0;
    sent(rt, made(s), 0, 60)?;
    s.regtype = 3;
    s.visited = 0;
    s.uplink = 0x0100;
    s.sessions = 0x8102;
    sent(rt, made(s), 0, 56)?;
    s.uplink = 0;
    s.sessions = 0;
    sent(rt, made(s), 0, 52)
}

// With ngKSI 7 an update shows neither status, and an initial registration never does; the longest request.
fn bare(rt: &impl Print) -> io::Result<()> {
    let mut s = Shape {
        visited: 1,
        regtype: 3,
        uplink: 0x0020,
        sessions: 0x0020,
        ..short()
    };
    sent(rt, made(s), 0, 19)?;
    s.guti0 = 1;
    s.regtype = 2;
    sent(rt, made(s), 0, 22)?;
    s.regtype = 1;
    s.ksi = 3;
    sent(rt, made(s), 0, 55)?;
    s.guti0 = 0;
    s.suci = 64;
    s.capability = 13;
    s.security = 8;
    s.regtype = 2;
    sent(rt, made(s), 0, 193)?;
    sent(rt, made(s), 0, 192)?;
    sent(rt, made(s), 0, 200)
}

// Types 0 and 4, and session 0.
fn outside(rt: &impl Print) -> io::Result<()> {
    let mut s = Shape {
        regtype: 0,
        ..short()
    };
    sent(rt, made(s), 0, 19)?;
    s.regtype = 4;
    sent(rt, made(s), 0, 19)?;
    s.regtype = 2;
    s.uplink = 1;
    sent(rt, made(s), 0, 19)?;
    s.uplink = 0;
    s.sessions = 0x0021;
    sent(rt, made(s), 0, 19)
}

fn refusals(rt: &impl Print) -> io::Result<()> {
    let mut s = short();
    sent(rt, made(s), 2, 19)?;
    s.ksi = 8;
    sent(rt, made(s), 0, 19)?;
    sent(rt, fresh(), 0, 19)
}

// A router from 4G that holds both GUTIs, by edition 2: 77, 2B and 70 behind 2E, and in a container too; with each of them left out.
fn mapped(rt: &impl Print) -> io::Result<()> {
    let mut s = Shape {
        edition: 2,
        guti0: 1,
        guti1: 1,
        net: 0x00F220,
        visited: 1,
        ..short()
    };
    lent(rt, made(s), 0, facts(15), 2, 43)?;
    lent(rt, made(s), 0, facts(15), 24, 65)?;
    lent(rt, made(s), 1, facts(15), 24, 66)?;
    lent(rt, made(s), 0, facts(15), 24, 64)?;
    s.ksi = 3;
    lent(rt, made(s), 0, facts(15), 24, 143)?;
    lent(rt, made(s), 0, facts(15), 24, 142)?;
    lent(rt, made(s), 1, facts(15), 300, 695)?;
    lent(rt, made(s), 0, facts(15), 0, 89)?;
    s.guti0 = 0;
    s.guti1 = 0;
    lent(rt, made(s), 0, facts(15), 24, 115)?;
    lent(rt, made(s), 0, facts(15), 0, 61)
}

// Without one of the facts, by edition 1, in an update, or by edition 3 with a GUTI that is not native, it is the request of before.
fn unmapped(rt: &impl Print) -> io::Result<()> {
    let mut s = Shape {
        edition: 2,
        ..short()
    };
    lent(rt, made(s), 0, facts(14), 24, 19)?;
    lent(rt, made(s), 0, facts(13), 24, 19)?;
    lent(rt, made(s), 0, facts(11), 24, 19)?;
    lent(rt, made(s), 0, facts(23), 24, 19)?;
    lent(rt, made(s), 0, facts(31), 24, 51)?;
    s.edition = 1;
    lent(rt, made(s), 0, facts(31), 24, 19)?;
    s.edition = 3;
    lent(rt, made(s), 0, facts(15), 24, 19)?;
    lent(rt, made(s), 0, facts(31), 24, 51)?;
    lent(rt, made(s), 1, facts(31), 24, 51)?;
    s.regtype = 2;
    lent(rt, made(s), 0, facts(31), 24, 19)?;
    s.regtype = 3;
    lent(rt, made(s), 1, facts(31), 24, 19)
}

// The longest request, in a buffer of its length and in one that is too short; an attach message too long, used or not.
fn longest(rt: &impl Print) -> io::Result<()> {
    let mut s = Shape {
        edition: 3,
        guti0: 1,
        capability: 13,
        security: 8,
        visited: 1,
        ksi: 0,
        ..short()
    };
    long(rt, made(s), 65000, 130119)?;
    long(rt, made(s), 65000, 130118)?;
    long(rt, made(s), 65001, 130200)?;
    s.edition = 1;
    long(rt, made(s), 65001, 130200)?;
    long(rt, made(s), 65000, 130200)
}

// Editions 0 and 4.
fn unknown(rt: &impl Print) -> io::Result<()> {
    let mut s = Shape {
        edition: 0,
        ..short()
    };
    sent(rt, made(s), 0, 19)?;
    s.edition = 4;
    sent(rt, made(s), 0, 19)
}

// In a buffer of just its length.
fn one(rt: &impl Print, i: u32) -> io::Result<()> {
    let r = made(varied(i));
    let access = (i % 2) as u8;
    let s1 = facts(bits(i));
    let n = message(i);
    lent(rt, r, access, s1, n, length(r, access, s1, n))
}

fn many(rt: &impl Print) -> io::Result<()> {
    for i in 0..320 {
        one(rt, i)?;
    }
    Ok(())
}

fn main(rt: HostRuntime) -> io::Result<()> {
    sucis(&rt)?;
    gutis(&rt)?;
    updates(&rt)?;
    bare(&rt)?;
    refusals(&rt)?;
    outside(&rt)?;
    mapped(&rt)?;
    unmapped(&rt)?;
    unknown(&rt)?;
    longest(&rt)?;
    many(&rt)
}
