// The records whose requests are written, and what is lent at a write.
use identity::S1;
use record::{Access, Device, Hot, Record};

// What a record holds: octets of the SUCI and the capabilities; of each access the same numbers.
#[derive(Clone, Copy)]
pub struct Shape {
    pub suci: u8,
    pub capability: u8,
    pub security: u8,
    pub guti0: u8,
    pub guti1: u8,
    pub net: u32,
    pub equivalents: u8,
    pub visited: u8,
    pub ksi: u8,
    pub regtype: u8,
    pub uplink: u16,
    pub sessions: u16,
    pub edition: u8,
}

fn access(s: Shape, guti: u8) -> Access {
    Access {
        t3510: 1,
        net: s.net,
        guti,
        visited: s.visited,
        lastnet: 0x00F220,
        lastcode: 0x00002A,
        ksi: s.ksi,
        regtype: s.regtype,
        uplink: s.uplink,
        sessions: s.sessions,
        equivalents: s.equivalents,
        ..record::new_access(4)
    }
}

// A record with no card, in state 0.
pub fn fresh() -> Record {
    record::fresh(3, 3, 3, &[0], &[0, 0]).made
}

fn numbers(s: Shape) -> Hot {
    let hot = fresh().hot;
    Hot {
        dev: Device {
            card: 1,
            suci: s.suci,
            capability: s.capability,
            security: s.security,
            edition: s.edition,
            ..hot.dev
        },
        a0: access(s, s.guti0),
        a1: access(s, s.guti1),
    }
}

// 01 00 F1 10 F0 FF 00 00, then 07 and on.
fn suci() -> [u8; 64] {
    let mut s = [0; 64];
    s[..8].copy_from_slice(&[0x01, 0x00, 0xF1, 0x10, 0xF0, 0xFF, 0x00, 0x00]);
    for (i, x) in s[8..].iter_mut().enumerate() {
        *x = (i + 7) as u8;
    }
    s
}

// 00 and on.
fn capability() -> [u8; 13] {
    let mut s = [0; 13];
    for (i, x) in s.iter_mut().enumerate() {
        *x = i as u8;
    }
    s
}

// The GUTIs are of the networks 00 F1 10 and 00 F2 20; each access's equivalent is the other's.
pub fn made(s: Shape) -> Record {
    let security = [0xF0, 0xF0, 0x01, 0x02, 0x03, 0x04, 0x05, 0x06];
    Record {
        guti0: [0x00, 0xF1, 0x10, 0x80, 0x01, 0xC5, 0xD1, 0xC2, 0xB3, 0xA4],
        guti1: [0x00, 0xF2, 0x20, 0x11, 0x22, 0x83, 0x0A, 0x0B, 0x0C, 0x0D],
        equivalents0: [0x00F220; 15],
        equivalents1: [0x00F110; 15],
        ..record::empty(numbers(s), suci(), capability(), security)
    }
}

// What is lent from S1 mode, by the bits of a number: registered there, told of N26, security context, valid 4G-GUTI, native.
pub fn facts(bits: u8) -> S1 {
    S1 {
        registered: bits % 2,
        n26: bits / 2 % 2,
        context: bits / 4 % 2,
        valid: bits / 8 % 2,
        native: bits / 16 % 2,
        guti: [0x00, 0xF1, 0x10, 0x80, 0x01, 0xC5, 0xD1, 0xC2, 0xB3, 0xA4],
    }
}

pub fn short() -> Shape {
    Shape {
        suci: 9,
        capability: 1,
        security: 2,
        guti0: 0,
        guti1: 0,
        net: 0x00F110,
        equivalents: 0,
        visited: 0,
        ksi: 7,
        regtype: 1,
        uplink: 0,
        sessions: 0,
        edition: 1,
    }
}

// No session, or some of 1 to 15.
fn status(k: u32, n: u32) -> u16 {
    if k % 3 == 0 {
        return 0;
    }
    (n % 65536 * 4099 % 32767 * 2) as u16
}

// A shape for each number. Its fields go by powers of 2, powers of 3, 7, 13 and 55, which have no common factor, so that they vary
// apart from each other. The network is 00 F1 10, 00 F2 20 or 00 F3 30.
pub fn varied(i: u32) -> Shape {
    Shape {
        suci: 9 + (i % 55) as u8,
        capability: 1 + (i % 13) as u8,
        security: 2 + (i % 7) as u8,
        guti0: (i / 32 % 2) as u8,
        guti1: (i / 64 % 2) as u8,
        net: 0x00F110 + i / 3 % 3 * 0x000110,
        equivalents: (i / 128 % 2) as u8,
        visited: (i / 2 % 2) as u8,
        ksi: (i / 4 % 8) as u8,
        regtype: 1 + (i % 3) as u8,
        uplink: status(i / 9, i),
        sessions: status(i / 27, i / 2),
        edition: 1 + (i / 5 % 3) as u8,
    }
}

// All facts and an attach message more often than not.
pub fn bits(i: u32) -> u8 {
    if i % 4 == 1 {
        return (i / 4 % 32) as u8;
    }
    31
}

pub fn message(i: u32) -> usize {
    match i % 17 {
        n @ 0..3 => n as usize,
        16 => 290,
        _ => 24,
    }
}
