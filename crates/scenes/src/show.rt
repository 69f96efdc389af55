// Replies and records as text.
use entries::Entries;
use record::{Access, Record};
use rules::Reply;
use std::fmt;
use std::io::{self, Write};
use turns::{Clocks, Told};

// Those of a list that a count holds.
fn held<T>(s: &[T], count: u8) -> &[T] {
    let n = usize::from(count);
    if n < s.len() { &s[..n] } else { s }
}

// Octets, or a dash where there are none.
#[derive(Clone, Copy)]
struct Hex<'a>(&'a [u8]);

impl fmt::Display for Hex<'_> {
    fn fmt<W: fmt::Write>(&self, f: &mut fmt::Formatter<W>) -> fmt::Result {
        if self.0.is_empty() {
            write!(f, "-")?;
        }
        for octet in self.0 {
            write!(f, "{octet:02x}")?;
        }
        Ok(())
    }
}

// What stands before one of a list: a comma, but for the first.
fn comma(i: usize) -> &'static str {
    if i == 0 { "" } else { "," }
}

// Networks, or a dash where there are none.
#[derive(Clone, Copy)]
struct Networks<'a>(&'a [u32]);

impl fmt::Display for Networks<'_> {
    fn fmt<W: fmt::Write>(&self, f: &mut fmt::Formatter<W>) -> fmt::Result {
        if self.0.is_empty() {
            write!(f, "-")?;
        }
        for (i, net) in self.0.iter().enumerate() {
            write!(f, "{}{net:06x}", comma(i))?;
        }
        Ok(())
    }
}

// Areas, each with a mark of whether a protected reject listed it, or a dash.
#[derive(Clone, Copy)]
struct Areas<'a>(&'a [u64]);

impl fmt::Display for Areas<'_> {
    fn fmt<W: fmt::Write>(&self, f: &mut fmt::Formatter<W>) -> fmt::Result {
        if self.0.is_empty() {
            write!(f, "-")?;
        }
        for (i, x) in self.0.iter().enumerate() {
            let mark = if x % 2 == 0 { "u" } else { "p" };
            write!(f, "{}{:012x}:{mark}", comma(i), x / 2)?;
        }
        Ok(())
    }
}

// An access's entries, as many as it holds, or a dash.
#[derive(Clone, Copy)]
struct Table<'a> {
    count: u8,
    entries: &'a Entries,
}

impl fmt::Display for Table<'_> {
    fn fmt<W: fmt::Write>(&self, f: &mut fmt::Formatter<W>) -> fmt::Result {
        let e = self.entries;
        if self.count == 0 {
            write!(f, "-")?;
        }
        for i in 0..entries::size(self.count) {
            let forbidden = if e.forbidden[i] == 0 { "-" } else { "F" };
            let barred = if e.barred[i] == 0 { "-" } else { "N" };
            write!(
                f,
                "{}{:06x}:{}:{}:{forbidden}{barred}",
                comma(i),
                e.nets[i],
                e.bans[i],
                e.n1s[i]
            )?;
        }
        Ok(())
    }
}

// What becomes of a timer.
#[derive(Clone, Copy)]
struct Becomes(Told);

impl fmt::Display for Becomes {
    fn fmt<W: fmt::Write>(&self, f: &mut fmt::Formatter<W>) -> fmt::Result {
        match self.0 {
            Told::Left => write!(f, "left"),
            Told::Stopped => write!(f, "stopped"),
            Told::Started(n) => write!(f, "started:{n}"),
        }
    }
}

// The access that is asked for, or a dash.
#[derive(Clone, Copy)]
struct On(Option<u8>);

impl fmt::Display for On {
    fn fmt<W: fmt::Write>(&self, f: &mut fmt::Formatter<W>) -> fmt::Result {
        match self.0 {
            Some(access) => write!(f, "{access}"),
            None => write!(f, "-"),
        }
    }
}

fn clock(out: &mut impl Write, name: &str, a: Told, b: Told) -> io::Result<()> {
    write!(out, " {name} {} {}", Becomes(a), Becomes(b))
}

fn clocks(out: &mut impl Write, a: &Clocks, b: &Clocks) -> io::Result<()> {
    clock(out, "T3510", a.t3510, b.t3510)?;
    clock(out, "T3511", a.t3511, b.t3511)?;
    clock(out, "T3502", a.t3502, b.t3502)?;
    clock(out, "T3346", a.t3346, b.t3346)
}

// The answer, and the octet at fault: 0 where no octet is.
fn reply(out: &mut impl Write, p: &Reply) -> io::Result<()> {
    let answer = record::number(p.answer);
    let place = record::offset(p.answer);
    write!(out, "= {answer} at {place}")?;
    clocks(out, &p.c0, &p.c1)?;
    write!(
        out,
        " T3247 {} T3512 {}",
        Becomes(p.t3247),
        Becomes(p.t3512)
    )?;
    write!(
        out,
        " restart {} leave {} update {}",
        On(p.restart),
        On(p.leave),
        On(p.update)
    )
}

fn card(out: &mut impl Write, r: &Record) -> io::Result<()> {
    let d = r.hot.dev;
    let suci = Hex(held(&r.suci, d.suci));
    write!(out, " | card {} home {:06x} suci {suci}", d.card, d.home)?;
    write!(out, " limits {} {} {}", d.cardlimit, d.banlimit, d.n1limit)
}

fn device(out: &mut impl Write, r: &Record) -> io::Result<()> {
    let d = r.hot.dev;
    card(out, r)?;
    let capability = Hex(held(&r.capability, d.capability));
    let security = Hex(held(&r.security, d.security));
    write!(
        out,
        " cap {capability} sec {security} edition {}",
        d.edition
    )?;
    write!(out, " T3247 {} T3512 {}", d.t3247, d.t3512)?;
    write!(out, " length {} due {}", d.t3512length, d.due)?;
    let roaming = Areas(held(&r.roaming, d.roaming));
    let regional = Areas(held(&r.regional, d.regional));
    write!(out, " roaming {roaming} regional {regional}")
}

fn mode(out: &mut impl Write, a: &Access) -> io::Result<()> {
    write!(out, " state {} status {}", a.state, a.status)?;
    write!(out, " attempts {} T3510 {}", a.attempts, a.t3510)?;
    write!(out, " T3511 {} T3502 {}", a.t3511, a.t3502)?;
    write!(out, " length {} T3346 {}", a.t3502length, a.t3346)
}

// Uplink data and sessions as they are sent, the low octet first.
fn pending(out: &mut impl Write, a: &Access) -> io::Result<()> {
    let uplink = a.uplink.swap_bytes();
    let sessions = a.sessions.swap_bytes();
    write!(
        out,
        " pending {:06x}{:06x} type {}",
        a.net, a.code, a.regtype
    )?;
    write!(out, " uplink {uplink:04x} sessions {sessions:04x}")
}

fn identity(out: &mut impl Write, a: &Access, guti: &[u8; 10]) -> io::Result<()> {
    let octets = if a.guti == 0 { &[] } else { &guti[..] };
    write!(out, " guti {} last ", Hex(octets))?;
    if a.visited == 0 {
        write!(out, "-")?;
    } else {
        write!(out, "{:06x}{:06x}", a.lastnet, a.lastcode)?;
    }
    write!(out, " ksi {}", a.ksi)
}

fn access(
    out: &mut impl Write,
    a: &Access,
    guti: &[u8; 10],
    equivalents: &[u32; 15],
    entries: &Entries,
) -> io::Result<()> {
    mode(out, a)?;
    pending(out, a)?;
    identity(out, a, guti)?;
    let networks = Networks(held(equivalents, a.equivalents));
    write!(out, " equivalents {networks} cards {}", a.cardcounter)?;
    let count = a.entries;
    write!(out, " entries {}", Table { count, entries })
}

// An event's own line: number, answer, both states, T3247.
pub(crate) fn line(out: &mut impl Write, count: u64, p: &Reply, r: &Record) -> io::Result<()> {
    let answer = record::number(p.answer);
    let h = r.hot;
    write!(out, "{count} {answer} {} {}", h.a0.state, h.a1.state)?;
    writeln!(out, " {}", h.dev.t3247)
}

pub(crate) fn full(out: &mut impl Write, p: &Reply, r: &Record) -> io::Result<()> {
    reply(out, p)?;
    device(out, r)?;
    write!(out, " | 0")?;
    access(out, &r.hot.a0, &r.guti0, &r.equivalents0, &r.e0)?;
    write!(out, " | 1")?;
    access(out, &r.hot.a1, &r.guti1, &r.equivalents1, &r.e1)?;
    writeln!(out)
}
