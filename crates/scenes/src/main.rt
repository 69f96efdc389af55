// Prints the whole reply and the whole record after each event of the log on standard input, as the second program does with
// `--full`: docs/src/full.rs says what stands on a line.
#![tactic(auto)]

use record::Record;
use std::io::{self, BufReader, ErrorKind, LineWriter, Write};

mod frames;
mod show;

fn event(out: &mut impl Write, r: &mut Record, number: u64, s: &[u8]) -> io::Result<()> {
    let kind = frames::kind(s);
    let body = events::tail(s, 2);
    let e = eventlog::event(kind, body);
    let p = events::handle(r, e, eventlog::octets(kind, body));
    show::line(out, number, &p, r)?;
    show::full(out, &p, r)
}

// Nothing says that the input ends, so the events are counted.
fn main(rt: HostRuntime) -> io::Result<()> {
    let mut input = BufReader::new(rt.alloc(), rt.stdin())?;
    let mut out = LineWriter::new(rt.alloc(), rt.stdout())?;
    let mut body = [0u8; 65536];
    let mut r = eventlog::first();
    let mut at: u64 = 0;
    for number in 1..100000 {
        match frames::record(&mut input, &mut body) {
            Ok(Some(n)) => {
                event(&mut out, &mut r, number, &body[..n])?;
                at += n as u64 + 2;
            }
            Ok(None) => break,
            Err(e) if e.kind() == ErrorKind::InvalidData => {
                writeln!(out, "bad log at {at}")?;
                break;
            }
            Err(e) => return Err(e),
        }
    }
    out.flush()
}
