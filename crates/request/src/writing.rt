// The writing of a request: what a record says in it, by its edition and what is lent from S1 mode.
ghost use Rattle.std.specs.Prelude.{◌≡◌, cond, [], ◌++◌, ◌≤◌, eqb, length};
ghost use Rattle.networks.specs.Networks.{octets3};
ghost use Rattle.request.specs.Layout.{layout};
ghost use Rattle.request.specs.Writing.{gutis_of, says_of, may_request, written_of, buffer_of, no_s1};
ghost use Rattle.request.specs.Steps.{sent_of, sent_over, Identifiable, identified_of};

use crate::laying::{Saying, item};
use identity::{Choice, S1, choose, is_mapped, map};
use record::{Access, Answer, Record, access_of};

// F2 and ten octets for each access, as they are sent.
fn gutis(guti0: [u8; 10], guti1: [u8; 10]) -> [u8; 22]
    ensures { result ≡ gutis_of guti0 guti1 }
{
    let mut both = [0u8; 22];
    let lead = [0xF2u8];
    let from = item(&mut both, 0, &lead, &guti0);
    item(&mut both, from, &lead, &guti1);
    both
}

fn may(r: &Record, access: u8, attach: usize) -> bool
    ensures { result ≡ may_request r.now access attach }
{
    attach <= 65000 && access <= 1 && ranges::fits(r)
}

// A piece that goes with the request, or none.
fn given<'a>(held: bool, piece: &'a [u8]) -> &'a [u8]
    ensures { result.now ≡ cond held piece.now [] }
{
    if held { piece } else { &[] }
}

fn area(net: u32, code: u32) -> [u8; 6]
    ensures { result ≡ octets3 net ++ octets3 code }
{
    let [_, a, b, c] = net.to_be_bytes();
    let [_, d, e, f] = code.to_be_bytes();
    [a, b, c, d, e, f]
}

// 40 and 50 are an update's, and a 40 that is zero is left out. With a mapped GUTI, 77 has the best 5G-GUTI, 2B says "not in EMM-REGISTERED state" and 70 has the
// attach message; else the best identity opens the request, and there is none of them.
fn identify(
    r: &Record,
    own: Access,
    mapped: bool,
    from4g: &[u8],
    best: &[u8],
    attach: &[u8],
    buffer: &mut [u8],
) -> Result<usize, Answer>
    requires { Identifiable own r.now.hot.dev from4g.now best.now attach.now mapped }
    ensures value { result ≡ sent_of (layout (identified_of own r.now.hot.dev mapped from4g.now best.now r.now.capability r.now.security attach.now)) (length buffer.old) }
    ensures buffer_after { buffer.new ≡ sent_over (layout (identified_of own r.now.hot.dev mapped from4g.now best.now r.now.capability r.now.security attach.now)) buffer.old }
{
    let area = area(own.lastnet, own.lastcode);
    let uplink = own.uplink.to_le_bytes();
    let sessions = own.sessions.to_le_bytes();
    let absent = [0x00];
    let update = own.regtype > 1;
    let said = Saying {
        regtype: own.regtype,
        ksi: own.ksi,
        identity: if mapped { from4g } else { best },
        capability: &r.capability[..usize::from(r.hot.dev.capability)],
        security: &r.security[..usize::from(r.hot.dev.security)],
        last: given(own.visited != 0, &area),
        uplink: given(update && own.uplink != 0, &uplink),
        sessions: given(update, &sessions),
        additional: given(mapped, best),
        status: given(mapped, &absent),
        attach: given(mapped, attach),
    };
    said.send(buffer)
}

// The best identity is a part of the GUTIs or the SUCI, and is written from there; beside a mapped GUTI the SUCI is none.
fn compose(
    r: &Record,
    access: u8,
    own: Access,
    s1: S1,
    attach: &[u8],
    buffer: &mut [u8],
) -> Result<usize, Answer>
    requires { (r.now.hot.dev.suci ≤ 64) × ((r.now.hot.dev.capability ≤ 13) × ((r.now.hot.dev.security ≤ 8) × ((own.ksi ≤ 7) × ((own.regtype ≤ 3) × (length attach.now ≤ 65000))))) }
    ensures value { result ≡ sent_of (layout (says_of r.now access own (cond (eqb access 0) r.now.equivalents0 r.now.equivalents1) s1 attach.now)) (length buffer.old) }
    ensures buffer_after { buffer.new ≡ sent_over (layout (says_of r.now access own (cond (eqb access 0) r.now.equivalents0 r.now.equivalents1) s1 attach.now)) buffer.old }
{
    let dev = r.hot.dev;
    let gutis = gutis(r.guti0, r.guti1);
    let mapped = is_mapped(dev.edition, own.regtype, s1);
    let from4g = map(s1.guti);
    let best = choose(Choice {
        gutis: &gutis,
        suci: given(!mapped, &r.suci[..usize::from(dev.suci)]),
        access,
        held0: r.hot.a0.guti,
        held1: r.hot.a1.guti,
        net: own.net,
        equivalents: if access == 0 {
            &r.equivalents0
        } else {
            &r.equivalents1
        },
        count: own.equivalents,
    });
    identify(r, own, mapped, &from4g, best, attach, buffer)
}

// Nothing lent from S1 mode.
pub fn no_s1() -> S1
    ensures { result ≡ no_s1 }
{
    S1 {
        registered: 0,
        n26: 0,
        context: 0,
        valid: 0,
        native: 0,
        guti: [0u8; 10],
    }
}

// How many octets are written into the buffer, or why none are.
pub fn write(
    r: &Record,
    access: u8,
    s1: S1,
    attach: &[u8],
    buffer: &mut [u8],
) -> Result<usize, Answer>
    ensures value { result ≡ written_of r.now access s1 attach.now (length buffer.old) }
    ensures buffer_after { buffer.new ≡ buffer_of r.now access s1 attach.now buffer.old }
{
    if !may(r, access, attach.len()) {
        return Err(Answer::Range);
    }
    let own = access_of(r.hot, access);
    if own.state != 4 {
        return Err(Answer::State);
    }
    compose(r, access, own, s1, attach, buffer)
}
