// The reading of a request, and of the one inside it.
ghost use Rattle.std.specs.Prelude.{◌≡◌, cond, ◌+◌, ◌-◌, ◌<◌, ◌≤◌, length, Ok, Err, Some};
ghost use Rattle.std.specs.Option.{option_map};
ghost use Rattle.octets.specs.Element.{Elements, first_of, gather_of};
ghost use Rattle.request.specs.Reading.{identity_in, fixed_reading, head_of, is_fourth, is_identity, is_security, is_capability, is_request, filled_of, leading_of, guti_in, request_in, judged_of, asking_number, asking_offset};
ghost use Rattle.request.specs.Levels.{shifted_part, shifted_request, shifted, around_of, read_to, asking_of};
ghost use Rattle.request.specs.Reader.{parts_of, Common, Statuses, alone_of, enclosed_of, elements_in, elements_reading, PartBelow, RequestBelow, Below};
ghost use Rattle.request.specs.declared.Unread.TheVariants as unread;

use crate::{Request, Unread};
use messages::octet;
use octets::{Fault, Gathered, Malformed, Part};

fn fourth(o: u8) -> bool
    ensures { result ≡ is_fourth o }
{
    matches!(o % 16, 1..=3) && o / 16 <= 7
}

fn identity(o: u8, n: usize) -> bool
    ensures { result ≡ is_identity o n }
{
    match o {
        0xF2 => n == 11,
        0x01 => 9 <= n && n <= 64,
        _ => false,
    }
}

fn security(part: Option<Part>) -> bool
    ensures { result ≡ is_security part }
{
    match part {
        Some(q) => 2 <= q.len && q.len <= 8,
        None => false,
    }
}

fn capability(part: Option<Part>) -> bool
    ensures { result ≡ is_capability part }
{
    match part {
        Some(p) => p.len <= 13,
        None => true,
    }
}

fn fits(msg: &[u8], n: usize, p: Option<Part>, q: Option<Part>) -> bool
    ensures { (l : Elements) → p ≡ first_of 0x10 l → q ≡ first_of 0x2E l → result ≡ is_request msg.now n l }
{
    fourth(octet(msg, 3)) && identity(octet(msg, 6), n) && capability(p) && security(q)
}

// One of no octets is none.
fn filled(part: Option<Part>) -> Option<Part>
    ensures { result ≡ filled_of part }
{
    match part {
        Some(p) if p.len != 0 => part,
        _ => None,
    }
}

// The first n octets, or none.
fn leading(part: Option<Part>, n: usize) -> Option<Part>
    ensures { result ≡ leading_of n part }
{
    match part {
        Some(p) if n <= p.len => Some(Part {
            start: p.start,
            len: n,
        }),
        _ => None,
    }
}

// F2 and ten octets, or none.
fn guti(msg: &[u8], part: Option<Part>) -> Option<Part>
    ensures { result ≡ guti_in msg.now part }
{
    match part {
        Some(p) if octet(msg, p.start) == 0xF2 => leading(part, 11),
        _ => None,
    }
}

// A request, by its first 10, 2E and 52, its first 40, 50, 77 and 2B, and its first 70.
fn said(msg: &[u8], n: usize, g: Gathered, h: Gathered, k: Gathered) -> Request
    ensures { (l : Elements) → Common g l → Statuses h l → k.first ≡ first_of 0x70 l → result ≡ request_in msg.now n l }
{
    let o = octet(msg, 3);
    Request {
        regtype: o % 16,
        ksi: o / 16,
        identity: Part { start: 6, len: n },
        capability: filled(g.first),
        security: g.second,
        last: g.third,
        uplink: leading(h.first, 2),
        sessions: leading(h.second, 2),
        additional: guti(msg, h.third),
        status: leading(h.fourth, 1),
        attach: filled(k.first),
    }
}

// A request that keeps the layout or does not.
fn kept(fits: bool, q: Request) -> Result<Request, Unread>
    ensures { result ≡ cond fits (Ok q) (Err unread.Unfit) }
{
    if fits { Ok(q) } else { Err(Unread::Unfit) }
}

fn judged(msg: &[u8], n: usize, g: Gathered, h: Gathered, k: Gathered) -> Result<Request, Unread>
    ensures { (l : Elements) → Common g l → Statuses h l → k.first ≡ first_of 0x70 l → result ≡ judged_of msg.now n l }
{
    let fits = fits(msg, n, g.first, g.second);
    kept(fits, said(msg, n, g, h, k))
}

// The octets of the identity, by its two-octet length.
fn identity_len(msg: &[u8]) -> usize
    ensures { (result ≡ identity_in msg.now) × (result < 65536) }
{
    usize::from(octet(msg, 4)) * 256 + usize::from(octet(msg, 5))
}

// The type, octet 4 and the identity.
fn fixed(msg: &[u8]) -> Result<(), Malformed>
    ensures { result ≡ fixed_reading msg.now }
{
    let (fault, at) = if msg.len() <= 2 {
        (Fault::Cut, 2)
    } else if msg[2] != 0x41 {
        (Fault::Kind, 2)
    } else if msg.len() < 6 + identity_len(msg) {
        (Fault::Cut, msg.len())
    } else {
        return Ok(());
    };
    Err(Malformed { fault, at })
}

fn head(msg: &[u8]) -> Result<(), Malformed>
    ensures { result ≡ head_of msg.now }
{
    messages::opens(msg)?;
    fixed(msg)
}

// How the elements end, and the first ones with four identifiers.
fn gathered(msg: &[u8], x: Option<u8>, y: Option<u8>, z: Option<u8>, u: Option<u8>) -> Gathered
    ensures { result ≡ gather_of x y z u (elements_in msg.now) }
{
    octets::gather(msg, 6 + identity_len(msg), true, x, y, z, u)
}

// A request with no other one in it. At most four are gathered at once, so the rest by themselves: all passes end alike.
fn alone(msg: &[u8], g: Gathered) -> Result<Request, Unread>
    ensures { g ≡ parts_of msg.now → result ≡ alone_of msg.now }
{
    let h = gathered(msg, Some(0x40), Some(0x50), Some(0x77), Some(0x2B));
    let k = gathered(msg, Some(0x70), None, None, None);
    g.end?;
    judged(msg, identity_len(msg), g, h, k)
}

// What an inner reading makes of the request around it: a fault of the inner one lies before those behind it.
fn enclosed(
    end: Result<(), Malformed>,
    fits: bool,
    inner: Result<Request, Unread>,
) -> Result<Request, Unread>
    ensures { result ≡ around_of end fits inner }
{
    if matches!(inner, Err(Unread::Malformed(_))) {
        return inner;
    }
    end?;
    kept(fits, inner?)
}

fn around(msg: &[u8], g: Gathered, inner: Result<Request, Unread>) -> Result<Request, Unread>
    ensures { g ≡ parts_of msg.now → result ≡ enclosed_of msg.now inner }
{
    let fits = fits(msg, identity_len(msg), g.first, g.second);
    enclosed(g.end, fits, inner)
}

// Offsets in octets that begin at a place of the message, as offsets in the message.
fn part_at(part: Option<Part>, by: usize) -> Option<Part>
    requires { PartBelow (18446744073709551615 - by) part }
    ensures { result ≡ option_map (shifted_part by) part }
{
    let p = part?;
    Some(Part {
        start: by + p.start,
        len: p.len,
    })
}

fn request_at(q: Request, by: usize) -> Request
    requires { RequestBelow (18446744073709551615 - by) q }
    ensures { result ≡ shifted_request by q }
{
    Request {
        regtype: q.regtype,
        ksi: q.ksi,
        identity: Part {
            start: by + q.identity.start,
            len: q.identity.len,
        },
        capability: part_at(q.capability, by),
        security: part_at(q.security, by),
        last: part_at(q.last, by),
        uplink: part_at(q.uplink, by),
        sessions: part_at(q.sessions, by),
        additional: part_at(q.additional, by),
        status: part_at(q.status, by),
        attach: part_at(q.attach, by),
    }
}

fn unread_at(u: Unread, by: usize) -> Unread
    requires { Below (18446744073709551615 - by) (Err u) }
    ensures { Err result ≡ shifted by (Err u) }
{
    match u {
        Unread::Malformed(m) => Unread::Malformed(Malformed {
            fault: m.fault,
            at: by + m.at,
        }),
        Unread::Deep(at) => Unread::Deep(by + at),
        Unread::Unfit => Unread::Unfit,
    }
}

fn asking_at(a: Result<Request, Unread>, by: usize) -> Result<Request, Unread>
    requires { Below (18446744073709551615 - by) a }
    ensures { result ≡ shifted by a }
{
    match a {
        Ok(q) => Ok(request_at(q, by)),
        Err(u) => Err(unread_at(u, by)),
    }
}

// The elements of a request whose fixed octets are there. What lies in a 71 is a message again, with one level less and fewer octets.
#[cycle(element_message)]
fn element(msg: &[u8], levels: u8) -> Result<Request, Unread>
    requires { 6 + identity_in msg.now ≤ length msg.now }
    ensures { result ≡ elements_reading levels msg.now }
{
    let g = gathered(msg, Some(0x10), Some(0x2E), Some(0x52), Some(0x71));
    let Some(c) = filled(g.fourth) else {
        return alone(msg, g);
    };
    if levels == 0 {
        return around(msg, g, Err(Unread::Deep(c.start - 3)));
    }
    let inner = message(&msg[c.start..c.start + c.len], levels - 1);
    around(msg, g, asking_at(inner, c.start))
}

// A request, and so many levels in it.
#[cycle(element_message)]
fn message(msg: &[u8], levels: u8) -> Result<Request, Unread>
    ensures { result ≡ read_to levels msg.now }
{
    head(msg)?;
    element(msg, levels)
}

pub fn read(msg: &[u8]) -> Result<Request, Unread>
    ensures { result ≡ asking_of msg.now }
{
    message(msg, 1)
}

// The reply's number for a reading.
pub fn number(a: Result<Request, Unread>) -> u8
    ensures { result ≡ asking_number a }
{
    match a {
        Ok(_) => 0,
        Err(Unread::Malformed(m)) => messages::number(m.fault),
        Err(Unread::Deep(_)) => 19,
        Err(Unread::Unfit) => 3,
    }
}

// The offset of the octet at fault, of a third level its 71, 0 where there is none.
pub fn offset(a: Result<Request, Unread>) -> usize
    ensures { result ≡ asking_offset a }
{
    match a {
        Err(Unread::Malformed(m)) => m.at,
        Err(Unread::Deep(at)) => at,
        _ => 0,
    }
}
