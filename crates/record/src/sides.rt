// The two accesses of the record's numbers.
ghost use Rattle.std.specs.Prelude.{◌≡◌, cond};
ghost use Rattle.record.specs.Sides.{access_of, other_of, hot_of};

use crate::joins::pick;
use crate::{Access, Device, Hot};

// One of two accesses. Kept: tried and slower: number by number, since where whole ones are chosen between the choice is made in memory, a third more instructions (R-10).
fn one_of(first: bool, a: Access, b: Access) -> Access
    ensures { result ≡ cond first a b }
{
    Access {
        net: pick(first, a.net, b.net),
        code: pick(first, a.code, b.code),
        lastnet: pick(first, a.lastnet, b.lastnet),
        lastcode: pick(first, a.lastcode, b.lastcode),
        t3502length: pick(first, a.t3502length, b.t3502length),
        uplink: pick(first, a.uplink, b.uplink),
        sessions: pick(first, a.sessions, b.sessions),
        state: pick(first, a.state, b.state),
        status: pick(first, a.status, b.status),
        attempts: pick(first, a.attempts, b.attempts),
        cardcounter: pick(first, a.cardcounter, b.cardcounter),
        t3510: pick(first, a.t3510, b.t3510),
        t3511: pick(first, a.t3511, b.t3511),
        t3502: pick(first, a.t3502, b.t3502),
        guti: pick(first, a.guti, b.guti),
        visited: pick(first, a.visited, b.visited),
        ksi: pick(first, a.ksi, b.ksi),
        equivalents: pick(first, a.equivalents, b.equivalents),
        entries: pick(first, a.entries, b.entries),
        regtype: pick(first, a.regtype, b.regtype),
        t3346: pick(first, a.t3346, b.t3346),
    }
}

pub fn access_of(h: Hot, w: u8) -> Access
    ensures { result ≡ access_of h w }
{
    one_of(w == 0, h.a0, h.a1)
}

pub fn other_of(h: Hot, w: u8) -> Access
    ensures { result ≡ other_of h w }
{
    one_of(w == 0, h.a1, h.a0)
}

// The device's numbers and those of access w, and the other access as it is.
pub fn hot_with(dev: Device, w: u8, a: Access, h: Hot) -> Hot
    ensures { result ≡ hot_of dev w a (other_of h w) }
{
    Hot {
        dev,
        a0: one_of(w == 0, a, h.a0),
        a1: one_of(w == 0, h.a1, a),
    }
}
