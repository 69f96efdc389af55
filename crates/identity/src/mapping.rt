// A request that goes with a GUTI mapped from a 4G-GUTI: when, and the mapping.
ghost use Rattle.std.specs.Prelude.{◌≡◌};
ghost use Rattle.identity.specs.Identity.{is_from_s1, is_from_native};
ghost use Rattle.identity.specs.Choice.{is_mapped_by};
ghost use Rattle.identity.specs.Mapping.{amf_of, mapped_guti};

use crate::S1;

// The facts of source 002, in an initial registration.
fn from_s1(regtype: u8, s: S1) -> bool
    ensures { result ≡ is_from_s1 regtype s }
{
    regtype == 1 && s.registered != 0 && s.n26 != 0 && s.context != 0 && s.valid != 0
}

// And that of source 003.
fn from_native(regtype: u8, s: S1) -> bool
    ensures { result ≡ is_from_native regtype s }
{
    from_s1(regtype, s) && s.native != 0
}

pub fn is_mapped(edition: u8, regtype: u8, s: S1) -> bool
    ensures { result ≡ is_mapped_by edition regtype s }
{
    match edition {
        2 => from_s1(regtype, s),
        3 => from_native(regtype, s),
        _ => false,
    }
}

// The AMF of an MME group and code, as sent.
fn amf(high: u8, low: u8, code: u8) -> [u8; 3]
    ensures { result ≡ amf_of high low code }
{
    let group = u16::from(high) * 256 + u16::from(low);
    let region = group / 256;
    let set = group % 256 * 4 + u16::from(code) / 64;
    let pointer = code % 64;
    [
        region as u8,
        (set / 4) as u8,
        (set % 4) as u8 * 64 + pointer,
    ]
}

// By the bit fields of TS 23.003. All ten octets come out as they were, which is shown of the definition.
pub fn map(g: [u8; 10]) -> [u8; 11]
    ensures { result ≡ mapped_guti g }
{
    let amf = amf(g[3], g[4], g[5]);
    [
        0xF2, g[0], g[1], g[2], amf[0], amf[1], amf[2], g[6], g[7], g[8], g[9],
    ]
}
