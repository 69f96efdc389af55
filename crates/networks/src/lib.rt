// A network from its three octets, and the place in a card's file that none stands in.
#![tactic(auto)]

ghost use Rattle.std.specs.Prelude.{◌≡◌, eqb};
ghost use Rattle.networks.specs.Networks.{network_of, network_at, unused};

// What no network is: a place in a card's file that is not used.
const UNUSED: u32 = 0xFFFFFF;

// A network or an area's code, from its three octets.
pub fn triple(a: u8, b: u8, c: u8) -> u32
    ensures { result ≡ network_of a b c }
{
    u32::from(a) * 65536 + u32::from(b) * 256 + u32::from(c)
}

// The network at a place of a file; where fewer than three octets are left, none.
pub fn network_at(file: &[u8], i: usize) -> u32
    ensures { result ≡ network_at file.now i }
{
    match file.get(i..) {
        Some([a, b, c, ..]) => triple(*a, *b, *c),
        _ => UNUSED,
    }
}

pub fn is_unused(net: u32) -> bool
    ensures { result ≡ eqb net unused }
{
    net == UNUSED
}
