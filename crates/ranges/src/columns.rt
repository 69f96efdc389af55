// Tests over arrays, read to a count.
ghost use Rattle.std.specs.Prelude.{◌≡◌, ◌≤◌, length};
ghost use Rattle.laws.specs.Upto.{all_to, apart_to, distinct_to};
ghost use Rattle.record.specs.Tests.{up_to, is_short};
ghost use Rattle.record.specs.Network.{is_network};
ghost use Rattle.ranges.specs.Valid.{is_item, is_below, halved};

use record::network;

pub(crate) fn limited(xs: &[u8; 16], count: u8, limit: u8) -> bool
    requires { count ≤ 16 }
    ensures { result ≡ all_to (up_to limit) count xs.now }
{
    xs[..count as usize].iter().all(|x| *x <= limit)
}

pub(crate) fn short(xs: &[u32; 15], count: u8) -> bool
    requires { count ≤ 15 }
    ensures { result ≡ all_to is_short count xs.now }
{
    xs[..count as usize].iter().all(|x| *x < 16777216)
}

pub(crate) fn items(xs: &[u64; 40], count: u8) -> bool
    requires { count ≤ 40 }
    ensures { result ≡ all_to is_item count xs.now }
{
    xs[..count as usize].iter().all(|x| *x < 562949953421312)
}

pub(crate) fn networks(xs: &[u32; 16], count: u8) -> bool
    requires { count ≤ 16 }
    ensures { result ≡ all_to is_network count xs.now }
{
    xs[..count as usize].iter().all(|x| network(*x))
}

pub(crate) fn below(xs: &[u8; 16], count: u8) -> bool
    requires { count ≤ 16 }
    ensures { result ≡ all_to (is_below count) count xs.now }
{
    xs[..count as usize].iter().all(|x| *x < count)
}

pub(crate) fn once<T: PartialEq>(xs: &[T], count: u8) -> bool
    requires { count ≤ length xs.now }
    ensures { result ≡ apart_to T.eq count xs.now }
{
    for i in 0..count as usize {
        if xs[..i].contains(&xs[i]) {
            return false;
        }
    }
    true
}

pub(crate) fn listed_once(xs: &[u64; 40], count: u8) -> bool
    requires { count ≤ 40 }
    ensures { result ≡ distinct_to halved count xs.now }
{
    for i in 0..count as usize {
        let area = xs[i] / 2;
        if xs[..i].iter().any(|x| *x / 2 == area) {
            return false;
        }
    }
    true
}
