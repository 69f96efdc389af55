// What makes a record valid: one that is not is answer 1.
#![tactic(auto)]

ghost use Rattle.std.specs.Prelude.{◌≡◌, ◌≤◌};
ghost use Rattle.laws.specs.Upto.{all_to};
ghost use Rattle.record.specs.Tests.{both};
ghost use Rattle.ranges.specs.Valid.{ranges_of, rules_of, device_ranges, periodic_ranges, device_numbers, mode_ranges, pending_ranges, identity_ranges, held_ranges, access_ranges, is_item, Bounded, counters_of, card_of, suci_of, codes_of, clock_of, once_of, ranks_of, valid_of};

use columns::{below, items, limited, listed_once, networks, once, short};
use entries::Entries;
use record::{Access, Device, Hot, Record, network, ranged};

mod columns;

#[tactic(auto, unfolding(crate::specs::Valid::device_ranges))]
fn device_ranges(d: Device) -> bool
    ensures { result ≡ device_ranges d }
{
    d.card <= 1
        && (d.card == 0 || ranged(9, 64, d.suci))
        && ranged(1, 10, d.cardlimit)
        && ranged(1, 10, d.banlimit)
        && ranged(1, 10, d.n1limit)
        && ranged(1, 13, d.capability)
        && ranged(2, 8, d.security)
        && d.t3247 <= 1
        && d.roaming <= 40
        && d.regional <= 40
}

#[tactic(auto, unfolding(crate::specs::Valid::periodic_ranges))]
fn periodic_ranges(d: Device) -> bool
    ensures { result ≡ periodic_ranges d }
{
    d.t3512 <= 1 && d.t3512length <= 35712000 && d.due <= 1
}

#[tactic(auto, unfolding(crate::specs::Valid::device_numbers))]
fn device_numbers(d: Device) -> bool
    ensures { result ≡ device_numbers d }
{
    device_ranges(d) && periodic_ranges(d) && ranged(1, 3, d.edition)
}

#[tactic(auto, unfolding(crate::specs::Valid::mode_ranges))]
fn mode_ranges(a: Access) -> bool
    ensures { result ≡ mode_ranges a }
{
    a.state <= 6
        && ranged(1, 3, a.status)
        && a.attempts <= 5
        && a.t3510 <= 1
        && a.t3511 <= 1
        && a.t3502 <= 1
        && a.t3502length <= 11160
        && a.t3346 <= 1
}

#[tactic(auto, unfolding(crate::specs::Valid::pending_ranges))]
fn pending_ranges(a: Access) -> bool
    ensures { result ≡ pending_ranges a }
{
    ranged(1, 3, a.regtype) && a.uplink % 2 == 0 && a.sessions % 2 == 0
}

#[tactic(auto, unfolding(crate::specs::Valid::identity_ranges))]
fn identity_ranges(a: Access) -> bool
    ensures { result ≡ identity_ranges a }
{
    a.code < 16777216
        && a.guti <= 1
        && a.visited <= 1
        && (a.visited == 0 || a.lastnet < 16777216 && a.lastcode < 16777216)
        && a.ksi <= 7
        && a.equivalents <= 15
        && a.entries <= 16
}

#[tactic(auto, unfolding(crate::specs::Valid::held_ranges))]
fn held_ranges(a: Access, equivalents: &[u32; 15], e: &Entries) -> bool
    requires { (a.equivalents ≤ 15) × (a.entries ≤ 16) }
    ensures { result ≡ held_ranges a equivalents.now e.now }
{
    short(equivalents, a.equivalents)
        && limited(&e.forbidden, a.entries, 1)
        && limited(&e.barred, a.entries, 1)
}

#[tactic(auto, unfolding(crate::specs::Valid::access_ranges))]
fn access_ranges(a: Access, equivalents: &[u32; 15], e: &Entries) -> bool
    ensures { result ≡ access_ranges a equivalents.now e.now }
{
    mode_ranges(a) && pending_ranges(a) && identity_ranges(a) && held_ranges(a, equivalents, e)
}

#[tactic(auto, unfolding(crate::specs::Valid::counters_of))]
fn counters(d: Device, a: Access, e: &Entries) -> bool
    requires { a.entries ≤ 16 }
    ensures { result ≡ counters_of d a e.now }
{
    a.cardcounter <= d.cardlimit
        && limited(&e.bans, a.entries, d.banlimit)
        && limited(&e.n1s, a.entries, d.n1limit)
}

#[tactic(auto, unfolding(crate::specs::Valid::card_of))]
fn card(h: Hot) -> bool
    ensures { result ≡ card_of h }
{
    h.dev.card == 1 || h.a0.state == 0 && h.a1.state == 0
}

#[tactic(auto, unfolding(crate::specs::Valid::suci_of))]
fn opens(d: Device, suci: &[u8; 64]) -> bool
    ensures { result ≡ suci_of d suci.now }
{
    d.card == 0 || suci[0] == 1
}

#[tactic(auto, unfolding(crate::specs::Valid::clock_of))]
fn clock(a: Access) -> bool
    ensures { result ≡ clock_of a }
{
    a.t3510 == 0 || a.state == 4
}

fn clocks(h: Hot) -> bool
    ensures { result ≡ both (clock_of h.a0) (clock_of h.a1) }
{
    clock(h.a0) && clock(h.a1)
}

fn listed(r: &Record) -> bool
    requires { (r.now.hot.dev.roaming ≤ 40) × (r.now.hot.dev.regional ≤ 40) }
    ensures { result ≡ both (all_to is_item r.now.hot.dev.roaming r.now.roaming) (all_to is_item r.now.hot.dev.regional r.now.regional) }
{
    items(&r.roaming, r.hot.dev.roaming) && items(&r.regional, r.hot.dev.regional)
}

fn counted(r: &Record) -> bool
    requires { Bounded r.now.hot }
    ensures { result ≡ both (counters_of r.now.hot.dev r.now.hot.a0 r.now.e0) (counters_of r.now.hot.dev r.now.hot.a1 r.now.e1) }
{
    counters(r.hot.dev, r.hot.a0, &r.e0) && counters(r.hot.dev, r.hot.a1, &r.e1)
}

#[tactic(auto, unfolding(crate::specs::Valid::codes_of))]
fn codes(r: &Record) -> bool
    requires { Bounded r.now.hot }
    ensures { result ≡ codes_of r.now }
{
    network(r.hot.dev.home)
        && network(r.hot.a0.net)
        && network(r.hot.a1.net)
        && networks(&r.e0.nets, r.hot.a0.entries)
        && networks(&r.e1.nets, r.hot.a1.entries)
}

#[tactic(auto, using(laws::proofs::Taken::apart_is), unfolding(crate::specs::Valid::once_of))]
fn singles(r: &Record) -> bool
    requires { Bounded r.now.hot }
    ensures { result ≡ once_of r.now }
{
    once(&r.e0.nets, r.hot.a0.entries)
        && once(&r.e1.nets, r.hot.a1.entries)
        && listed_once(&r.roaming, r.hot.dev.roaming)
        && listed_once(&r.regional, r.hot.dev.regional)
}

#[tactic(auto, using(laws::proofs::Taken::apart_is), unfolding(crate::specs::Valid::ranks_of))]
fn ordered(a: Access, e: &Entries) -> bool
    requires { a.entries ≤ 16 }
    ensures { result ≡ ranks_of a e.now }
{
    below(&e.ranks, a.entries) && once(&e.ranks, a.entries)
}

fn orders(r: &Record) -> bool
    requires { Bounded r.now.hot }
    ensures { result ≡ both (ranks_of r.now.hot.a0 r.now.e0) (ranks_of r.now.hot.a1 r.now.e1) }
{
    ordered(r.hot.a0, &r.e0) && ordered(r.hot.a1, &r.e1)
}

#[tactic(auto, unfolding(crate::specs::Valid::ranges_of))]
fn in_ranges(r: &Record) -> bool
    ensures { result ≡ ranges_of r.now }
{
    device_numbers(r.hot.dev)
        && access_ranges(r.hot.a0, &r.equivalents0, &r.e0)
        && access_ranges(r.hot.a1, &r.equivalents1, &r.e1)
        && listed(r)
}

// The rules that are left once the ranges hold: the counts are within their arrays then.
fn rules_hold(r: &Record) -> bool
    requires { Bounded r.now.hot }
    ensures { result ≡ rules_of r.now }
{
    counted(r)
        && card(r.hot)
        && opens(r.hot.dev, &r.suci)
        && codes(r)
        && clocks(r.hot)
        && singles(r)
        && orders(r)
}

// The public test: a record that fails it is answer 1.
#[tactic(auto, unfolding(crate::specs::Valid::valid_of))]
pub fn fits(r: &Record) -> bool
    ensures { result ≡ valid_of r.now }
{
    in_ranges(r) && rules_hold(r)
}

// The same of a record handed in by value.
pub fn valid(r: Record) -> bool
    ensures { result ≡ valid_of r }
{
    fits(&r)
}
