// Whether two records are one, field by field.
ghost use Rattle.std.specs.Prelude.{◌≡◌};
ghost use Rattle.image.specs.Same.{same_device, same_access, same_hot, same_entries, same_areas, same_card, same_record};

use crate::laying::{access_octets, access_pairs, access_words, device_octets, device_words};
use entries::Entries;
use record::{Access, Device, Hot, Record};

#[tactic(auto, using(crate::proofs::Equal::same_is), unfolding(crate::specs::Same::same_device))]
fn device(d: &Device, f: &Device) -> bool
    ensures { result ≡ same_device d.now f.now }
{
    device_words(d) == device_words(f) && device_octets(d) == device_octets(f)
}

#[tactic(auto, using(crate::proofs::Equal::same_is), unfolding(crate::specs::Same::same_access))]
fn access(a: &Access, b: &Access) -> bool
    ensures { result ≡ same_access a.now b.now }
{
    access_words(a) == access_words(b)
        && access_pairs(a) == access_pairs(b)
        && access_octets(a) == access_octets(b)
}

#[tactic(auto, unfolding(crate::specs::Same::same_hot))]
fn hot(g: &Hot, h: &Hot) -> bool
    ensures { result ≡ same_hot g.now h.now }
{
    device(&g.dev, &h.dev) && access(&g.a0, &h.a0) && access(&g.a1, &h.a1)
}

#[tactic(auto, using(crate::proofs::Equal::same_is), unfolding(crate::specs::Same::same_entries, crate::specs::Same::same_marks))]
fn entries_of(t: &Entries, u: &Entries) -> bool
    ensures { result ≡ same_entries t.now u.now }
{
    t.nets == u.nets
        && t.bans == u.bans
        && t.n1s == u.n1s
        && t.forbidden == u.forbidden
        && t.barred == u.barred
        && t.ranks == u.ranks
}

#[tactic(auto, using(crate::proofs::Equal::same_is), unfolding(crate::specs::Same::same_areas))]
fn areas(r: &Record, q: &Record) -> bool
    ensures { result ≡ same_areas r.now q.now }
{
    r.roaming == q.roaming
        && r.regional == q.regional
        && r.guti0 == q.guti0
        && r.guti1 == q.guti1
        && r.equivalents0 == q.equivalents0
        && r.equivalents1 == q.equivalents1
}

#[tactic(auto, using(crate::proofs::Equal::same_is), unfolding(crate::specs::Same::same_card))]
fn card(r: &Record, q: &Record) -> bool
    ensures { result ≡ same_card r.now q.now }
{
    r.suci == q.suci && r.capability == q.capability && r.security == q.security
}

// Any two records. What an event changes is mostly a number, so these are looked at first.
#[tactic(auto, unfolding(crate::specs::Same::same_record, crate::specs::Same::same_arrays))]
pub fn same(r: &Record, q: &Record) -> bool
    ensures { result ≡ same_record r.now q.now }
{
    hot(&r.hot, &q.hot)
        && entries_of(&r.e0, &q.e0)
        && entries_of(&r.e1, &q.e1)
        && areas(r, q)
        && card(r, q)
}
