// What is looked up before an event is decided: what the entries say of a network or a file, and whether an area is listed. The numbers come beside the record, since the replay has them apart.
ghost use Rattle.std.specs.Prelude.{◌≡◌, List, ℕ};
ghost use Rattle.entries.specs.Entries.{seen_in};
ghost use Rattle.events.specs.Alike.{Alike};
ghost use Rattle.events.specs.Parts as parts;
ghost use Rattle.events.specs.Parts.{file_seen, seen_of, listed_of};

use entries::{Entries, Seen};
use record::{Hot, Record};
use rules::{Area, Ask};

// Only where no entry is free is one looked for that may give up its place.
#[inline(always)]
fn sight(e: &Entries, count: u8, net: u32) -> Seen
    ensures { result ≡ seen_in count net e.now.nets e.now.forbidden e.now.barred e.now.ranks }
{
    let s = e.look(count, net);
    if s.at < 16 {
        return s;
    }
    Seen {
        at: e.leaver(),
        ..s
    }
}

fn unseen() -> Seen
    ensures { result ≡ parts.unseen }
{
    Seen {
        at: 0,
        found: false,
        forbidden: 0,
        barred: 0,
    }
}

// Of an import the file is gone over here, where other events do not come by. A file that is none is not counted.
#[tactic(auto, unfolding(crate::specs::Parts::file_seen))]
fn filed(count: u8, r: &Record, file: &[u8]) -> Seen
    ensures { result ≡ file_seen count file.now r.now.e0.nets }
{
    if !checks::import_range(file) {
        return unseen();
    }
    Seen {
        at: r.e0.held_with(count, file),
        found: true,
        forbidden: 0,
        barred: 0,
    }
}

#[tactic(auto, unfolding(crate::specs::Parts::sight_of, crate::specs::Parts::seen_by, crate::specs::Parts::seen_of))]
pub(crate) fn see(h: Hot, r: &Record, q: Ask, octets: &[u8]) -> Seen
    ensures { result ≡ seen_of q octets.now h r.now.e0 r.now.e1 }
{
    match q {
        Ask::Nothing => unseen(),
        Ask::Network { access: 0, net } => sight(&r.e0, h.a0.entries, net),
        Ask::Network { access: _, net } => sight(&r.e1, h.a1.entries, net),
        Ask::File => filed(h.a0.entries, r, octets),
    }
}

// The marks alone: who would give up its place is not asked, and a file has none.
pub(crate) fn marks(h: Hot, r: &Record, q: Ask) -> Seen
    ensures { (octets : List ℕ) → Alike result (seen_of q octets h r.now.e0 r.now.e1) }
{
    match q {
        Ask::Nothing => unseen(),
        Ask::Network { access: 0, net } => r.e0.look(h.a0.entries, net),
        Ask::Network { access: _, net } => r.e1.look(h.a1.entries, net),
        Ask::File => unseen(),
    }
}

#[tactic(auto, unfolding(crate::specs::Parts::listed_of))]
pub(crate) fn listing(h: Hot, r: &Record, q: Option<Area>) -> bool
    ensures { result ≡ listed_of q h r.now.roaming r.now.regional }
{
    match q {
        Some(a) => {
            areas::listed(a.net, a.code, h.dev.roaming, &r.roaming)
                || areas::listed(a.net, a.code, h.dev.regional, &r.regional)
        }
        None => false,
    }
}
