// What an event sets in an access's numbers: one setter for each group that document 01's rows name.
ghost use Rattle.std.specs.Prelude.{◌≡◌};
ghost use Rattle.record.specs.Setters as sets;

use crate::Access;
use entries::grow;

// State, update status and attempt counter at once: one copy of the numbers, where three setters would make three.
#[tactic(auto, unfolding(crate::specs::Setters::in_state, crate::specs::Setters::with_status, crate::specs::Setters::with_attempts))]
pub fn moved(state: u8, status: u8, attempts: u8, a: Access) -> Access
    ensures { result ≡ sets.with_attempts attempts (sets.with_status status (sets.in_state state a)) }
{
    Access {
        state,
        status,
        attempts,
        ..a
    }
}

// "Clear identity".
#[tactic(auto, unfolding(crate::specs::Setters::forgotten))]
pub fn forgotten(a: Access) -> Access
    ensures { result ≡ sets.forgotten a }
{
    Access {
        guti: 0,
        visited: 0,
        ksi: 7,
        ..a
    }
}

#[tactic(auto, unfolding(crate::specs::Setters::emptied))]
pub fn emptied(a: Access) -> Access
    ensures { result ≡ sets.emptied a }
{
    Access {
        equivalents: 0,
        ..a
    }
}

#[tactic(auto, unfolding(crate::specs::Setters::counted))]
pub fn counted(n: u8, a: Access) -> Access
    ensures { result ≡ sets.counted n a }
{
    Access {
        cardcounter: n,
        ..a
    }
}

#[tactic(auto, unfolding(crate::specs::Setters::pending))]
pub fn pending(regtype: u8, net: u32, code: u32, uplink: u16, sessions: u16, a: Access) -> Access
    ensures { result ≡ sets.pending regtype net code uplink sessions a }
{
    Access {
        net,
        code,
        regtype,
        uplink,
        sessions,
        ..a
    }
}

#[tactic(auto, unfolding(crate::specs::Setters::keyed))]
pub fn keyed(set: u8, a: Access) -> Access
    ensures { result ≡ sets.keyed set a }
{
    Access { ksi: set, ..a }
}

// What an accept leaves behind.
#[tactic(auto, unfolding(crate::specs::Setters::taught))]
pub fn taught(given: bool, count: u8, t3502length: u16, a: Access) -> Access
    ensures { result ≡ sets.taught given count t3502length a }
{
    Access {
        t3502length,
        guti: if given { 1 } else { a.guti },
        visited: 1,
        lastnet: a.net,
        lastcode: a.code,
        equivalents: count,
        ..a
    }
}

#[tactic(auto, unfolding(crate::specs::Setters::entered))]
pub fn entered(found: bool, a: Access) -> Access
    ensures { result ≡ sets.entered found a }
{
    Access {
        entries: grow(found, a.entries),
        ..a
    }
}

#[tactic(auto, unfolding(crate::specs::Setters::with_entries))]
pub fn with_entries(entries: u8, a: Access) -> Access
    ensures { result ≡ sets.with_entries entries a }
{
    Access { entries, ..a }
}
