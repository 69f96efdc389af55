// What the effects are put together from: the turns by access, the device's numbers, the work on the arrays.
ghost use Rattle.std.specs.Prelude.{◌≡◌, false};
ghost use Rattle.turns.specs.declared.Order.TheVariants.{Leave};
ghost use Rattle.entries.specs.Entries.{seat_of};
ghost use Rattle.effects.specs.Effects as rules;
ghost use Rattle.effects.specs.Effects.{sides_of};

use crate::{Keep, Sides, Work};
use areas::Task;
use entries::{Deed, Seat, Seen};
use record::{Device, Hot, other_of};
use turns::{Order, Turn, still};

// What an effect begins with: the turns of its own access and of the other one, by access, and nothing else.
#[tactic(auto, unfolding(crate::specs::Effects::sides_of))]
pub(crate) fn sorted(h: Hot, w: u8, mine: Turn, theirs: Turn) -> Sides
    ensures { result ≡ sides_of w (record { dev = h.dev; mine = mine; theirs = theirs; t3247 = Leave; t3512 = Leave; work = rules.idle; restart = false }) }
{
    let (t0, t1) = if w == 0 {
        (mine, theirs)
    } else {
        (theirs, mine)
    };
    Sides {
        dev: h.dev,
        t0,
        t1,
        t3247: Order::Leave,
        t3512: Order::Leave,
        work: idle(),
        restart: false,
    }
}

#[tactic(auto, unfolding(crate::specs::Effects::ticked))]
pub fn ticked(t3247: u8, t3512: u8, d: Device) -> Device
    ensures { result ≡ rules.ticked t3247 t3512 d }
{
    Device { t3247, t3512, ..d }
}

#[tactic(auto, unfolding(crate::specs::Effects::scheduled))]
pub fn scheduled(t3512length: u32, due: u8, d: Device) -> Device
    ensures { result ≡ rules.scheduled t3512length due d }
{
    Device {
        t3512length,
        due,
        ..d
    }
}

pub fn idle() -> Work
    ensures { result ≡ rules.idle }
{
    on_both(Deed::Nothing, Task::Nothing, Keep::Nothing)
}

pub(crate) fn on_both(deed: Deed, task: Task, keep: Keep) -> Work
    ensures { result ≡ rules.on_both deed task keep }
{
    Work {
        mine: deed,
        theirs: deed,
        roaming: task,
        regional: task,
        keep,
    }
}

pub(crate) fn seat_of(s: Seen, net: u32, protected: u8) -> Seat
    ensures { result ≡ seat_of s net protected }
{
    Seat {
        at: s.at,
        found: s.found,
        net,
        protected,
    }
}

// An event of one access that touches no array and no timer of the device.
#[tactic(auto, unfolding(crate::specs::Effects::sides_of))]
pub fn plain(h: Hot, w: u8, t: Turn, restart: bool) -> Sides
    ensures { result ≡ sides_of w (rules.plain h w t restart) }
{
    Sides {
        restart,
        ..sorted(h, w, t, still(other_of(h, w)))
    }
}
