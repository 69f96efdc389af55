// Timers: whether one runs after an order, and what the caller is told.
ghost use Rattle.std.specs.Prelude.{◌≡◌};
ghost use Rattle.turns.specs.Timers.{is_device_timer, runs_in, runs_on, flag_after, clocked, told_of, clocks_of};

use crate::{Clocks, Order, Orders, Told};
use record::{Access, Device};

// Kept: what may not change: a timer by its number, here and below: any octet that a caller has is taken (`timer_range`).
#[tactic(auto, unfolding(crate::specs::Timers::is_device_timer))]
pub fn is_device_timer(number: u8) -> bool
    ensures { result ≡ is_device_timer number }
{
    matches!(number, 4 | 5)
}

#[tactic(auto, unfolding(crate::specs::Timers::runs_in))]
pub fn runs_in(number: u8, d: Device) -> u8
    ensures { result ≡ runs_in number d }
{
    if number == 4 { d.t3247 } else { d.t3512 }
}

// Picked with no jump by the number, as the checks that this is for.
#[tactic(auto, unfolding(crate::specs::Timers::runs_on))]
pub fn runs_on(number: u8, a: Access) -> u8
    ensures { result ≡ runs_on number a }
{
    let last = if number == 3 { a.t3502 } else { a.t3346 };
    let later = if number == 2 { a.t3511 } else { last };
    if number == 1 { a.t3510 } else { later }
}

#[tactic(auto, unfolding(crate::specs::Timers::flag_after))]
pub fn flag_after(o: Order, flag: u8) -> u8
    ensures { result ≡ flag_after o flag }
{
    match o {
        Order::Leave => flag,
        Order::Stop => 0,
        Order::Run(_) => 1,
    }
}

#[tactic(auto, unfolding(crate::specs::Timers::clocked))]
pub fn clocked(o: Orders, a: Access) -> Access
    ensures { result ≡ clocked o a }
{
    Access {
        t3510: flag_after(o.t3510, a.t3510),
        t3511: flag_after(o.t3511, a.t3511),
        t3502: flag_after(o.t3502, a.t3502),
        t3346: flag_after(o.t3346, a.t3346),
        ..a
    }
}

// Stopped only if running.
#[tactic(auto, unfolding(crate::specs::Timers::told_of))]
pub fn told_of(o: Order, flag: u8) -> Told
    ensures { result ≡ told_of o flag }
{
    match o {
        Order::Stop if flag != 0 => Told::Stopped,
        Order::Leave | Order::Stop => Told::Left,
        Order::Run(s) => Told::Started(s),
    }
}

#[tactic(auto, unfolding(crate::specs::Timers::clocks_of))]
pub fn clocks_of(o: Orders, a: Access) -> Clocks
    ensures { result ≡ clocks_of o a }
{
    Clocks {
        t3510: told_of(o.t3510, a.t3510),
        t3511: told_of(o.t3511, a.t3511),
        t3502: told_of(o.t3502, a.t3502),
        t3346: told_of(o.t3346, a.t3346),
    }
}
