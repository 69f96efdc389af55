// A timer that ran out, a power cycle, a card change.
ghost use Rattle.std.specs.Prelude.{◌≡◌};
ghost use Rattle.effects.specs.Effects as rules;
ghost use Rattle.effects.specs.Effects.{sides_of};

use crate::parts::{on_both, plain, scheduled};
use crate::{Keep, Sides};
use areas::Task;
use entries::Deed;
use record::{Device, Hot, access_of};
use turns::{Order, clock_turn, cycled, renewed, still};

#[tactic(auto, unfolding(crate::specs::Effects::carded))]
fn carded(edition: u8, home: u32, suci: u8, d: Device) -> Device
    ensures { result ≡ rules.carded edition home suci d }
{
    Device {
        card: 1,
        home,
        suci,
        t3512length: 3240,
        due: 0,
        edition,
        ..d
    }
}

#[tactic(auto, unfolding(crate::specs::Effects::card_effect, crate::specs::Effects::sides_of))]
pub fn card_effect(h: Hot, edition: u8, home: u32, suci: u8) -> Sides
    ensures { result ≡ sides_of 0 (rules.card_effect h edition home suci) }
{
    Sides {
        dev: carded(edition, home, suci, h.dev),
        t0: renewed(),
        t1: renewed(),
        t3247: Order::Stop,
        t3512: Order::Stop,
        work: on_both(Deed::Fresh, Task::Clear, Keep::Card),
        restart: false,
    }
}

// Every timer of an access but T3510 asks for a restart.
#[tactic(auto, unfolding(crate::specs::Effects::clock_effect))]
fn clock_effect(h: Hot, number: u8, w: u8) -> Sides
    ensures { result ≡ sides_of w (rules.clock_effect h number w) }
{
    let t = clock_turn(number, access_of(h, w));
    plain(h, w, t, number != 1)
}

#[tactic(auto, unfolding(crate::specs::Effects::t3512_effect, crate::specs::Effects::sides_of))]
fn t3512_effect(h: Hot, w: u8) -> Sides
    ensures { result ≡ sides_of w (rules.t3512_effect h w) }
{
    Sides {
        dev: scheduled(h.dev.t3512length, 1, h.dev),
        t3512: Order::Stop,
        ..plain(h, w, still(access_of(h, w)), false)
    }
}

#[tactic(auto, unfolding(crate::specs::Effects::t3247_effect, crate::specs::Effects::sides_of))]
pub fn t3247_effect(h: Hot, w: u8) -> Sides
    ensures { result ≡ sides_of w (rules.t3247_effect h w) }
{
    Sides {
        t3247: Order::Stop,
        work: on_both(Deed::Sweep, Task::Sweep, Keep::Nothing),
        ..plain(h, w, still(access_of(h, w)), false)
    }
}

#[tactic(auto, unfolding(crate::specs::Effects::timer_effect, crate::specs::Effects::device_effect, turns::specs::Timers::is_device_timer))]
pub fn timer_effect(h: Hot, number: u8, w: u8) -> Sides
    ensures { result ≡ sides_of w (rules.timer_effect h number w) }
{
    match number {
        4 => t3247_effect(h, w),
        5 => t3512_effect(h, w),
        _ => clock_effect(h, number, w),
    }
}

#[tactic(auto, unfolding(crate::specs::Effects::power_effect, crate::specs::Effects::sides_of))]
pub fn power_effect(h: Hot) -> Sides
    ensures { result ≡ sides_of 0 (rules.power_effect h) }
{
    Sides {
        dev: h.dev,
        t0: cycled(h.dev.card, h.a0),
        t1: cycled(h.dev.card, h.a1),
        t3247: Order::Stop,
        t3512: Order::Stop,
        work: on_both(Deed::Power, Task::Clear, Keep::Nothing),
        restart: false,
    }
}
