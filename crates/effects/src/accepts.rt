// An accept: what it teaches its access, T3512, and the forbidden mark that clears.
ghost use Rattle.std.specs.Prelude.{◌≡◌};
ghost use Rattle.effects.specs.Effects as rules;
ghost use Rattle.effects.specs.Effects.{sides_of};

use crate::parts::{idle, plain, scheduled, seat_of};
use crate::{Keep, Sides, Work};
use entries::{Deed, Seat, Seen};
use messages::Accept;
use record::{Device, Hot, access_of};
use turns::{Order, accepted};

// T3512's time: the one given, or the one kept.
#[tactic(auto, unfolding(crate::specs::Effects::t3512_time))]
fn t3512_time(g: Accept, d: Device) -> u32
    ensures { result ≡ rules.t3512_time g d }
{
    g.t3512length.unwrap_or(d.t3512length)
}

#[tactic(auto, unfolding(crate::specs::Effects::accept_t3512))]
fn accept_t3512(w: u8, time: u32) -> Order
    ensures { result ≡ rules.accept_t3512 w time }
{
    if w == 0 && time != 0 {
        Order::Run(time)
    } else {
        Order::Leave
    }
}

#[tactic(auto, unfolding(crate::specs::Effects::accept_device))]
fn accept_device(w: u8, time: u32, d: Device) -> Device
    ensures { result ≡ rules.accept_device w time d }
{
    if w == 0 { scheduled(time, 0, d) } else { d }
}

fn accept_work(seat: Seat, g: Accept) -> Work
    ensures { result ≡ rules.accept_work seat g }
{
    Work {
        mine: Deed::Accept(seat),
        keep: Keep::Gift(g),
        ..idle()
    }
}

#[tactic(auto, unfolding(crate::specs::Effects::accept_effect, crate::specs::Effects::sides_of))]
pub fn accept_effect(h: Hot, w: u8, g: Accept, s: Seen) -> Sides
    ensures { result ≡ sides_of w (rules.accept_effect h w g s) }
{
    let a = access_of(h, w);
    let t3502length = g.t3502length.unwrap_or(720);
    let time = t3512_time(g, h.dev);
    let mine = accepted(g.guti.is_some(), g.count, t3502length, a);
    Sides {
        dev: accept_device(w, time, h.dev),
        t3512: accept_t3512(w, time),
        work: accept_work(seat_of(s, a.net, 1), g),
        ..plain(h, w, mine, false)
    }
}
