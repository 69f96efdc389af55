// A start, an update, a key set: events of one access that touch no array.
ghost use Rattle.std.specs.Prelude.{◌≡◌, cond, eqb};
ghost use Rattle.turns.specs.declared.Order.TheVariants.{Leave, Stop};
ghost use Rattle.effects.specs.Effects as rules;
ghost use Rattle.effects.specs.Effects.{sides_of};

use crate::Sides;
use crate::parts::plain;
use record::{Hot, access_of};
use turns::{Order, key_set, started, updated};

#[tactic(auto, unfolding(crate::specs::Effects::start_effect))]
pub fn start_effect(h: Hot, w: u8, net: u32, code: u32) -> Sides
    ensures { result ≡ sides_of w (rules.start_effect h w net code) }
{
    plain(h, w, started(net, code, access_of(h, w)), false)
}

// What an update does to T3512.
pub fn stop_over_0(w: u8) -> Order
    ensures { result ≡ cond (eqb w 0) Stop Leave }
{
    if w == 0 { Order::Stop } else { Order::Leave }
}

// Kept: what may not change: `update_effect` takes the numbers of an update one by one, as document 02, R-5, has them; a struct of them would be taken apart again where each is set.
#[tactic(auto, unfolding(crate::specs::Effects::update_effect, crate::specs::Effects::sides_of))]
pub fn update_effect(
    h: Hot,
    w: u8,
    regtype: u8,
    net: u32,
    code: u32,
    uplink: u16,
    sessions: u16,
) -> Sides
    ensures { result ≡ sides_of w (rules.update_effect h w regtype net code uplink sessions) }
{
    let mine = updated(regtype, net, code, uplink, sessions, access_of(h, w));
    Sides {
        t3512: stop_over_0(w),
        ..plain(h, w, mine, false)
    }
}

#[tactic(auto, unfolding(crate::specs::Effects::key_effect))]
pub fn key_effect(h: Hot, w: u8, set: u8) -> Sides
    ensures { result ≡ sides_of w (rules.key_effect h w set) }
{
    plain(h, w, key_set(set, access_of(h, w)), false)
}
