// What the caller is told: the answer, each timer, and what is asked of it.
ghost use Rattle.std.specs.Prelude.{◌≡◌};
ghost use Rattle.rules.specs.Plan as rules;
ghost use Rattle.rules.specs.Sides.{reply_by};

use crate::Reply;
use effects::Sides;
use record::{Answer, Hot};
use turns::{Clocks, Told, clocks_of, told_of};

#[tactic(auto, unfolding(crate::specs::Sides::reply_by))]
pub(crate) fn taken_reply(h: Hot, w: u8, e: Sides) -> Reply
    ensures { result ≡ reply_by h w e }
{
    Reply {
        answer: Answer::Taken,
        c0: clocks_of(e.t0.orders, h.a0),
        c1: clocks_of(e.t1.orders, h.a1),
        t3247: told_of(e.t3247, h.dev.t3247),
        t3512: told_of(e.t3512, h.dev.t3512),
        restart: e.restart.then_some(w),
        leave: None,
        update: None,
    }
}

pub(crate) fn all_left() -> Clocks
    ensures { result ≡ rules.all_left }
{
    Clocks {
        t3510: Told::Left,
        t3511: Told::Left,
        t3502: Told::Left,
        t3346: Told::Left,
    }
}

#[tactic(auto, unfolding(crate::specs::Plan::refused_reply, crate::specs::Plan::is_ignoring))]
pub fn refused_reply(n: Answer, w: u8) -> Reply
    ensures { result ≡ rules.refused_reply n w }
{
    let ignoring = matches!(n, Answer::Ignored);
    let other = if w == 0 { 1 } else { 0 };
    Reply {
        answer: n,
        c0: all_left(),
        c1: all_left(),
        t3247: Told::Left,
        t3512: Told::Left,
        restart: None,
        leave: ignoring.then_some(w),
        update: ignoring.then_some(other),
    }
}
