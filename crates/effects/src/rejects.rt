// A reject, by its row.
ghost use Rattle.std.specs.Prelude.{◌≡◌, cond};
ghost use Rattle.entries.specs.declared.Deed.TheVariants as deed;
ghost use Rattle.areas.specs.declared.Task.TheVariants.{Nothing, Put};
ghost use Rattle.turns.specs.Rejects.{reject_t3247, t3346_time};
ghost use Rattle.effects.specs.Effects as rules;
ghost use Rattle.effects.specs.Effects.{sides_of};

use crate::parts::{seat_of, sorted};
use crate::{Keep, Sides, Work};
use areas::Task;
use entries::{Deed, Seat, Seen};
use messages::Reject;
use record::{Access, Hot, access_of, other_of};
use turns::{
    Draws, Order, Row, across_n1, other_turn, row_turn, starts_t3247, to_regional, to_roaming,
};

#[tactic(auto, unfolding(turns::specs::Rejects::reject_t3247))]
fn reject_t3247(t3247: u8, protected: u8, cause: u8, draw: u16) -> Order
    ensures { result ≡ reject_t3247 t3247 protected cause draw }
{
    if protected == 0 && starts_t3247(cause) && t3247 == 0 {
        Order::Run(u32::from(draw))
    } else {
        Order::Leave
    }
}

#[tactic(auto, unfolding(crate::specs::Effects::row_deed, crate::specs::Effects::mark_deed, turns::specs::Rejects::row_text, turns::specs::Words::mark_in))]
fn row_deed(row: Row, s: Seat) -> Deed
    ensures { result ≡ rules.row_deed row s }
{
    match row {
        Row::Away => Deed::Ban(s),
        Row::N1 => Deed::Bar(s),
        _ => Deed::Nothing,
    }
}

fn to_limit_if(across: bool, net: u32) -> Deed
    ensures { result ≡ cond across (deed.ToLimit net) deed.Nothing }
{
    if across {
        Deed::ToLimit(net)
    } else {
        Deed::Nothing
    }
}

fn put_if(listed: bool, a: Access, protected: u8) -> Task
    ensures { result ≡ cond listed (Put a.net a.code protected) Nothing }
{
    if listed {
        Task::Put {
            net: a.net,
            code: a.code,
            protected,
        }
    } else {
        Task::Nothing
    }
}

#[tactic(auto, unfolding(crate::specs::Effects::row_work))]
fn row_work(row: Row, w: u8, protected: u8, cause: u8, a: Access, s: Seen) -> Work
    ensures { result ≡ rules.row_work row w protected cause a s }
{
    Work {
        mine: row_deed(row, seat_of(s, a.net, protected)),
        theirs: to_limit_if(across_n1(w, protected, cause, row), a.net),
        roaming: put_if(to_roaming(w, cause, row), a, protected),
        regional: put_if(to_regional(w, cause, row), a, protected),
        keep: Keep::Nothing,
    }
}

// The given time if protected, else the draw.
#[tactic(auto, unfolding(turns::specs::Rejects::t3346_time))]
fn t3346_time(protected: u8, given: u16, draw: u16) -> u32
    ensures { result ≡ t3346_time protected given draw }
{
    u32::from(if protected == 0 { draw } else { given })
}

// Kept: no plainer, a reject's own numbers beside what stands about its network, as `reject_effect` of specs/ has them.
#[tactic(auto, unfolding(crate::specs::Effects::reject_effect, crate::specs::Effects::sides_of))]
pub fn reject_effect(
    h: Hot,
    w: u8,
    protected: u8,
    draws: Draws,
    s: Seen,
    g: Reject,
    row: Row,
) -> Sides
    ensures { result ≡ sides_of w (rules.reject_effect h w protected draws s g row) }
{
    let a = access_of(h, w);
    let limit = h.dev.cardlimit;
    let time = t3346_time(protected, g.t3346length, draws.t3346);
    let mine = row_turn(row, w, limit, g.cause, s.found, time, a);
    let theirs = other_turn(row, limit, other_of(h, w));
    Sides {
        t3247: reject_t3247(h.dev.t3247, protected, g.cause, draws.t3247),
        work: row_work(row, w, protected, g.cause, a, s),
        ..sorted(h, w, mine, theirs)
    }
}
