// Events that change numbers alone: a start, an update, a key set, and each timer out but T3247.
ghost use Rattle.std.specs.Prelude.{◌≡◌};
ghost use Rattle.record.specs.Sides.{other_of};
ghost use Rattle.turns.specs.declared.Order.TheVariants.{Leave};
ghost use Rattle.turns.specs.Turns.{still};
ghost use Rattle.checks.specs.Answers.{start_answer, update_answer, key_answer};
ghost use Rattle.effects.specs.Effects.{start_effect, update_effect, key_effect, idle};
ghost use Rattle.rules.specs.declared.Event.TheVariants.{Timer};
ghost use Rattle.rules.specs.Plan.{taken_plan, decided_by};
ghost use Rattle.rules.specs.Sides.{turn_reply, numbers_plan};

use crate::decision::refused_plan;
use crate::replies::all_left;
use crate::{Event, Plan, Reply};
use checks::{key_answer, start_answer, timer_answer, update_answer};
use effects::{idle, scheduled, stop_over_0, ticked};
use entries::Seen;
use record::{Answer, Device, Hot, access_of, hot_with, taken};
use turns::{
    Order, Orders, Told, Turn, clock_turn, clocked, clocks_of, flag_after, key_set, started, still,
    told_of, updated,
};

#[tactic(auto, unfolding(crate::specs::Sides::turn_reply))]
fn turn_reply(h: Hot, w: u8, orders: Orders, t3512: Told, restart: bool) -> Reply
    ensures { result ≡ turn_reply h w orders t3512 restart }
{
    let own = clocks_of(orders, access_of(h, w));
    let (c0, c1) = if w == 0 {
        (own, all_left())
    } else {
        (all_left(), own)
    };
    Reply {
        answer: Answer::Taken,
        c0,
        c1,
        t3247: Told::Left,
        t3512,
        restart: restart.then_some(w),
        leave: None,
        update: None,
    }
}

// A taken event by its access's turn, with the device's numbers and what becomes of T3512: the other access stays as it is.
// Inlined always: out of line everything goes through memory, and a replay takes 2.6 times as long.
#[inline(always)]
fn turned_plan(h: Hot, w: u8, t: Turn, dev: Device, t3512: Order, restart: bool) -> Plan
    ensures { result ≡ taken_plan h w (record { dev = dev; mine = t; theirs = still (other_of h w); t3247 = Leave; t3512 = t3512; work = idle; restart = restart }) }
{
    let d = h.dev;
    let after = ticked(d.t3247, flag_after(t3512, d.t3512), dev);
    Plan {
        reply: turn_reply(h, w, t.orders, told_of(t3512, d.t3512), restart),
        hot: hot_with(after, w, clocked(t.orders, t.access), h),
        work: idle(),
        access: w,
    }
}

// Kept: what may not change: the numbers of an event one by one, as `start_answer` and `update_answer` take them; timers by their numbers, any of which is taken.
#[tactic(auto, unfolding(crate::specs::Plan::decided_by, effects::specs::Effects::start_effect))]
fn start_plan(h: Hot, w: u8, manual: u8, net: u32, code: u32, s: Seen, listed: bool) -> Plan
    ensures { result ≡ decided_by (start_answer h w manual net code s listed) h w (start_effect h w net code) }
{
    let n = start_answer(h, w, manual, net, code, s, listed);
    if !taken(n) {
        return refused_plan(h, w, n);
    }
    let t = started(net, code, access_of(h, w));
    turned_plan(h, w, t, h.dev, Order::Leave, false)
}

#[tactic(auto, unfolding(crate::specs::Plan::decided_by, effects::specs::Effects::update_effect))]
fn update_plan(
    h: Hot,
    w: u8,
    regtype: u8,
    net: u32,
    code: u32,
    uplink: u16,
    sessions: u16,
    s: Seen,
    listed: bool,
) -> Plan
    ensures { result ≡ decided_by (update_answer h w regtype net code uplink sessions s listed) h w (update_effect h w regtype net code uplink sessions) }
{
    let n = update_answer(h, w, regtype, net, code, uplink, sessions, s, listed);
    if !taken(n) {
        return refused_plan(h, w, n);
    }
    let t = updated(regtype, net, code, uplink, sessions, access_of(h, w));
    turned_plan(h, w, t, h.dev, stop_over_0(w), false)
}

#[tactic(auto, unfolding(crate::specs::Plan::decided_by, effects::specs::Effects::key_effect))]
fn key_plan(h: Hot, w: u8, set: u8) -> Plan
    ensures { result ≡ decided_by (key_answer h w set) h w (key_effect h w set) }
{
    let n = key_answer(h, w, set);
    if !taken(n) {
        return refused_plan(h, w, n);
    }
    turned_plan(
        h,
        w,
        key_set(set, access_of(h, w)),
        h.dev,
        Order::Leave,
        false,
    )
}

// T3247 has work on the arrays, and is refused here. Every timer of an access but T3510 asks for a restart.
#[tactic(auto, unfolding(crate::specs::Sides::numbers_plan, crate::specs::Sides::has_work, crate::specs::Plan::plan_of, crate::specs::Plan::answer_of, crate::specs::Plan::effect_of, crate::specs::Plan::access_in, crate::specs::Plan::decided_by, effects::specs::Effects::timer_effect, effects::specs::Effects::device_effect, effects::specs::Effects::t3512_effect, effects::specs::Effects::clock_effect, turns::specs::Timers::is_device_timer))]
fn timer_plan(h: Hot, number: u8, w: u8, s: Seen, listed: bool) -> Plan
    ensures { result ≡ numbers_plan h (Timer number w) s listed }
{
    if number == 4 {
        return refused_plan(h, 0, Answer::Range);
    }
    let n = timer_answer(h, number, w);
    if !taken(n) {
        return refused_plan(h, w, n);
    }
    let a = access_of(h, w);
    if number == 5 {
        let dev = scheduled(h.dev.t3512length, 1, h.dev);
        turned_plan(h, w, still(a), dev, Order::Stop, false)
    } else {
        turned_plan(
            h,
            w,
            clock_turn(number, a),
            h.dev,
            Order::Leave,
            number != 1,
        )
    }
}

// An event that has no work on the arrays.
#[tactic(auto, unfolding(crate::specs::Sides::numbers_plan, crate::specs::Sides::has_work, crate::specs::Plan::plan_of, crate::specs::Plan::answer_of, crate::specs::Plan::effect_of, crate::specs::Plan::access_in, crate::specs::Plan::decided_by, record::specs::Answers::is_taken))]
pub fn numbers_plan(h: Hot, e: Event, s: Seen, listed: bool) -> Plan
    ensures { result ≡ numbers_plan h e s listed }
{
    match e {
        Event::Start {
            access,
            manual,
            net,
            code,
        } => start_plan(h, access, manual, net, code, s, listed),
        Event::Timer { number, access } => timer_plan(h, number, access, s, listed),
        Event::Key { access, set } => key_plan(h, access, set),
        Event::Update {
            access,
            regtype,
            net,
            code,
            uplink,
            sessions,
        } => update_plan(h, access, regtype, net, code, uplink, sessions, s, listed),
        _ => refused_plan(h, 0, Answer::Range),
    }
}
