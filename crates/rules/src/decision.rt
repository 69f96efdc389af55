// What an event comes to: its answer; if taken its effect, else nothing changed.
ghost use Rattle.std.specs.Prelude.{◌≡◌, true, false, cond, ◌<◌, Some, None};
ghost use Rattle.record.specs.Answers.{is_taken};
ghost use Rattle.turns.specs.Turns as events;
ghost use Rattle.record.specs.Sides.{access_of};
ghost use Rattle.effects.specs.Effects as effects;
ghost use Rattle.rules.specs.Plan as rules;
ghost use Rattle.effects.specs.Effects.{sides_of};
ghost use Rattle.rules.specs.Sides.{is_importing, hot_by, plan_by};

use crate::replies::{refused_reply, taken_reply};
use crate::{Event, Plan};
use checks::{
    card_answer, import_answer, key_answer, message_answer, row_now, start_answer, timer_answer,
    update_answer,
};
use effects::{
    Sides, accept_effect, card_effect, idle, import_effect, key_effect, plain, power_effect,
    reject_effect, start_effect, ticked, timer_effect, update_effect,
};
use entries::Seen;
use messages::Message;
use octets::{Fault, Malformed};
use record::{Answer, Hot, access_of, taken};
use turns::{Draws, clocked, flag_after, still};

// A message is read once, for its answer and its effect; of another event nothing looks at what stands here, the fault of an empty message.
pub(crate) fn heard(e: Event, octets: &[u8]) -> Result<Message, Malformed>
    ensures { rules.Read e octets.now result }
{
    match e {
        Event::Message { .. } => messages::read(octets),
        _ => Err(Malformed {
            fault: Fault::Cut,
            at: 0,
        }),
    }
}

#[tactic(auto, unfolding(crate::specs::Plan::access_in))]
pub(crate) fn access_in(e: Event) -> u8
    ensures { result ≡ rules.access_in e }
{
    match e {
        Event::Start { access, .. }
        | Event::Message { access, .. }
        | Event::Timer { access, .. }
        | Event::Key { access, .. }
        | Event::Update { access, .. } => access,
        _ => 0,
    }
}

#[tactic(auto, unfolding(crate::specs::Plan::answer_of))]
fn answer_of(
    h: Hot,
    e: Event,
    s: Seen,
    listed: bool,
    m: Result<Message, Malformed>,
    octets: &[u8],
) -> Answer
    requires { rules.Read e octets.now m }
    ensures { result ≡ rules.answer_of h e s listed octets.now }
{
    match e {
        Event::Card { edition, home } => card_answer(edition, home, octets),
        Event::Start {
            access,
            manual,
            net,
            code,
        } => start_answer(h, access, manual, net, code, s, listed),
        Event::Message {
            access,
            protected,
            draws,
        } => message_answer(h, access, protected, draws, m, s),
        Event::Timer { number, access } => timer_answer(h, number, access),
        Event::Power => Answer::Taken,
        Event::Key { access, set } => key_answer(h, access, set),
        Event::Update {
            access,
            regtype,
            net,
            code,
            uplink,
            sessions,
        } => update_answer(h, access, regtype, net, code, uplink, sessions, s, listed),
        Event::Import => import_answer(s),
        Event::Unknown => Answer::Range,
    }
}

// An event that changes nothing of its access.
pub(crate) fn none(h: Hot, w: u8) -> Sides
    ensures { result ≡ sides_of w (effects.plain h w (events.still (access_of h w)) false) }
{
    plain(h, w, still(access_of(h, w)), false)
}

#[tactic(auto, unfolding(crate::specs::Plan::message_effect))]
pub(crate) fn message_effect(
    h: Hot,
    w: u8,
    protected: u8,
    draws: Draws,
    m: Result<Message, Malformed>,
    s: Seen,
) -> Sides
    ensures { result ≡ sides_of w (rules.message_effect h w protected draws m s) }
{
    match m {
        Ok(Message::Accept(g)) => accept_effect(h, w, g, s),
        Ok(Message::Reject(g)) => {
            let row = row_now(h, w, protected, g);
            reject_effect(h, w, protected, draws, s, g, row)
        }
        Err(_) => none(h, w),
    }
}

// What an import does beside is `import_effect`'s. A card that was taken has a SUCI of at most 64 octets.
#[tactic(auto, unfolding(crate::specs::Plan::effect_of, crate::specs::Plan::access_in, crate::specs::Sides::is_importing))]
fn effect_of(h: Hot, e: Event, s: Seen, m: Result<Message, Malformed>, octets: &[u8]) -> Sides
    requires fits { rules.Fits e s.at octets.now }
    requires read { rules.Read e octets.now m }
    ensures { result ≡ sides_of (rules.access_in e) (cond (is_importing e) (rules.effect_of h Event.Unknown s octets.now) (rules.effect_of h e s octets.now)) }
{
    match e {
        Event::Card { edition, home } => card_effect(h, edition, home, octets.len() as u8),
        Event::Start {
            access,
            net,
            code,
            ..
        } => start_effect(h, access, net, code),
        Event::Message {
            access,
            protected,
            draws,
        } => message_effect(h, access, protected, draws, m, s),
        Event::Timer { number, access } => timer_effect(h, number, access),
        Event::Power => power_effect(h),
        Event::Key { access, set } => key_effect(h, access, set),
        Event::Update {
            access,
            regtype,
            net,
            code,
            uplink,
            sessions,
        } => update_effect(h, access, regtype, net, code, uplink, sessions),
        Event::Import | Event::Unknown => none(h, 0),
    }
}

#[tactic(auto, unfolding(crate::specs::Sides::hot_by))]
fn hot_after(h: Hot, e: Sides) -> Hot
    ensures { result ≡ hot_by h e }
{
    let t3247 = flag_after(e.t3247, h.dev.t3247);
    let t3512 = flag_after(e.t3512, h.dev.t3512);
    Hot {
        dev: ticked(t3247, t3512, e.dev),
        a0: clocked(e.t0.orders, e.t0.access),
        a1: clocked(e.t1.orders, e.t1.access),
    }
}

#[tactic(auto, unfolding(crate::specs::Sides::plan_by))]
pub(crate) fn taken_plan(h: Hot, w: u8, e: Sides) -> Plan
    ensures { result ≡ plan_by h w e }
{
    Plan {
        reply: taken_reply(h, w, e),
        hot: hot_after(h, e),
        work: e.work,
        access: w,
    }
}

// All but 0 change nothing.
#[tactic(auto, unfolding(crate::specs::Plan::refused_plan))]
pub(crate) fn refused_plan(h: Hot, w: u8, n: Answer) -> Plan
    ensures { result ≡ rules.refused_plan h w n }
{
    Plan {
        reply: refused_reply(n, w),
        hot: h,
        work: idle(),
        access: w,
    }
}

// How many entries access 0 has after an import: one that was taken leaves at most sixteen.
#[tactic(auto, unfolding(crate::specs::Sides::is_importing))]
pub(crate) fn imported(e: Event, s: Seen) -> Option<u8>
    requires { is_importing e ≡ true → s.at < 256 }
    ensures { result ≡ cond (is_importing e) (Some s.at) None }
{
    match e {
        Event::Import => Some(s.at as u8),
        _ => None,
    }
}

fn decided_by(
    n: Answer,
    h: Hot,
    e: Event,
    s: Seen,
    m: Result<Message, Malformed>,
    octets: &[u8],
) -> Plan
    requires fits { is_taken n ≡ true → rules.Fits e s.at octets.now }
    requires read { rules.Read e octets.now m }
    ensures { result ≡ rules.decided_by n h (rules.access_in e) (rules.effect_of h e s octets.now) }
{
    let w = access_in(e);
    if taken(n) {
        let x = effect_of(h, e, s, m, octets);
        return taken_plan(h, w, import_effect(imported(e, s), x));
    }
    refused_plan(h, w, n)
}

pub fn plan_of(h: Hot, e: Event, s: Seen, listed: bool, octets: &[u8]) -> Plan
    ensures { result ≡ rules.plan_of h e s listed octets.now }
{
    let m = heard(e, octets);
    let n = answer_of(h, e, s, listed, m, octets);
    decided_by(n, h, e, s, m, octets)
}
