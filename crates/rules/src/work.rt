// What an event that may have work on the arrays comes to, as `plan_of`, for the replay: without the events that change numbers alone, which have their own way there.
// Kept: tried and slower (R-10): answers and effects of its own beside `plan_of`: a replay through `plan_of` took 4 percent more instructions (832 for 802 an event of a lab-like log).
ghost use Rattle.std.specs.Prelude.{◌≡◌, true, false, cond};
ghost use Rattle.record.specs.declared.Answer.TheVariants as answer;
ghost use Rattle.record.specs.Answers.{is_taken};
ghost use Rattle.checks.specs.Answers.{timer_answer};
ghost use Rattle.effects.specs.Effects.{sides_of};
ghost use Rattle.rules.specs.Plan as rules;
ghost use Rattle.rules.specs.Sides.{is_importing, has_work, work_plan};

use crate::decision::{access_in, heard, imported, message_effect, none, refused_plan, taken_plan};
use crate::{Event, Plan};
use checks::{card_answer, import_answer, message_answer};
use effects::{Sides, card_effect, import_effect, power_effect, t3247_effect};
use entries::Seen;
use messages::Message;
use octets::Malformed;
use record::{Answer, Hot, taken};

// Of the timers T3247 alone has work on the arrays.
#[tactic(auto, unfolding(crate::specs::Sides::has_work))]
pub fn has_work(e: Event) -> bool
    ensures { result ≡ has_work e }
{
    match e {
        Event::Card { .. } | Event::Message { .. } | Event::Power | Event::Import => true,
        Event::Timer { number, .. } => number == 4,
        _ => false,
    }
}

#[tactic(auto, unfolding(checks::specs::Answers::timer_answer, checks::specs::Answers::timer_range, checks::specs::Answers::runs, turns::specs::Timers::is_device_timer, turns::specs::Timers::runs_in))]
fn t3247_answer(h: Hot, w: u8) -> Answer
    ensures { result ≡ timer_answer h 4 w }
{
    if w != 0 {
        Answer::Range
    } else if h.dev.t3247 == 0 {
        Answer::Idle
    } else {
        Answer::Taken
    }
}

// An event without work is refused.
#[tactic(auto, unfolding(crate::specs::Plan::answer_of, crate::specs::Sides::has_work))]
fn work_answer(h: Hot, e: Event, s: Seen, m: Result<Message, Malformed>, octets: &[u8]) -> Answer
    requires { rules.Read e octets.now m }
    ensures { result ≡ cond (has_work e) (rules.answer_of h e s false octets.now) answer.Range }
{
    match e {
        Event::Card { edition, home } => card_answer(edition, home, octets),
        Event::Message {
            access,
            protected,
            draws,
        } => message_answer(h, access, protected, draws, m, s),
        Event::Timer { number: 4, access } => t3247_answer(h, access),
        Event::Power => Answer::Taken,
        Event::Import => import_answer(s),
        _ => Answer::Range,
    }
}

// What an import does beside is `import_effect`'s. A card that was taken has a SUCI of at most 64 octets.
#[tactic(auto, unfolding(crate::specs::Plan::effect_of, crate::specs::Plan::access_in, crate::specs::Sides::is_importing, crate::specs::Sides::has_work, effects::specs::Effects::timer_effect, effects::specs::Effects::device_effect, turns::specs::Timers::is_device_timer))]
fn work_effect(h: Hot, e: Event, s: Seen, m: Result<Message, Malformed>, octets: &[u8]) -> Sides
    requires fits { rules.Fits e s.at octets.now }
    requires read { rules.Read e octets.now m }
    ensures { has_work e ≡ true → result ≡ sides_of (rules.access_in e) (cond (is_importing e) (rules.effect_of h Event.Unknown s octets.now) (rules.effect_of h e s octets.now)) }
{
    match e {
        Event::Card { edition, home } => card_effect(h, edition, home, octets.len() as u8),
        Event::Message {
            access,
            protected,
            draws,
        } => message_effect(h, access, protected, draws, m, s),
        Event::Timer { access, .. } => t3247_effect(h, access),
        Event::Power => power_effect(h),
        _ => none(h, 0),
    }
}

fn worked_by(
    n: Answer,
    h: Hot,
    e: Event,
    s: Seen,
    m: Result<Message, Malformed>,
    octets: &[u8],
) -> Plan
    requires fits { is_taken n ≡ true → rules.Fits e s.at octets.now }
    requires read { rules.Read e octets.now m }
    ensures value { has_work e ≡ true → result ≡ rules.decided_by n h (rules.access_in e) (rules.effect_of h e s octets.now) }
    ensures value_2 { is_taken n ≡ false → result ≡ rules.refused_plan h (rules.access_in e) n }
{
    let w = access_in(e);
    if taken(n) {
        let x = work_effect(h, e, s, m, octets);
        return taken_plan(h, w, import_effect(imported(e, s), x));
    }
    refused_plan(h, w, n)
}

// No area is looked up for such an event.
pub fn work_plan(h: Hot, e: Event, s: Seen, octets: &[u8]) -> Plan
    ensures { result ≡ work_plan h e s octets.now }
{
    let m = heard(e, octets);
    let n = work_answer(h, e, s, m, octets);
    worked_by(n, h, e, s, m, octets)
}
