// The core: what is looked up is decided on, and the plan is carried out on the record, which is lent. It does not test the record.
ghost use Rattle.std.specs.Prelude.{◌≡◌, true, false, List, ℕ};
ghost use Rattle.entries.specs.Entries.{entries_after};
ghost use Rattle.rules.specs.Sides.{has_work};
ghost use Rattle.events.specs.Parts.{with_counts, planned_of, carried_out};
ghost use Rattle.events.specs.Step.{with_hot, joined_of, advance_of, step_of};

use crate::Advanced;
use crate::held::keep;
use crate::seeing::{listing, marks, see};
use entries::{Deed, Entries};
use record::{Answer, Device, Hot, Record};
use rules::{Event, Plan, Reply};

// The numbers with the area lists' counts.
#[tactic(auto, unfolding(crate::specs::Parts::with_counts))]
pub fn counted(roaming: u8, regional: u8, h: Hot) -> Hot
    ensures { result ≡ with_counts roaming regional h }
{
    let mut h = h;
    h.dev.roaming = roaming;
    h.dev.regional = regional;
    h
}

// Most events do nothing to an access's entries: then nothing is called.
#[inline(always)]
fn tended(e: &mut Entries, k: Deed, octets: &[u8], count: u8, d: Device)
    ensures { e.new ≡ entries_after k octets.now count d.banlimit d.n1limit e.old }
{
    match k {
        Deed::Nothing => {}
        _ => e.after(k, octets, count, d.banlimit, d.n1limit),
    }
}

// What is planned, on each access's entries, each list and what is kept; the numbers are handed back.
fn carry_out(h: Hot, r: &mut Record, p: Plan, octets: &[u8]) -> Hot
    ensures hot { result ≡ (joined_of (with_hot h r.old) octets.now (carried_out p octets.now h r.old.e0 r.old.e1 r.old.roaming r.old.regional)).next.hot }
    ensures rest { r.new ≡ with_hot r.old.hot (joined_of (with_hot h r.old) octets.now (carried_out p octets.now h r.old.e0 r.old.e1 r.old.roaming r.old.regional)).next }
{
    let work = p.work;
    let first = rules::deed_on(p.access, work.mine, work.theirs, 0);
    let second = rules::deed_on(p.access, work.mine, work.theirs, 1);
    tended(&mut r.e0, first, octets, h.a0.entries, h.dev);
    tended(&mut r.e1, second, octets, h.a1.entries, h.dev);
    let roaming = areas::tend(work.roaming, h.dev.roaming, &mut r.roaming);
    let regional = areas::tend(work.regional, h.dev.regional, &mut r.regional);
    keep(r, p, octets);
    counted(roaming, regional, p.hot)
}

pub fn core(r: &mut Record, e: Event, octets: &[u8]) -> Reply
    ensures reply { result ≡ (advance_of r.old e octets.now).reply }
    ensures next { r.new ≡ (advance_of r.old e octets.now).next }
{
    let h = r.hot;
    let s = see(h, r, rules::ask_of(h, e), octets);
    let listed = listing(h, r, rules::site_of(e));
    let p = rules::plan_of(h, e, s, listed, octets);
    r.hot = carry_out(h, r, p, octets);
    p.reply
}

// An event without work looks up marks and areas, and the plan is all.
fn numbers(h: Hot, r: &Record, e: Event) -> Plan
    ensures { has_work e ≡ false → (octets : List ℕ) → result ≡ planned_of h e octets r.now.e0 r.now.e1 r.now.roaming r.now.regional }
{
    let s = marks(h, r, rules::ask_of(h, e));
    let listed = listing(h, r, rules::site_of(e));
    rules::numbers_plan(h, e, s, listed)
}

// An event that may have work: no area is looked up, and its plan is carried out.
fn worked(h: Hot, r: &mut Record, e: Event, octets: &[u8]) -> Advanced
    ensures reply { has_work e ≡ true → result.reply ≡ (advance_of (with_hot h r.old) e octets.now).reply }
    ensures hot { has_work e ≡ true → result.hot ≡ (advance_of (with_hot h r.old) e octets.now).next.hot }
    ensures rest { has_work e ≡ true → r.new ≡ with_hot r.old.hot (advance_of (with_hot h r.old) e octets.now).next }
{
    let s = see(h, r, rules::ask_of(h, e), octets);
    let p = rules::work_plan(h, e, s, octets);
    let hot = carry_out(h, r, p, octets);
    Advanced {
        reply: p.reply,
        hot,
    }
}

// The core as the replay runs it, in two ways: an event that changes numbers alone is told apart first. It promises what the core does, and is faster; the core has less code and takes less stack.
// The numbers go and come by value, and those in the record are passed over: so they need not be stored for each event.
pub fn swift(h: Hot, r: &mut Record, e: Event, octets: &[u8]) -> Advanced
    ensures reply { result.reply ≡ (advance_of (with_hot h r.old) e octets.now).reply }
    ensures hot { result.hot ≡ (advance_of (with_hot h r.old) e octets.now).next.hot }
    ensures rest { r.new ≡ with_hot r.old.hot (advance_of (with_hot h r.old) e octets.now).next }
{
    if rules::has_work(e) {
        return worked(h, r, e, octets);
    }
    let p = numbers(h, r, e);
    Advanced {
        reply: p.reply,
        hot: p.hot,
    }
}

// Any record, any event, any octets. One that is not valid is answered 1 and stays as it is.
#[tactic(auto, unfolding(crate::specs::Step::step_of))]
pub fn handle(r: &mut Record, e: Event, octets: &[u8]) -> Reply
    ensures reply { result ≡ (step_of r.old e octets.now).reply }
    ensures next { r.new ≡ (step_of r.old e octets.now).next }
{
    if !ranges::fits(r) {
        return rules::refused_reply(Answer::Range, 0);
    }
    core(r, e, octets)
}
