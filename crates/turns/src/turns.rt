// What a taken event makes of an access: numbers and timers, in document 01's words and order.
ghost use Rattle.std.specs.Prelude.{◌≡◌};
ghost use Rattle.record.specs.New.{u2, u3};
ghost use Rattle.record.specs.Setters as sets;
ghost use Rattle.turns.specs.Timers as timers;
ghost use Rattle.turns.specs.Turns as events;

use crate::given::{
    answered, halted, quiet, resting, retrying, starting, t3346_stops, t3502_stops, t3511_stops,
    waiting,
};
use crate::rows::is_updating;
use crate::{Orders, Row, Turn};
use entries::one_more;
use record::{
    Access, U1, U2, U3, counted, emptied, entered, forgotten, keyed, moved, new_access, pending,
    taught,
};

fn turn_of(access: Access, orders: Orders) -> Turn
    ensures { result ≡ events.turn_of access orders }
{
    Turn { access, orders }
}

// The access that an event leaves alone.
pub fn still(a: Access) -> Turn
    ensures { result ≡ events.still a }
{
    turn_of(a, quiet())
}

#[tactic(auto, unfolding(crate::specs::Turns::started, record::specs::Setters::in_state, record::specs::Setters::with_status, record::specs::Setters::with_attempts, record::specs::Setters::pending))]
pub fn started(net: u32, code: u32, a: Access) -> Turn
    ensures { result ≡ events.started net code a }
{
    turn_of(
        pending(1, net, code, 0, 0, moved(4, a.status, a.attempts, a)),
        starting(),
    )
}

#[tactic(auto, unfolding(crate::specs::Turns::updated, record::specs::Setters::in_state, record::specs::Setters::with_status, record::specs::Setters::with_attempts, record::specs::Setters::pending))]
pub fn updated(regtype: u8, net: u32, code: u32, uplink: u16, sessions: u16, a: Access) -> Turn
    ensures { result ≡ events.updated regtype net code uplink sessions a }
{
    let b = moved(4, a.status, a.attempts, a);
    turn_of(pending(regtype, net, code, uplink, sessions, b), starting())
}

// Stored as ngKSI.
#[tactic(auto, unfolding(crate::specs::Turns::key_set))]
pub fn key_set(set: u8, a: Access) -> Turn
    ensures { result ≡ events.key_set set a }
{
    still(keyed(set, a))
}

#[tactic(auto, unfolding(crate::specs::Turns::accepted))]
pub fn accepted(given: bool, count: u8, t3502length: u16, a: Access) -> Turn
    ensures { result ≡ events.accepted given count t3502length a }
{
    let b = taught(given, count, t3502length, moved(5, U1, 0, a));
    turn_of(b, answered())
}

// Below 5, T3511 starts.
fn again(state: u8, status: u8, n: u8, a: Access) -> Turn
    ensures { result ≡ events.turn_of (sets.with_attempts n (sets.with_status status (sets.in_state state a))) timers.retrying }
{
    turn_of(moved(state, status, n, a), retrying())
}

// At 5, no equivalents, 5U2, and T3502 starts with the stored length.
fn spent(state: u8, n: u8, a: Access) -> Turn
    ensures { result ≡ events.turn_of (sets.emptied (sets.with_attempts n (sets.with_status u2 (sets.in_state state a)))) (timers.resting a.t3502length) }
{
    let b = emptied(moved(state, U2, n, a));
    turn_of(b, resting(u32::from(a.t3502length)))
}

#[tactic(auto, unfolding(crate::specs::Turns::start_failed, record::specs::Setters::in_state, record::specs::Setters::with_status, record::specs::Setters::with_attempts, record::specs::Setters::forgotten, record::specs::Setters::emptied))]
fn start_failed(n: u8, a: Access) -> Turn
    ensures { result ≡ events.start_failed n a }
{
    if n < 5 {
        again(3, a.status, n, a)
    } else {
        spent(3, n, forgotten(a))
    }
}

#[tactic(auto, unfolding(crate::specs::Turns::update_failed, record::specs::Setters::in_state, record::specs::Setters::with_status, record::specs::Setters::with_attempts, record::specs::Setters::emptied))]
fn update_failed(n: u8, a: Access) -> Turn
    ensures { result ≡ events.update_failed n a }
{
    if n < 5 {
        again(5, U2, n, a)
    } else {
        spent(5, n, a)
    }
}

// T3510 out, with the attempt counter now n.
#[tactic(auto, unfolding(crate::specs::Turns::failed))]
fn failed(n: u8, a: Access) -> Turn
    ensures { result ≡ events.failed n a }
{
    if is_updating(a) {
        update_failed(n, a)
    } else {
        start_failed(n, a)
    }
}

#[tactic(auto, unfolding(crate::specs::Turns::t3510_out))]
fn t3510_out(a: Access) -> Turn
    ensures { result ≡ events.t3510_out a }
{
    failed(one_more(5, a.attempts), a)
}

#[tactic(auto, unfolding(crate::specs::Turns::t3511_out))]
fn t3511_out(a: Access) -> Turn
    ensures { result ≡ events.t3511_out a }
{
    turn_of(a, t3511_stops())
}

#[tactic(auto, unfolding(crate::specs::Turns::t3502_out, record::specs::Setters::in_state, record::specs::Setters::with_status, record::specs::Setters::with_attempts))]
fn t3502_out(a: Access) -> Turn
    ensures { result ≡ events.t3502_out a }
{
    turn_of(moved(a.state, a.status, 0, a), t3502_stops())
}

#[tactic(auto, unfolding(crate::specs::Turns::t3346_out))]
fn t3346_out(a: Access) -> Turn
    ensures { result ≡ events.t3346_out a }
{
    turn_of(a, t3346_stops())
}

// A timer of the access out, by its number.
#[tactic(auto, unfolding(crate::specs::Turns::clock_turn))]
pub fn clock_turn(number: u8, a: Access) -> Turn
    ensures { result ≡ events.clock_turn number a }
{
    match number {
        1 => t3510_out(a),
        2 => t3511_out(a),
        3 => t3502_out(a),
        _ => t3346_out(a),
    }
}

// Power cycle.
#[tactic(auto, unfolding(crate::specs::Turns::cycled, record::specs::Setters::in_state, record::specs::Setters::with_status, record::specs::Setters::with_attempts))]
pub fn cycled(card: u8, a: Access) -> Turn
    ensures { result ≡ events.cycled card a }
{
    let state = if card == 0 { 0 } else { 1 };
    turn_of(moved(state, a.status, 0, a), halted())
}

// Card change.
#[tactic(auto, unfolding(crate::specs::Turns::renewed))]
pub fn renewed() -> Turn
    ensures { result ≡ events.renewed }
{
    turn_of(new_access(1), halted())
}

// Every taken reject stops T3510.
fn rejected(a: Access) -> Turn
    ensures { result ≡ events.turn_of a timers.answered }
{
    turn_of(a, answered())
}

// "5U3, clear identity": how the rows with a cause of their own begin.
fn refused(state: u8, attempts: u8, a: Access) -> Access
    ensures { result ≡ sets.forgotten (sets.with_attempts attempts (sets.with_status u3 (sets.in_state state a))) }
{
    forgotten(moved(state, U3, attempts, a))
}

// The receiving access, by its row's text; T3346 runs, where the row says so, for its time.
// Kept: no plainer, what a row goes by one after the other, as `row_turn` of specs/ has it.
#[tactic(auto, unfolding(crate::specs::Turns::row_turn, crate::specs::Turns::turned, crate::specs::Turns::t3510_out, crate::specs::Rejects::row_text, crate::specs::Words::applied, crate::specs::Words::state_after, crate::specs::Words::counter_after, crate::specs::Words::holds, crate::specs::Words::is_mark, crate::specs::Words::orders_after, record::specs::Setters::in_state, record::specs::Setters::with_status, record::specs::Setters::with_attempts, record::specs::Setters::forgotten, record::specs::Setters::emptied, record::specs::Setters::counted, record::specs::Setters::entered))]
pub fn row_turn(row: Row, w: u8, limit: u8, cause: u8, found: bool, time: u32, a: Access) -> Turn
    ensures { result ≡ events.row_turn row w limit cause found time a }
{
    match row {
        Row::CardBelow => {
            let n = one_more(limit, a.cardcounter);
            if w == 0 {
                rejected(emptied(counted(n, refused(2, 0, a))))
            } else {
                rejected(counted(n, refused(2, a.attempts, a)))
            }
        }
        Row::CardLimit => rejected(emptied(refused(0, a.attempts, a))),
        Row::CardProtected => rejected(counted(limit, emptied(refused(0, a.attempts, a)))),
        Row::Away => {
            let state = if w == 0 { 6 } else { 2 };
            rejected(entered(found, emptied(refused(state, 0, a))))
        }
        Row::Home => rejected(emptied(refused(2, 0, a))),
        Row::Area if cause == 13 => rejected(emptied(refused(2, 0, a))),
        Row::Area => rejected(refused(2, 0, a)),
        Row::N1 => rejected(entered(found, refused(2, 0, a))),
        Row::Congested => {
            let state = if is_updating(a) { 5 } else { 3 };
            turn_of(moved(state, U2, 0, a), waiting(time))
        }
        Row::Protocol => failed(5, a),
        Row::Other => t3510_out(a),
    }
}

// The other access's numbers: only a protected 3, 6 or 7 reaches them.
#[tactic(auto, unfolding(crate::specs::Turns::other_turn, crate::specs::Turns::other_turned, crate::specs::Rejects::row_text, crate::specs::Words::across_of))]
pub fn other_turn(row: Row, limit: u8, a: Access) -> Turn
    ensures { result ≡ events.other_turn row limit a }
{
    match row {
        Row::CardProtected => still(counted(limit, a)),
        _ => still(a),
    }
}
