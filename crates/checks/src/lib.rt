// Answers: each event's checks, in document 01's order. The tests are worked out before an answer is chosen, so that few are branches:
// with a test in each arm a replay took 8 percent longer on a lab-like log, and 18 on a wild one.
#![tactic(auto)]

ghost use Rattle.std.specs.Prelude.{◌≡◌, eqb};
ghost use Rattle.laws.specs.Upto.{every};
ghost use Rattle.networks.specs.Networks.{networks_in, unused};
ghost use Rattle.record.specs.Network.{is_network};
ghost use Rattle.record.specs.Tests.{either};
ghost use Rattle.turns.specs.Rejects.{is_ignored};
ghost use Rattle.checks.specs.Answers as rules;

use entries::Seen;
use messages::{Message, Reject, octet};
use networks::{is_unused, network_at};
use octets::Malformed;
use record::{Access, Answer, Hot, access_of, network, other_of};
use turns::{
    Draws, Row, is_card, is_device_timer, is_registered, needs_entry, row_of, runs_in, runs_on,
};

#[tactic(auto, unfolding(crate::specs::Answers::may_start))]
fn may_start(s: u8) -> bool
    ensures { result ≡ rules.may_start s }
{
    matches!(s, 1 | 2 | 3 | 6)
}

#[tactic(auto, unfolding(crate::specs::Answers::is_same))]
fn is_same(other: Access, net: u32) -> bool
    ensures { result ≡ rules.is_same other net }
{
    other.state == 4 && other.net == net
}

#[tactic(auto, unfolding(crate::specs::Answers::is_free))]
fn is_free(manual: u8, s: Seen) -> bool
    ensures { result ≡ rules.is_free manual s }
{
    s.barred == 0 && (s.forbidden == 0 || manual == 1)
}

#[tactic(auto, unfolding(crate::specs::Answers::start_range))]
fn start_range(w: u8, manual: u8, net: u32, code: u32) -> bool
    ensures { result ≡ rules.start_range w manual net code }
{
    w <= 1 && manual <= 1 && network(net) && code < 16777216
}

// 20, 7, 8, 9
#[tactic(auto, unfolding(crate::specs::Answers::place_answer))]
fn place_answer(t3346: u8, other: Access, manual: u8, net: u32, s: Seen, listed: bool) -> Answer
    ensures { result ≡ rules.place_answer t3346 other manual net s listed }
{
    let same = is_same(other, net);
    let free = is_free(manual, s);
    if t3346 != 0 {
        Answer::Waiting
    } else if same {
        Answer::Same
    } else if !free {
        Answer::Listed
    } else if listed {
        Answer::Area
    } else {
        Answer::Taken
    }
}

// Kept: what may not change: `start_answer` and `update_answer` take the numbers of an event one by one, as document 01 and R-5 have them (`start_answer`, `update_answer`).
#[tactic(auto, unfolding(crate::specs::Answers::start_answer))]
pub fn start_answer(h: Hot, w: u8, manual: u8, net: u32, code: u32, s: Seen, listed: bool) -> Answer
    ensures { result ≡ rules.start_answer h w manual net code s listed }
{
    let a = access_of(h, w);
    let range = start_range(w, manual, net, code);
    let may = may_start(a.state);
    let place = place_answer(a.t3346, other_of(h, w), manual, net, s, listed);
    if !range {
        Answer::Range
    } else if a.state == 0 {
        Answer::StateZero
    } else if !may {
        Answer::State
    } else {
        place
    }
}

#[tactic(auto, unfolding(crate::specs::Answers::update_range))]
fn update_range(w: u8, regtype: u8, net: u32, code: u32, uplink: u16, sessions: u16) -> bool
    ensures { result ≡ rules.update_range w regtype net code uplink sessions }
{
    let place = network(net) && code < 16777216;
    w <= 1 && matches!(regtype, 2 | 3) && place && uplink % 2 == 0 && sessions % 2 == 0
}

#[tactic(auto, unfolding(crate::specs::Answers::may_update))]
fn may_update(h: Hot, w: u8, regtype: u8) -> bool
    ensures { result ≡ rules.may_update h w regtype }
{
    let due = w == 0 && h.dev.due == 1;
    access_of(h, w).state == 5 && (regtype == 2 || due)
}

#[tactic(auto, unfolding(crate::specs::Answers::update_answer))]
pub fn update_answer(
    h: Hot,
    w: u8,
    regtype: u8,
    net: u32,
    code: u32,
    uplink: u16,
    sessions: u16,
    s: Seen,
    listed: bool,
) -> Answer
    ensures { result ≡ rules.update_answer h w regtype net code uplink sessions s listed }
{
    let a = access_of(h, w);
    let range = update_range(w, regtype, net, code, uplink, sessions);
    let may = may_update(h, w, regtype);
    let place = place_answer(a.t3346, other_of(h, w), 0, net, s, listed);
    if !range {
        Answer::Range
    } else if !may {
        Answer::State
    } else {
        place
    }
}

#[tactic(auto, unfolding(crate::specs::Answers::row_now))]
pub fn row_now(h: Hot, w: u8, protected: u8, g: Reject) -> Row
    ensures { result ≡ rules.row_now h w protected g }
{
    let a = access_of(h, w);
    row_of(
        w,
        protected == 0,
        a.net == h.dev.home,
        a.cardcounter < h.dev.cardlimit,
        g.t3346length > 0,
        g.cause,
    )
}

#[tactic(auto, unfolding(turns::specs::Rejects::is_ignored))]
fn is_ignored(protected: u8, cause: u8, other: Access) -> bool
    ensures { result ≡ is_ignored protected cause other }
{
    is_card(cause) && protected == 0 && is_registered(other)
}

#[tactic(auto, unfolding(crate::specs::Answers::is_full))]
fn is_full(row: Row, s: Seen) -> bool
    ensures { result ≡ rules.is_full row s }
{
    needs_entry(row) && s.at >= 16
}

#[tactic(auto, unfolding(crate::specs::Answers::reject_answer))]
fn reject_answer(h: Hot, w: u8, protected: u8, g: Reject, s: Seen) -> Answer
    ensures { result ≡ rules.reject_answer h w protected g s }
{
    let ignored = is_ignored(protected, g.cause, other_of(h, w));
    let full = is_full(row_now(h, w, protected, g), s);
    if ignored {
        Answer::Ignored
    } else if full {
        Answer::Full
    } else {
        Answer::Taken
    }
}

#[tactic(auto, unfolding(crate::specs::Answers::read_answer))]
fn read_answer(h: Hot, w: u8, protected: u8, m: Result<Message, Malformed>, s: Seen) -> Answer
    ensures { result ≡ rules.read_answer h w protected m s }
{
    match m {
        Ok(Message::Accept(_)) if protected == 0 => Answer::Unprotected,
        Ok(Message::Accept(_)) => Answer::Taken,
        Ok(Message::Reject(g)) => reject_answer(h, w, protected, g, s),
        Err(m) => Answer::Malformed(m.fault, m.at),
    }
}

#[tactic(auto, unfolding(crate::specs::Answers::message_range))]
fn message_range(w: u8, protected: u8, draws: Draws) -> bool
    ensures { result ≡ rules.message_range w protected draws }
{
    w <= 1
        && protected <= 1
        && (1800..=3600).contains(&draws.t3247)
        && (900..=1800).contains(&draws.t3346)
}

#[tactic(auto, unfolding(crate::specs::Answers::message_answer))]
pub fn message_answer(
    h: Hot,
    w: u8,
    protected: u8,
    draws: Draws,
    m: Result<Message, Malformed>,
    s: Seen,
) -> Answer
    ensures { result ≡ rules.message_answer h w protected draws m s }
{
    let range = message_range(w, protected, draws);
    let read = read_answer(h, w, protected, m, s);
    if !range {
        Answer::Range
    } else if access_of(h, w).state != 4 {
        Answer::State
    } else {
        read
    }
}

#[tactic(auto, unfolding(crate::specs::Answers::timer_range))]
fn timer_range(number: u8, w: u8) -> bool
    ensures { result ≡ rules.timer_range number w }
{
    (1..=6).contains(&number) && w <= 1 && (w == 0 || !is_device_timer(number))
}

#[tactic(auto, unfolding(crate::specs::Answers::runs))]
fn runs(h: Hot, number: u8, w: u8) -> u8
    ensures { result ≡ rules.runs h number w }
{
    let device = runs_in(number, h.dev);
    let own = runs_on(number, access_of(h, w));
    if is_device_timer(number) { device } else { own }
}

#[tactic(auto, unfolding(crate::specs::Answers::timer_answer))]
pub fn timer_answer(h: Hot, number: u8, w: u8) -> Answer
    ensures { result ≡ rules.timer_answer h number w }
{
    let range = timer_range(number, w);
    let running = runs(h, number, w);
    if !range {
        Answer::Range
    } else if running == 0 {
        Answer::Idle
    } else {
        Answer::Taken
    }
}

#[tactic(auto, unfolding(crate::specs::Answers::key_answer))]
pub fn key_answer(h: Hot, w: u8, set: u8) -> Answer
    ensures { result ≡ rules.key_answer h w set }
{
    if w > 1 || set > 6 {
        Answer::Range
    } else if access_of(h, w).state != 4 {
        Answer::State
    } else {
        Answer::Taken
    }
}

#[tactic(auto, unfolding(crate::specs::Answers::card_answer))]
pub fn card_answer(edition: u8, home: u32, suci: &[u8]) -> Answer
    ensures { result ≡ rules.card_answer edition home suci.now }
{
    let whole = (9..=64).contains(&suci.len()) && octet(suci, 0) == 1;
    if (1..=3).contains(&edition) && network(home) && whole {
        Answer::Taken
    } else {
        Answer::Range
    }
}

fn is_code(net: u32) -> bool
    ensures { result ≡ either (eqb net unused) (is_network net) }
{
    is_unused(net) || network(net)
}

// Each place of a file is unused or a network code.
fn codes(file: &[u8]) -> bool
    ensures { result ≡ every is_network (networks_in file.now) }
{
    for i in 0..file.len() / 3 {
        if !is_code(network_at(file, 3 * i)) {
            return false;
        }
    }
    true
}

#[tactic(auto, unfolding(crate::specs::Answers::import_range))]
pub fn import_range(file: &[u8]) -> bool
    ensures { result ≡ rules.import_range file.now }
{
    file.len() % 3 == 0 && codes(file)
}

#[tactic(auto, unfolding(crate::specs::Answers::import_answer))]
pub fn import_answer(s: Seen) -> Answer
    ensures { result ≡ rules.import_answer s }
{
    if !s.found {
        Answer::Range
    } else if s.at > 16 {
        Answer::Full
    } else {
        Answer::Taken
    }
}
