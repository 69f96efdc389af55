// The calls of the clock, with a table of deadlines beside the record.
ghost use Rattle.std.specs.Prelude.{◌≡◌, length};
ghost use Rattle.deadlines.specs.Waiting.{wait_of};
ghost use Rattle.rounds.specs.Round.{words_after};
ghost use Rattle.firmware.specs.Clock.{armed_by, sought_in, passed_of};

use crate::Notice;
use crate::calls::counted;
use deadlines::Table;
use record::Record;
use turns::{Clocks, Told};

// Each timer that the notice tells of gets its deadline, or loses it.
#[tactic(auto, unfolding(crate::specs::Clock::armed_by, crate::specs::Clock::tolds_from))]
pub fn tjernfaug_arm(t: &mut Table, time: u32, notice: &Notice) -> u32
    ensures { (result ≡ (armed_by t.old time notice.now).answer) × (t.new ≡ (armed_by t.old time notice.now).next) }
{
    if !notice.tells() {
        return 1;
    }
    t.arm(
        Clocks::from(notice.c0),
        Clocks::from(notice.c1),
        Told::from(notice.t3512),
        Told::from(notice.t3247),
        time,
    );
    0
}

// The slot of the timer due, 10 if none is.
#[tactic(auto, unfolding(crate::specs::Clock::sought_in))]
pub fn tjernfaug_ask(t: &mut Table, time: u32) -> u32
    ensures { (result ≡ (sought_in t.old time).slot) × (t.new ≡ (sought_in t.old time).next) }
{
    t.ask(time).unwrap_or(10) as u32
}

// An asking round: the due timers run out one after the other, and each is handed out with its notice.
#[tactic(auto, unfolding(crate::specs::Clock::passed_of, crate::specs::Clock::passed_by))]
pub fn tjernfaug_round(r: &mut Record, t: &mut Table, time: u32, words: &mut [u32]) -> u32
    ensures { (result ≡ (passed_of r.old t.old time (length words.old)).count) × ((r.new ≡ (passed_of r.old t.old time (length words.old)).next) × ((t.new ≡ (passed_of r.old t.old time (length words.old)).table) × (words.new ≡ words_after r.old t.old time words.old))) }
{
    counted(rounds::run(r, t, time, words))
}

// For how many milliseconds firmware may sleep after a round until the next one, 600,000 at most.
pub fn tjernfaug_wait(t: &Table, time: u32) -> u32
    ensures { result ≡ wait_of time t.now }
{
    t.wait(time)
}
