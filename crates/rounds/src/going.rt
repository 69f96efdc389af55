// A round over the record and the table lent, which it does not test.
ghost use Rattle.std.specs.Prelude.{◌≤◌, ◌<◌, ◌*◌, ◌≡◌, length};
ghost use Rattle.rounds.specs.Round.{timer_out};
ghost use Rattle.rounds.specs.Going.{gone_by, gone_of};

use crate::words::lay_ran;
use deadlines::Table;
use record::Record;
use rules::Event;

// The timers of the slots, each by its number and its access.
const TIMERS: [(u8, u8); 10] = [
    (1, 0),
    (1, 1),
    (2, 0),
    (2, 1),
    (3, 0),
    (3, 1),
    (6, 0),
    (6, 1),
    (5, 0),
    (4, 0),
];

#[tactic(auto, unfolding(crate::specs::Round::timer_out))]
fn timer_out(at: usize) -> Event
    requires { at < 10 }
    ensures { result ≡ timer_out at }
{
    let (number, access) = TIMERS[at];
    Event::Timer { number, access }
}

// At most so many timers.
pub(crate) fn go(r: &mut Record, t: &mut Table, most: usize, time: u32, words: &mut [u32]) -> usize
    requires few { most ≤ 10 }
    requires room { most * 28 ≤ length words.old }
    ensures words_after { gone_by r.new t.new result words.new ≡ gone_of most time r.old t.old 0 words.old }
    ensures count_bound { result ≤ 10 }
{
    for count in 0..most {
        let Some(at) = t.ask(time) else {
            return count;
        };
        let reply = events::core(r, timer_out(at), &[]);
        t.arm(reply.c0, reply.c1, reply.t3512, reply.t3247, time);
        lay_ran(words, count * 28, at as u32, reply);
    }
    most
}
