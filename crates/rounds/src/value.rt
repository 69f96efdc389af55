// A round: the record and the table are tested, and then it goes.
ghost use Rattle.std.specs.Prelude.{◌≤◌, ◌≡◌, length, IfOk};
ghost use Rattle.rounds.specs.Round.{round_of, words_after, result_of};

use crate::Rounded;
use crate::going::go;
use deadlines::Table;
use record::{Answer, Record};

// Any record, any table, any time and any list: how many timers ran out, or a refusal, which leaves everything as it was.
pub fn run(r: &mut Record, t: &mut Table, time: u32, words: &mut [u32]) -> Result<usize, Answer>
    ensures value { result ≡ result_of (round_of r.old t.old time (length words.old)) }
    ensures next { r.new ≡ (round_of r.old t.old time (length words.old)).next }
    ensures table_after { t.new ≡ (round_of r.old t.old time (length words.old)).table }
    ensures list_after { words.new ≡ words_after r.old t.old time words.old }
    ensures count_bound { IfOk result (λ count. count ≤ 10) }
{
    if !ranges::fits(r) || !t.fits(r.hot) {
        return Err(Answer::Range);
    }
    if words.len() < 280 {
        return Err(Answer::Short);
    }
    Ok(go(r, t, 10, time, words))
}

// The same by value.
pub fn round(r: Record, t: Table, time: u32, words: &mut [u32]) -> Rounded
    ensures value { (result ≡ round_of r t time (length words.old)) × (words.new ≡ words_after r t time words.old) }
    ensures count_bound { result.count ≤ 10 }
{
    let mut next = r;
    let mut table = t;
    let (answer, count) = match run(&mut next, &mut table, time, words) {
        Ok(count) => (Answer::Taken, count),
        Err(refusal) => (refusal, 0),
    };
    Rounded {
        answer,
        count,
        next,
        table,
    }
}
