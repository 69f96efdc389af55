// A timer's slot and its event's reply as numbers, laid into a lent list.
ghost use Rattle.std.specs.Prelude.{◌+◌, ◌≤◌, ◌≡◌, length};
ghost use Rattle.rounds.specs.Words.{timer_words, clocks_words, asked_word, ran_words, laid};

use rules::Reply;
use turns::{Clocks, Told};

// Kept: a list and a place in it: the C interface lends it, and each number is stored where it stays.
fn lay(words: &mut [u32], at: usize, part: &[u32])
    requires { at + length part.now ≤ length words.old }
    ensures { words.new ≡ laid at part.now words.old }
{
    words[at..at + part.len()].copy_from_slice(part);
}

#[tactic(auto, unfolding(crate::specs::Words::told_number, crate::specs::Words::told_seconds))]
fn timer_words(t: Told) -> [u32; 2]
    ensures { result ≡ timer_words t }
{
    match t {
        Told::Left => [0, 0],
        Told::Stopped => [1, 0],
        Told::Started(seconds) => [2, seconds],
    }
}

fn lay_clocks(words: &mut [u32], at: usize, c: Clocks)
    requires { at + 8 ≤ length words.old }
    ensures { words.new ≡ laid at (clocks_words c) words.old }
{
    lay(words, at, &timer_words(c.t3510));
    lay(words, at + 2, &timer_words(c.t3511));
    lay(words, at + 4, &timer_words(c.t3502));
    lay(words, at + 6, &timer_words(c.t3346));
}

// A request as a number: 0 for none, else 1 plus the access.
#[tactic(auto, unfolding(crate::specs::Words::asked_word))]
pub fn asked_word(a: Option<u8>) -> u32
    ensures { result ≡ asked_word a }
{
    a.map_or(0, |access| 1 + u32::from(access))
}

// At the end 1: a timer that runs out changes the record (proofs/Changed).
pub(crate) fn lay_ran(words: &mut [u32], at: usize, slot: u32, p: Reply)
    requires { at + 28 ≤ length words.old }
    ensures { words.new ≡ laid at (ran_words (record { at = slot; reply = p })) words.old }
{
    lay(words, at, &[slot, 0, 0, 0]);
    lay_clocks(words, at + 4, p.c0);
    lay_clocks(words, at + 12, p.c1);
    lay(words, at + 20, &timer_words(p.t3247));
    lay(words, at + 22, &timer_words(p.t3512));
    let requests = [
        asked_word(p.restart),
        asked_word(p.leave),
        asked_word(p.update),
    ];
    lay(words, at + 24, &requests);
    lay(words, at + 27, &[1]);
}
