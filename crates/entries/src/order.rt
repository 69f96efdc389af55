// The order of the entries by their to_end marking, and who gives up its place to a seventeenth network.
ghost use Rattle.std.specs.Prelude.{◌≡◌, cond, false, ltb, eqb};
ghost use Rattle.laws.specs.Upto.{upto};
ghost use Rattle.entries.specs.Places.{entries_held};
ghost use Rattle.entries.specs.Entries.{ranks_after, with_ranks};
ghost use Rattle.entries.specs.Order.{fallen, last_at, rank_at, leaver_to};

use crate::{Deed, Entries, put, size};

#[tactic(auto, unfolding(crate::specs::Order::fallen))]
fn fall(r: u8, rank: u8) -> u8
    ensures { result ≡ fallen r rank }
{
    if r < rank { rank - 1 } else { rank }
}

// All sixteen, though behind the count nothing is looked at: a fixed number of steps is faster.
fn close_up(r: u8, ranks: &mut [u8; 16])
    ensures { ranks.new ≡ upto (λ x. fallen r) 16 ranks.old ranks.old }
{
    for i in 0..16 {
        ranks[i] = fall(r, ranks[i]);
    }
}

// A place in use is left by its rank and comes last; a free one is one more.
#[tactic(auto, unfolding(crate::specs::Order::last_at))]
fn to_end(at: usize, count: u8, ranks: &mut [u8; 16])
    ensures { ranks.new ≡ last_at at (entries_held count) ranks.old }
{
    let n = size(count);
    if at < n {
        close_up(ranks[at], ranks);
        put(ranks, at, (n - 1) as u8);
    } else {
        put(ranks, at, n as u8);
    }
}

pub fn last_when(when: bool, at: usize, count: u8, ranks: &mut [u8; 16])
    ensures { ranks.new ≡ cond when (last_at at (entries_held count) ranks.old) ranks.old }
{
    if when {
        to_end(at, count, ranks);
    }
}

#[tactic(auto, unfolding(crate::specs::Order::rank_at))]
fn rank_at(ranks: &[u8; 16], at: usize) -> u8
    ensures { result ≡ rank_at ranks.now at }
{
    if at < 16 { ranks[at] } else { 16 }
}

fn goes(forbidden: u8, barred: u8, rank: u8, lowest: u8) -> bool
    ensures { result ≡ cond (cond (eqb forbidden 0) (eqb barred 0) false) (ltb rank lowest) false }
{
    forbidden == 0 && barred == 0 && rank < lowest
}

impl Entries {
    // Kept: what may not change: sixteen, where all have a mark: it is the place of a network that finds none (`leaver_to`, `place_for`).
    #[tactic(auto, unfolding(crate::specs::Order::leaver_to))]
    pub fn leaver(&self) -> usize
        ensures { result ≡ leaver_to 16 self.now.forbidden self.now.barred self.now.ranks }
    {
        let mut at = 16;
        for i in 0..16 {
            let lowest = rank_at(&self.ranks, at);
            if goes(self.forbidden[i], self.barred[i], self.ranks[i], lowest) {
                at = i;
            }
        }
        at
    }

    // An import's own order comes with its file.
    #[tactic(auto, unfolding(crate::specs::Entries::ranks_after))]
    pub fn reorder(&mut self, k: Deed, count: u8)
        ensures { self.new ≡ with_ranks (ranks_after k count self.old.ranks) self.old }
    {
        match k {
            Deed::Ban(s) | Deed::Bar(s) => to_end(s.at, count, &mut self.ranks),
            Deed::Fresh => self.ranks = [0; 16],
            _ => {}
        }
    }
}
