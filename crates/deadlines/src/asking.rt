// The ten slots of a table, and whom an ask names.
ghost use Rattle.std.specs.Prelude.{◌≡◌, ◌<◌, IfSome};
ghost use Rattle.deadlines.specs.Asking.{slot_at, put_at, roll_to, better, best_to, named_by, asked, after_ask};

use crate::{Best, Slot, Table};

impl Best {
    #[tactic(auto, unfolding(crate::specs::Asking::better))]
    fn or(self, at: usize, most: u64) -> Self
        ensures { result ≡ better self at most }
    {
        if self.most < most {
            Best { at, most }
        } else {
            self
        }
    }

    fn name(self) -> Option<usize>
        ensures { result ≡ named_by self }
    {
        if self.most == 0 { None } else { Some(self.at) }
    }
}

impl Table {
    pub(crate) fn slot(&self, at: usize) -> Slot
        requires { at < 10 }
        ensures { result ≡ slot_at self.now at }
    {
        Slot {
            held: self.held[at],
            ends: self.ends[at],
            rests: self.rests[at],
        }
    }

    #[tactic(auto, unfolding(crate::specs::Asking::put_at))]
    pub(crate) fn put(&mut self, at: usize, s: Slot)
        requires { at < 10 }
        ensures { self.new ≡ put_at self.old at s }
    {
        self.held[at] = s.held;
        self.ends[at] = s.ends;
        self.rests[at] = s.rests;
    }

    // Laps that are over give way to the next.
    #[tactic(auto, unfolding(crate::specs::Asking::roll_to))]
    fn roll_all(&mut self, time: u32)
        ensures { self.new ≡ roll_to time 10 self.old }
    {
        for i in 0..10 {
            let s = self.slot(i);
            self.put(i, s.roll_on(time));
        }
    }

    #[tactic(auto, unfolding(crate::specs::Asking::best_to))]
    fn furthest(&self, time: u32) -> Best
        ensures { result ≡ best_to time 10 self.now }
    {
        let mut best = Best { at: 10, most: 0 };
        for i in 0..10 {
            best = best.or(i, self.slot(i).weigh(time));
        }
        best
    }

    // The slot of the timer furthest past its deadline, or none. It goes on being due until it is stopped or started anew.
    #[tactic(auto, unfolding(crate::specs::Asking::asked, crate::specs::Asking::after_ask))]
    pub fn ask(&mut self, time: u32) -> Option<usize>
        ensures value { result ≡ asked time self.old }
        ensures rests_after { self.new ≡ after_ask time self.old }
        ensures within { IfSome result (λ at. at < 10) }
    {
        self.roll_all(time);
        self.furthest(time).name()
    }
}
