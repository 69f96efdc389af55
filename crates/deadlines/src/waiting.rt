// For how long nobody has to ask.
ghost use Rattle.std.specs.Prelude.{◌≡◌};
ghost use Rattle.deadlines.specs.Clock.{since};
ghost use Rattle.deadlines.specs.Waiting.{left_in, spare_in, wait_of};

use crate::{Slot, Table};

impl Slot {
    #[tactic(auto, unfolding(crate::specs::Waiting::left_in, crate::specs::Clock::since))]
    fn left(self, time: u32) -> u32
        ensures { result ≡ left_in time self }
    {
        if self.is_past(time) {
            0
        } else {
            self.ends.wrapping_sub(time)
        }
    }

    #[tactic(auto, unfolding(crate::specs::Waiting::spare_in))]
    fn spare(self, time: u32) -> u32
        ensures { result ≡ spare_in time self }
    {
        if self.held == 0 {
            600000
        } else {
            self.left(time)
        }
    }
}

impl Table {
    // The milliseconds until the first lap ends, 600 s at most: by then a round has to start.
    #[tactic(auto, unfolding(crate::specs::Waiting::wait_to, crate::specs::Waiting::lesser))]
    pub fn wait(&self, time: u32) -> u32
        ensures { result ≡ wait_of time self.now }
    {
        let mut w: u32 = 600000;
        for i in 0..10 {
            w = w.min(self.slot(i).spare(time));
        }
        w
    }
}
