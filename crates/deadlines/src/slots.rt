// One timer's slot.
ghost use Rattle.std.specs.Prelude.{◌≡◌};
ghost use Rattle.deadlines.specs.Clock.{since, past};
ghost use Rattle.deadlines.specs.Slots.{started, stopped, ended, roll, rolled, due, weight};

use crate::Slot;

// No lap is longer than 2^31 - 1 milliseconds.
const LAP: u64 = 2147483647;

impl Slot {
    #[tactic(auto, unfolding(crate::specs::Slots::started, crate::specs::Clock::lap_of))]
    pub(crate) fn start(time: u32, length: u64) -> Self
        ensures { result ≡ started time length }
    {
        let first = length.min(LAP);
        Slot {
            held: 1,
            ends: time.wrapping_add(first as u32),
            rests: length - first,
        }
    }

    pub(crate) fn stop() -> Self
        ensures { result ≡ stopped }
    {
        Slot {
            held: 0,
            ends: 0,
            rests: 0,
        }
    }

    #[tactic(auto, unfolding(crate::specs::Clock::since))]
    pub(crate) fn late(self, time: u32) -> u32
        ensures { result ≡ since time self.ends }
    {
        time.wrapping_sub(self.ends)
    }

    #[tactic(auto, unfolding(crate::specs::Clock::past))]
    pub(crate) fn is_past(self, time: u32) -> bool
        ensures { result ≡ past time self.ends }
    {
        self.late(time) < 2147483648
    }

    #[tactic(auto, unfolding(crate::specs::Slots::ended))]
    fn lap_over(self, time: u32) -> bool
        ensures { result ≡ ended time self }
    {
        self.held != 0 && self.rests != 0 && self.is_past(time)
    }

    #[tactic(auto, unfolding(crate::specs::Slots::due))]
    fn is_due(self, time: u32) -> bool
        ensures { result ≡ due time self }
    {
        self.held != 0 && self.rests == 0 && self.is_past(time)
    }

    #[tactic(auto, unfolding(crate::specs::Slots::roll))]
    fn roll_once(self, time: u32) -> Self
        ensures { result ≡ roll time self }
    {
        if self.lap_over(time) {
            Slot::start(self.ends, self.rests)
        } else {
            self
        }
    }

    // Two laps at most can be over at a time.
    #[tactic(auto, unfolding(crate::specs::Slots::rolled))]
    pub(crate) fn roll_on(self, time: u32) -> Self
        ensures { result ≡ rolled time self }
    {
        self.roll_once(time).roll_once(time)
    }

    #[tactic(auto, unfolding(crate::specs::Slots::weight))]
    pub(crate) fn weigh(self, time: u32) -> u64
        ensures { result ≡ weight time self }
    {
        if self.is_due(time) {
            u64::from(self.late(time)) + 1
        } else {
            0
        }
    }
}
