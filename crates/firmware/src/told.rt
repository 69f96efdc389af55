// A reply as numbers, and the numbers read back.
ghost use Rattle.std.specs.Prelude.{◌≡◌};
ghost use Rattle.firmware.specs.Notice.{timer_notice, timers_of, notice_of};
ghost use Rattle.firmware.specs.Clock.{is_told, are_told, is_notice, told_from, clocks_from};

use crate::{Notice, Timer, Timers};
use rules::Reply;
use turns::{Clocks, Told};

impl From<Told> for Timer {
    ghost from_gives = { λ x y. y ≡ timer_notice x };

    #[tactic(auto, unfolding(crate::specs::Notice::timer_notice))]
    fn from(t: Told) -> Timer {
        match t {
            Told::Left => Timer {
                told: 0,
                seconds: 0,
            },
            Told::Stopped => Timer {
                told: 1,
                seconds: 0,
            },
            Told::Started(seconds) => Timer { told: 2, seconds },
        }
    }
}

impl From<Clocks> for Timers {
    ghost from_gives = { λ x y. y ≡ timers_of x };

    #[tactic(auto, unfolding(crate::specs::Notice::timers_of))]
    fn from(c: Clocks) -> Timers {
        Timers {
            t3510: Timer::from(c.t3510),
            t3511: Timer::from(c.t3511),
            t3502: Timer::from(c.t3502),
            t3346: Timer::from(c.t3346),
        }
    }
}

impl From<Timer> for Told {
    ghost from_gives = { λ x y. y ≡ told_from x };

    #[tactic(auto, unfolding(crate::specs::Clock::told_from))]
    fn from(t: Timer) -> Told {
        match t.told {
            1 => Told::Stopped,
            2 => Told::Started(t.seconds),
            _ => Told::Left,
        }
    }
}

impl From<Timers> for Clocks {
    ghost from_gives = { λ x y. y ≡ clocks_from x };

    #[tactic(auto, unfolding(crate::specs::Clock::clocks_from))]
    fn from(t: Timers) -> Clocks {
        Clocks {
            t3510: Told::from(t.t3510),
            t3511: Told::from(t.t3511),
            t3502: Told::from(t.t3502),
            t3346: Told::from(t.t3346),
        }
    }
}

impl Timer {
    #[tactic(auto, unfolding(crate::specs::Clock::is_told))]
    fn tells(self) -> bool
        ensures { result ≡ is_told self }
    {
        self.told < 3
    }
}

impl Timers {
    #[tactic(auto, unfolding(crate::specs::Clock::are_told))]
    fn tells(self) -> bool
        ensures { result ≡ are_told self }
    {
        (self.t3510.tells() && self.t3511.tells()) && (self.t3502.tells() && self.t3346.tells())
    }
}

impl Notice {
    #[tactic(auto, unfolding(crate::specs::Notice::notice_of))]
    pub(crate) fn of(changed: u32, p: Reply) -> Notice
        ensures { result ≡ notice_of changed p }
    {
        Notice {
            offset: record::offset(p.answer),
            c0: Timers::from(p.c0),
            c1: Timers::from(p.c1),
            t3247: Timer::from(p.t3247),
            t3512: Timer::from(p.t3512),
            restart: rounds::asked_word(p.restart),
            leave: rounds::asked_word(p.leave),
            update: rounds::asked_word(p.update),
            changed,
        }
    }

    // Whether it is one: of each timer it tells one of three things.
    #[tactic(auto, unfolding(crate::specs::Clock::is_notice))]
    pub(crate) fn tells(&self) -> bool
        ensures { result ≡ is_notice self.now }
    {
        (self.c0.tells() && self.c1.tells()) && (self.t3512.tells() && self.t3247.tells())
    }
}
