// What a reply makes of the table, and whether a table fits a record.
ghost use Rattle.std.specs.Prelude.{◌≡◌, ◌<◌};
ghost use Rattle.deadlines.specs.Arming.{tolds_of, heeded, armed, fits_to};

use crate::{Slot, Table};
use record::Hot;
use turns::{Clocks, Told};

impl Table {
    // What one timer is told.
    #[tactic(auto, unfolding(crate::specs::Arming::heeded))]
    fn heed(&mut self, at: usize, t: Told, time: u32)
        requires { at < 10 }
        ensures { self.new ≡ heeded time at t self.old }
    {
        match t {
            Told::Left => {}
            Told::Stopped => self.put(at, Slot::stop()),
            Told::Started(seconds) => self.put(at, Slot::start(time, u64::from(seconds) * 1000)),
        }
    }

    // Each timer that is started gets a deadline, so many seconds from `time`.
    pub fn arm(&mut self, c0: Clocks, c1: Clocks, t3512: Told, t3247: Told, time: u32)
        ensures { self.new ≡ armed time (tolds_of c0 c1 t3512 t3247) self.old }
    {
        let tolds = [
            c0.t3510, c1.t3510, c0.t3511, c1.t3511, c0.t3502, c1.t3502, c0.t3346, c1.t3346, t3512,
            t3247,
        ];
        for i in 0..10 {
            self.heed(i, tolds[i], time);
        }
    }

    // Whether exactly those slots are held whose timers run.
    pub fn fits(&self, h: Hot) -> bool
        ensures { result ≡ fits_to h self.now.held }
    {
        let (a, b, d) = (h.a0, h.a1, h.dev);
        self.held
            == [
                a.t3510, b.t3510, a.t3511, b.t3511, a.t3502, b.t3502, a.t3346, b.t3346, d.t3512,
                d.t3247,
            ]
    }
}
