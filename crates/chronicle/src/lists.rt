// What a taken event makes of what is seen of a network.
ghost use Rattle.std.specs.Prelude.{◌≡◌, cond, ◌+◌, ◌<◌, ◌≤◌};
ghost use Rattle.history.specs.Tale.{is_put, news};
ghost use Rattle.chronicle.specs.Explained.{limits_of};
ghost use Rattle.chronicle.specs.Words.{word_of, counter_after, mark_after, on_list_after, view_after};
ghost use Rattle.chronicle.specs.Notes.{puts_in};

use crate::{Act, Change, Limits, OnList, View};

impl Change {
    // A reject or an import, which sets the mark.
    fn is_put(self) -> bool
        ensures { result ≡ is_put (word_of self) }
    {
        matches!(self, Change::Struck(_) | Change::Put)
    }

    #[tactic(auto, unfolding(crate::specs::Words::word_of, crate::specs::Words::counter_after))]
    fn count(self, limit: u8, n: u8) -> u8
        ensures { result ≡ counter_after limit (word_of self) n }
    {
        match self {
            Change::Struck(protected) => {
                if protected {
                    limit
                } else if n < limit {
                    n + 1
                } else {
                    n
                }
            }
            Change::ToLimit => limit,
            _ => n,
        }
    }

    // "each counter above 0 and below its limit clears the mark"
    #[tactic(auto, unfolding(crate::specs::Words::word_of, crate::specs::Words::mark_after, history::specs::Tale::is_begun))]
    fn mark(self, limit: u8, n: u8, at: usize, before: Option<usize>) -> Option<usize>
        ensures { result ≡ mark_after limit (word_of self) n at before }
    {
        match self {
            Change::Struck(_) | Change::Put => Some(at),
            Change::Cleared => None,
            Change::Tested => { if 0 < n && n < limit { None } else { before } }
            _ => before,
        }
    }
}

impl Act {
    pub(crate) fn is_put(self) -> bool
        ensures { result ≡ puts_in self }
    {
        self.ban.is_put() || self.bar.is_put()
    }
}

impl OnList {
    #[tactic(auto, unfolding(crate::specs::Words::on_list_after))]
    fn after(self, limit: u8, change: Change, at: usize) -> OnList
        ensures { result ≡ on_list_after limit (word_of change) at self }
    {
        OnList {
            count: change.count(limit, self.count),
            mark: change.mark(limit, self.count, at, self.mark),
        }
    }
}

impl View {
    #[tactic(auto, unfolding(crate::specs::Words::view_after, history::specs::Tale::puts))]
    pub(crate) fn after(self, limits: Limits, act: Act, at: usize) -> View
        requires { self.age < 4096 }
        ensures value { result ≡ view_after (limits_of limits.ban limits.n1) (news (word_of act.ban) (word_of act.bar)) at self }
        ensures age_bound { result.age ≤ self.age + 1 }
    {
        View {
            ban: self.ban.after(limits.ban, act.ban, at),
            bar: self.bar.after(limits.n1, act.bar, at),
            age: if act.is_put() { 0 } else { self.age + 1 },
        }
    }
}
