// What a taken event is for the networks of an access, and what it makes of the numbers on the way.
ghost use Rattle.std.specs.Prelude.{◌≡◌, cond, eqb};
ghost use Rattle.history.specs.History.{by_type};
ghost use Rattle.chronicle.specs.Explained.{access_named};
ghost use Rattle.chronicle.specs.Notes.{act_with, no_act};
ghost use Rattle.chronicle.specs.Acts as acts;

use crate::{Act, Change, State, Whom};
use messages::octet;
use rules::Event;

#[tactic(auto, unfolding(crate::specs::Explained::access_named))]
pub(crate) fn access_named(e: Event) -> u8
    ensures { result ≡ access_named e }
{
    match e {
        Event::Start { access, .. }
        | Event::Message { access, .. }
        | Event::Update { access, .. } => { access }
        _ => 0,
    }
}

pub(crate) fn is_card_change(e: Event) -> bool
    ensures { result ≡ acts.is_card_change e }
{
    matches!(e, Event::Card { .. })
}

fn no_act() -> Act
    ensures { result ≡ no_act }
{
    Act {
        whom: Whom::One(0),
        ban: Change::Nothing,
        bar: Change::Nothing,
    }
}

// At home nothing is banned.
#[tactic(auto, unfolding(crate::specs::Acts::reject_act))]
fn reject_act(access: u8, home: u32, own: u32, protected: u8, cause: u8) -> Act
    ensures { result ≡ acts.reject_act access home own protected cause }
{
    let struck = Change::Struck(protected != 0);
    if cause == 11 || cause == 73 {
        return Act {
            whom: Whom::One(own),
            ban: if own == home { Change::Nothing } else { struck },
            bar: Change::Nothing,
        };
    }
    if cause == 27 || cause == 72 && access == 1 {
        return Act {
            whom: Whom::One(own),
            ban: Change::Nothing,
            bar: struck,
        };
    }
    no_act()
}

#[tactic(auto, unfolding(history::specs::History::by_type))]
fn own_act(access: u8, home: u32, own: u32, protected: u8, octets: &[u8]) -> Act
    ensures { result ≡ by_type (act_with (Whom.One own) Change.Cleared Change.Nothing) (acts.reject_act access home own protected) octets.now }
{
    if octet(octets, 2) == 0x42 {
        return Act {
            whom: Whom::One(own),
            ban: Change::Cleared,
            bar: Change::Nothing,
        };
    }
    reject_act(access, home, own, protected, octet(octets, 3))
}

#[tactic(auto, unfolding(history::specs::History::by_type, crate::specs::Acts::across_act))]
fn other_act(theirs: u32, held: bool, protected: u8, octets: &[u8]) -> Act
    ensures { result ≡ by_type no_act (acts.across_act theirs held protected) octets.now }
{
    if held && protected != 0 && octet(octets, 2) != 0x42 && octet(octets, 3) == 27 {
        return Act {
            whom: Whom::One(theirs),
            ban: Change::Nothing,
            bar: Change::ToLimit,
        };
    }
    no_act()
}

fn timer_act(number: u8) -> Act
    ensures { result ≡ cond (eqb number 4) (act_with Whom.Every Change.Tested Change.Tested) no_act }
{
    if number == 4 {
        return Act {
            whom: Whom::Every,
            ban: Change::Tested,
            bar: Change::Tested,
        };
    }
    no_act()
}

fn import_act(access: u8) -> Act
    ensures { result ≡ cond (eqb access 0) (act_with Whom.Filed Change.Put Change.Nothing) no_act }
{
    if access == 0 {
        return Act {
            whom: Whom::Filed,
            ban: Change::Put,
            bar: Change::Nothing,
        };
    }
    no_act()
}

impl State {
    // The network that an access registers with.
    pub(crate) fn pending(self, access: u8) -> u32
        ensures { result ≡ acts.pending_in self access }
    {
        if access == 0 { self.pend0 } else { self.pend1 }
    }

    #[tactic(auto, unfolding(crate::specs::Acts::settled_of))]
    fn settled(self, access: u8, net: u32) -> State
        ensures { result ≡ acts.settled_of access net self }
    {
        if access == 0 {
            State { pend0: net, ..self }
        } else {
            State { pend1: net, ..self }
        }
    }

    pub(crate) fn moved(self, e: Event) -> State
        ensures { result ≡ acts.moved_of e self }
    {
        match e {
            Event::Card { home, .. } => State {
                home,
                pend0: 0,
                pend1: 0,
            },
            Event::Start { access, net, .. } | Event::Update { access, net, .. } => {
                self.settled(access, net)
            }
            _ => self,
        }
    }

    // For access `w`; `held` says whether the network of the event's own access has an entry there.
    #[tactic(auto, unfolding(crate::specs::Acts::act_of, crate::specs::Explained::access_named))]
    pub(crate) fn act(self, w: u8, held: bool, e: Event, octets: &[u8]) -> Act
        ensures { result ≡ acts.act_of w self.home (acts.pending_in self w) (acts.pending_in self (access_named e)) held e octets.now }
    {
        match e {
            Event::Message {
                access,
                protected,
                ..
            } => {
                if access == w {
                    own_act(w, self.home, self.pending(w), protected, octets)
                } else {
                    other_act(self.pending(access), held, protected, octets)
                }
            }
            Event::Timer { number, .. } => timer_act(number),
            Event::Power => Act {
                whom: Whom::Every,
                ban: Change::Tested,
                bar: Change::Cleared,
            },
            Event::Import => import_act(w),
            _ => no_act(),
        }
    }
}
