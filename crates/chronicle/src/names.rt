// Whom a taken event concerns.
ghost use Rattle.std.specs.Prelude.{◌≡◌};
ghost use Rattle.history.specs.Tale.{is_one_of};
ghost use Rattle.history.specs.History.{names_in};
ghost use Rattle.chronicle.specs.Frames.{octets_at};
ghost use Rattle.chronicle.specs.Notes.{is_gone, concerns_in};

use crate::frames::octets_at;
use crate::{Note, Whom};
use networks::{is_unused, network_at};

// Whether a card's file names a network.
fn named(file: &[u8], net: u32) -> bool
    ensures { result ≡ is_one_of net (names_in file.now) }
{
    if is_unused(net) {
        return false;
    }
    for part in file.chunks_exact(3) {
        if network_at(part, 0) == net {
            return true;
        }
    }
    false
}

impl Note {
    pub(crate) fn is_gone(&self, net: u32) -> bool
        ensures { result ≡ is_gone self.now.gone net }
    {
        matches!(self.gone, Some(gone) if gone == net)
    }

    #[tactic(auto, unfolding(crate::specs::Notes::concerns_in))]
    pub(crate) fn concerns(&self, log: &[u8], net: u32) -> bool
        ensures { result ≡ concerns_in (octets_at log.now self.now.at) self.now.act.whom net }
    {
        match self.act.whom {
            Whom::One(one) => one == net,
            Whom::Every => true,
            Whom::Filed => named(octets_at(log, self.at), net),
        }
    }
}
