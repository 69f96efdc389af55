// Whose entries an event's deeds are for.
ghost use Rattle.std.specs.Prelude.{◌≡◌};
ghost use Rattle.rules.specs.Plan.{deed_on};

use entries::Deed;

// The deed on the entries of access me. A few numbers are handed over: a whole plan would be built in memory.
#[tactic(auto, unfolding(crate::specs::Plan::deed_on))]
pub fn deed_on(access: u8, mine: Deed, theirs: Deed, me: u8) -> Deed
    ensures { result ≡ deed_on access mine theirs me }
{
    if access == me { mine } else { theirs }
}
