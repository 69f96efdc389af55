// The step by value.
ghost use Rattle.std.specs.Prelude.{◌≡◌};
ghost use Rattle.events.specs.Step.{step_of};

use super::Outcome;
use super::lent::handle;
use record::Record;
use rules::Event;

// Any record, any event, any octets.
pub fn step(r: Record, e: Event, octets: &[u8]) -> Outcome
    ensures { result ≡ step_of r e octets.now }
{
    let mut next = r;
    let reply = handle(&mut next, e, octets);
    Outcome { reply, next }
}
