// The record lent by &mut.
ghost use Rattle.std.specs.Prelude.{◌≡◌};
ghost use Rattle.events.specs.Step.{step_of};

use record::Record;
use rules::{Event, Reply};

// Any record, any event, any octets.
pub fn handle(r: &mut Record, e: Event, octets: &[u8]) -> Reply
    ensures { (result ≡ (step_of r.old e octets.now).reply) × (r.new ≡ (step_of r.old e octets.now).next) }
{
    events::handle(r, e, octets)
}
