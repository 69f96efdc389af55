// An import of the card's forbidden networks.
ghost use Rattle.std.specs.Prelude.{◌≡◌, ℕ, option_map, unwrap_or};
ghost use Rattle.effects.specs.Effects as rules;

use crate::parts::idle;
use crate::{Sides, Work};
use entries::Deed;
use record::with_entries;
use turns::Turn;

// What an import, after which access 0 has so many entries, adds to an event that changes nothing. It comes behind the other effects: as one more of them it made all of them slower.
#[tactic(auto, unfolding(crate::specs::Effects::imported_sides))]
pub fn import_effect(entries: Option<u8>, x: Sides) -> Sides
    ensures { result ≡ unwrap_or (option_map (λ (n : ℕ). rules.imported_sides n x) entries) x }
{
    let Some(entries) = entries else {
        return x;
    };
    let access = with_entries(entries, x.t0.access);
    Sides {
        t0: Turn { access, ..x.t0 },
        work: Work {
            mine: Deed::Import,
            ..idle()
        },
        ..x
    }
}
