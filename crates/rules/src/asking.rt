// What an event asks about before it is decided: a network's entry or a file's, and an area.
ghost use Rattle.std.specs.Prelude.{◌≡◌};
ghost use Rattle.rules.specs.Plan as rules;

use crate::{Area, Ask, Event};
use record::{Hot, access_of};

#[tactic(auto, unfolding(crate::specs::Plan::ask_of))]
pub fn ask_of(h: Hot, e: Event) -> Ask
    ensures { result ≡ rules.ask_of h e }
{
    match e {
        Event::Start { access, net, .. } | Event::Update { access, net, .. } => {
            Ask::Network { access, net }
        }
        Event::Message { access, .. } => Ask::Network {
            access,
            net: access_of(h, access).net,
        },
        Event::Import => Ask::File,
        _ => Ask::Nothing,
    }
}

#[tactic(auto, unfolding(crate::specs::Plan::site_at))]
fn site_at(access: u8, net: u32, code: u32) -> Option<Area>
    ensures { result ≡ rules.site_at access net code }
{
    if access == 0 {
        Some(Area { net, code })
    } else {
        None
    }
}

#[tactic(auto, unfolding(crate::specs::Plan::site_of))]
pub fn site_of(e: Event) -> Option<Area>
    ensures { result ≡ rules.site_of e }
{
    match e {
        Event::Start {
            access,
            net,
            code,
            ..
        }
        | Event::Update {
            access,
            net,
            code,
            ..
        } => site_at(access, net, code),
        _ => None,
    }
}
