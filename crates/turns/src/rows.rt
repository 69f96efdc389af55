// The table of rejects: which row a reject falls under, and what the row says of lists, of T3247 and of the other access's N1 counter.
ghost use Rattle.std.specs.Prelude.{◌≡◌, cond};
ghost use Rattle.turns.specs.Words.{is_updating};
ghost use Rattle.turns.specs.Rejects.{is_registered, is_card, is_network_no, is_area_no, is_n1_no, is_protocol, row_of, starts_t3247, needs_entry, to_roaming, to_regional, across_n1};
ghost use Rattle.turns.specs.declared.Row.TheVariants.{CardBelow, CardLimit, CardProtected, Away, Home, Other};

use crate::Row;
use record::Access;

#[tactic(auto, unfolding(crate::specs::Rejects::is_card))]
pub fn is_card(cause: u8) -> bool
    ensures { result ≡ is_card cause }
{
    matches!(cause, 3 | 6 | 7)
}

#[tactic(auto, unfolding(crate::specs::Rejects::is_network_no))]
fn is_network_no(cause: u8) -> bool
    ensures { result ≡ is_network_no cause }
{
    matches!(cause, 11 | 73)
}

#[tactic(auto, unfolding(crate::specs::Rejects::is_area_no))]
fn is_area_no(cause: u8) -> bool
    ensures { result ≡ is_area_no cause }
{
    matches!(cause, 12 | 13 | 15)
}

#[tactic(auto, unfolding(crate::specs::Rejects::is_n1_no))]
fn is_n1_no(w: u8, cause: u8) -> bool
    ensures { result ≡ is_n1_no w cause }
{
    cause == 27 || cause == 72 && w == 1
}

#[tactic(auto, unfolding(crate::specs::Rejects::is_protocol))]
fn is_protocol(cause: u8) -> bool
    ensures { result ≡ is_protocol cause }
{
    matches!(cause, 95 | 96 | 97 | 99 | 111)
}

// An update is pending.
#[tactic(auto, unfolding(crate::specs::Words::is_updating))]
pub(crate) fn is_updating(a: Access) -> bool
    ensures { result ≡ is_updating a }
{
    a.state == 4 && a.regtype > 1
}

#[tactic(auto, unfolding(crate::specs::Rejects::is_registered))]
pub fn is_registered(a: Access) -> bool
    ensures { result ≡ is_registered a }
{
    a.state == 5 || is_updating(a)
}

fn card_row(unprotected: bool, below: bool) -> Row
    ensures { result ≡ cond unprotected (cond below CardBelow CardLimit) CardProtected }
{
    match (unprotected, below) {
        (true, true) => Row::CardBelow,
        (true, false) => Row::CardLimit,
        (false, _) => Row::CardProtected,
    }
}

fn network_row(home: bool, unprotected: bool) -> Row
    ensures { result ≡ cond home (cond unprotected Home Other) Away }
{
    match (home, unprotected) {
        (true, true) => Row::Home,
        (true, false) => Row::Other,
        (false, _) => Row::Away,
    }
}

#[tactic(auto, unfolding(crate::specs::Rejects::row_of, crate::specs::Rejects::is_congested))]
pub fn row_of(w: u8, unprotected: bool, home: bool, below: bool, timed: bool, cause: u8) -> Row
    ensures { result ≡ row_of w unprotected home below timed cause }
{
    if is_card(cause) {
        card_row(unprotected, below)
    } else if is_network_no(cause) {
        network_row(home, unprotected)
    } else if is_area_no(cause) && w == 0 {
        Row::Area
    } else if is_n1_no(w, cause) {
        Row::N1
    } else if cause == 22 && timed {
        Row::Congested
    } else if is_protocol(cause) {
        Row::Protocol
    } else {
        Row::Other
    }
}

#[tactic(auto, unfolding(crate::specs::Rejects::starts_t3247))]
pub fn starts_t3247(cause: u8) -> bool
    ensures { result ≡ starts_t3247 cause }
{
    is_card(cause) || is_network_no(cause) || is_area_no(cause) || matches!(cause, 27 | 72)
}

#[tactic(auto, unfolding(crate::specs::Rejects::needs_entry, crate::specs::Rejects::row_text, crate::specs::Words::mark_in, crate::specs::Words::is_mark))]
pub fn needs_entry(row: Row) -> bool
    ensures { result ≡ needs_entry row }
{
    matches!(row, Row::Away | Row::N1)
}

#[tactic(auto, unfolding(crate::specs::Rejects::to_roaming, crate::specs::Rejects::row_text, crate::specs::Words::list_of, crate::specs::Words::is_roaming, crate::specs::Words::holds))]
pub fn to_roaming(w: u8, cause: u8, row: Row) -> bool
    ensures { result ≡ to_roaming w cause row }
{
    match row {
        Row::CardBelow | Row::Home => w == 0,
        Row::Area => cause != 12,
        _ => false,
    }
}

#[tactic(auto, unfolding(crate::specs::Rejects::to_regional, crate::specs::Rejects::row_text, crate::specs::Words::list_of, crate::specs::Words::is_regional, crate::specs::Words::holds))]
pub fn to_regional(w: u8, cause: u8, row: Row) -> bool
    ensures { result ≡ to_regional w cause row }
{
    matches!(row, Row::Area) && cause == 12
}

#[tactic(auto, unfolding(crate::specs::Rejects::across_n1, crate::specs::Rejects::row_text, crate::specs::Words::across_of, crate::specs::Words::is_n1_across, crate::specs::Words::holds))]
pub fn across_n1(w: u8, protected: u8, cause: u8, row: Row) -> bool
    ensures { result ≡ across_n1 w protected cause row }
{
    matches!(row, Row::N1) && cause == 27 && protected != 0
}
