// Of the networks heard those that neither mark of an access bars, in the order heard, each once.
#![tactic(auto)]

ghost use Rattle.std.specs.Prelude.{◌≡◌, ◌≤◌, length};
ghost use Rattle.laws.specs.Upto.{over, all_to};
ghost use Rattle.record.specs.Tests.{is_short};
ghost use Rattle.cells.specs.Cells as cells;

use entries::Entries;
use record::{Answer, Record, access_of};

// The most networks that the radio hands over.
const MOST: usize = 64;

#[tactic(auto, unfolding(crate::specs::Cells::stands))]
fn stands(same: bool, forbidden: u8, barred: u8) -> bool
    ensures { result ≡ cells.stands same forbidden barred }
{
    same && (forbidden != 0 || barred != 0)
}

// Either mark stands at one of the first entries.
fn marked(e: &Entries, count: usize, net: u32) -> bool
    requires { count ≤ 16 }
    ensures { result ≡ cells.marked e.now.nets e.now.forbidden e.now.barred net count }
{
    for k in 0..count {
        if stands(e.nets[k] == net, e.forbidden[k], e.barred[k]) {
            return true;
        }
    }
    false
}

// A network is taken where it is heard first.
fn choose(heard: &[u32], count: u8, e: &Entries, out: &mut [u32]) -> usize
    requires { length heard.now ≤ length out.old }
    ensures value { result ≡ length (cells.permitted_by heard.now count e.now) }
    ensures out_after { out.new ≡ over (cells.permitted_by heard.now count e.now) out.old }
{
    let held = entries::size(count);
    let mut n = 0;
    for (i, &net) in heard.iter().enumerate() {
        if heard[..i].contains(&net) || marked(e, held, net) {
            continue;
        }
        out[n] = net;
        n += 1;
    }
    n
}

// Each is a number of three octets.
fn short(heard: &[u32]) -> bool
    ensures { result ≡ all_to is_short (length heard.now) heard.now }
{
    heard.iter().all(|&n| n < 16777216)
}

#[tactic(auto, unfolding(crate::specs::Cells::may_choose))]
fn may(r: &Record, access: u8, heard: &[u32]) -> bool
    ensures { result ≡ cells.may_choose r.now access heard.now }
{
    access <= 1 && heard.len() <= MOST && short(heard) && ranges::fits(r)
}

// How many networks were written.
pub fn permitted(r: &Record, access: u8, heard: &[u32], out: &mut [u32]) -> Result<usize, Answer>
    ensures value { result ≡ cells.choice_of r.now access heard.now (length out.old) }
    ensures out_after { out.new ≡ cells.list_of r.now access heard.now out.old }
{
    if !may(r, access, heard) {
        return Err(Answer::Range);
    }
    if out.len() < heard.len() {
        return Err(Answer::Short);
    }
    let own = access_of(r.hot, access);
    let e = if access == 0 { &r.e0 } else { &r.e1 };
    Ok(choose(heard, own.entries, e, out))
}
