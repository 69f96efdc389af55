// What octets are: an image, whole and of this version, with a valid record in it; and that record, its table and the serial.
ghost use Rattle.std.specs.Prelude.{◌≡◌, ◌≤◌, length};
ghost use Rattle.image.specs.Image.{is_whole, sum_holds, length_at, frame_of, load_of, refusal_number};

use crate::checksum::checksum;
use crate::columns::Number;
use crate::reading::{record_at, table_at};
use crate::{Loaded, Refusal};

fn sum_holds(s: &[u8], n: usize) -> bool
    requires { (n ≡ length_at s.now) × ((12 ≤ n) × (n ≤ length s.now)) }
    ensures { result ≡ sum_holds s.now }
{
    let at = n - 4;
    checksum(&s[..at]) == u32::read(s, at)
}

// Whatever the version, an image tells its length, and its checksum stands at its end.
fn whole(s: &[u8]) -> bool
    ensures { result ≡ is_whole s.now }
{
    if s.len() < 12 {
        return false;
    }
    if u32::read(s, 0) != 0x46524A54 {
        return false;
    }
    let n = usize::from(u16::read(s, 6));
    if n < 12 {
        return false;
    }
    if s.len() < n {
        return false;
    }
    sum_holds(s, n)
}

// Before the record is looked at: an image of this version and length.
fn framed(s: &[u8]) -> Result<(), Refusal>
    ensures { result ≡ frame_of s.now }
{
    if !whole(s) {
        return Err(Refusal::Damaged);
    }
    if u16::read(s, 4) != 1 {
        return Err(Refusal::Version);
    }
    if u16::read(s, 6) != 1392 {
        return Err(Refusal::Damaged);
    }
    Ok(())
}

// Any octets.
pub fn load(s: &[u8]) -> Result<Loaded, Refusal>
    ensures { result ≡ load_of s.now }
{
    framed(s)?;
    let next = record_at(s);
    if !ranges::fits(&next) {
        return Err(Refusal::Invalid);
    }
    Ok(Loaded {
        next,
        table: table_at(s),
        serial: u32::read(s, 8),
    })
}

impl Refusal {
    #[tactic(auto, unfolding(crate::specs::Image::refusal_number))]
    pub fn number(self) -> u32
        ensures { result ≡ refusal_number self }
    {
        match self {
            Refusal::Invalid => 1,
            Refusal::Version => 23,
            Refusal::Damaged => 24,
        }
    }
}
