// CRC-32, bit by bit: no table, since an image is written far less often than it would take room.
ghost use Rattle.std.specs.Prelude.{◌≡◌};
ghost use Rattle.image.specs.Checksum.{bit_step, four_steps, octet_step, checksum_of};

#[tactic(auto, unfolding(crate::specs::Checksum::bit_step))]
fn bit(c: u32) -> u32
    ensures { result ≡ bit_step c }
{
    if c % 2 == 0 {
        c / 2
    } else {
        0xEDB88320 ^ (c / 2)
    }
}

#[tactic(auto, unfolding(crate::specs::Checksum::four_steps))]
fn four(c: u32) -> u32
    ensures { result ≡ four_steps c }
{
    bit(bit(bit(bit(c))))
}

#[tactic(auto, unfolding(crate::specs::Checksum::octet_step))]
fn octet(c: u32, o: u8) -> u32
    ensures { result ≡ octet_step c o }
{
    four(four(c ^ u32::from(o)))
}

pub(crate) fn checksum(s: &[u8]) -> u32
    ensures { result ≡ checksum_of s.now }
{
    0xFFFFFFFF - s.iter().fold(0xFFFFFFFF, |c, &o| octet(c, o))
}
