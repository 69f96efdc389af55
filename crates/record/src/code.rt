// Network codes.
ghost use Rattle.std.specs.Prelude.{◌≡◌};
ghost use Rattle.record.specs.Network.{is_network};

#[tactic(auto, unfolding(crate::specs::Network::is_network))]
pub fn network(n: u32) -> bool
    ensures { result ≡ is_network n }
{
    let third = n / 4096 % 16;
    n < 16777216
        && n / 1048576 % 16 < 10
        && n / 65536 % 16 < 10
        && (third < 10 || third == 15)
        && n / 256 % 16 < 10
        && n / 16 % 16 < 10
        && n % 16 < 10
}
