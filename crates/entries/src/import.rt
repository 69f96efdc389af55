// A card's file of forbidden networks: whether they all find an entry, and taking them in.
ghost use Rattle.std.specs.Prelude.{◌≡◌, cond, ◌+◌, ◌≤◌};
ghost use Rattle.networks.specs.Networks.{networks_in};
ghost use Rattle.entries.specs.Places.{entries_held, has_entry, put_at};
ghost use Rattle.entries.specs.Entries.{entries_of, grown, imported, is_filed, file_taken, held_with, is_import};
ghost use Rattle.entries.specs.Order.{last_to};
ghost use Rattle.entries.specs.Counting.{is_passed};

use crate::order::last_when;
use crate::{Deed, Entries, find, one_more, put, put_when, size};
use networks::{is_unused, network_at};

// A network that is neither among the first n, those with an entry, nor among the k new ones is one more of these. Sixteen have a place: a seventeenth is
// counted alone.
fn join(net: u32, n: usize, nets: &[u32; 16], k: usize, new: &mut [u32; 16]) -> usize
    requires { (n ≤ 16) × (k ≤ 16) }
    ensures value { result ≡ cond (is_passed net n nets.now k new.old) k (k + 1) }
    ensures upper_bound { result ≤ k + 1 }
    ensures after { new.new ≡ cond (is_passed net n nets.now k new.old) new.old (put_at new.old k net) }
{
    if is_unused(net) || find(nets, n, net) < n || find(new, k, net) < k {
        return k;
    }
    put(new, k, net);
    k + 1
}

// One entry more where the network had none.
pub fn grow(found: bool, count: u8) -> u8
    ensures { result ≡ grown found count }
{
    if found { count } else { one_more(16, count) }
}

impl Entries {
    // The new networks are counted in a list of their own, so that nothing is written before all are known to fit. One look over the file, and at most
    // thirty-two numbers for each network.
    // Kept: what may not change: `held_with` gives seventeen where they do not fit, a place as `Seen` has it.
    pub fn held_with(&self, count: u8, file: &[u8]) -> usize
        ensures { result ≡ held_with count file.now self.now.nets }
    {
        let n = size(count);
        let mut new = [0u32; 16];
        let mut k: usize = 0;
        for network in file.chunks_exact(3) {
            k = join(network_at(network, 0), n, &self.nets, k, &mut new);
            if 16 < n + k {
                return 17;
            }
        }
        n + k
    }

    // One network: its mark, and zeros beside it in a new entry.
    fn admit(&mut self, net: u32, count: u8) -> u8
        ensures value { result ≡ grown (has_entry count net self.old.nets) count }
        ensures after { self.new ≡ imported net count self.old }
    {
        let n = size(count);
        let at = find(&self.nets, n, net);
        let found = at < n;
        put(&mut self.nets, at, net);
        put_when(!found, &mut self.bans, at, 0);
        put_when(!found, &mut self.n1s, at, 0);
        put(&mut self.forbidden, at, 1);
        put_when(!found, &mut self.barred, at, 0);
        put_when(!found, &mut self.ranks, at, n as u8);
        grow(found, count)
    }

    // A card's file.
    pub fn take_in(&mut self, file: &[u8], count: u8)
        ensures { self.new ≡ file_taken file.now count self.old }
    {
        let mut n = count;
        for network in file.chunks_exact(3) {
            let net = network_at(network, 0);
            if !is_unused(net) {
                n = self.admit(net, n);
            }
        }
        settle(file, n, &self.nets, &mut self.ranks);
    }
}

#[tactic(auto, unfolding(crate::specs::Entries::is_import))]
pub fn is_import(k: Deed) -> bool
    ensures { result ≡ is_import k }
{
    matches!(k, Deed::Import)
}

fn names(file: &[u8], net: u32) -> bool
    ensures { result ≡ is_filed net (networks_in file.now) }
{
    if is_unused(net) {
        return false;
    }
    for network in file.chunks_exact(3) {
        if network_at(network, 0) == net {
            return true;
        }
    }
    false
}

// Those that the file names come last in the order, one after the other from the first place on.
#[tactic(auto, unfolding(crate::specs::Order::last_to))]
fn settle(file: &[u8], count: u8, nets: &[u32; 16], ranks: &mut [u8; 16])
    ensures { ranks.new ≡ last_to (λ m. is_filed m (networks_in file.now)) (entries_held count) (entries_held count) nets.now ranks.old }
{
    let n = size(count);
    for i in 0..n {
        last_when(names(file, nets[i]), i, count, ranks);
    }
}
