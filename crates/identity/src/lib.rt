// The identity that a request opens with: a GUTI or the SUCI, handed back as a part of what held it, or a GUTI mapped from a 4G-GUTI, by value.
#![tactic(auto)]

ghost use Rattle.std.specs.Prelude.{◌≡◌, ◌≤◌, length, IfSome};
ghost use Rattle.identity.specs.Identity.{guti_net, equivalents_held, is_among};
ghost use Rattle.identity.specs.Choice.{is_pending, is_equivalent, own_first, slot_by, slot_of, part_at, chosen_of};

use networks::triple;

mod mapping;

pub use mapping::{is_mapped, map};

// What is lent from S1 mode at the write of a request, each fact 0 for no or any other number for yes: was registered there, was told that interworking without N26
// is not supported, holds an EPS security context, a valid 4G-GUTI, a native one; and the 4G-GUTI: network, MME group, MME code and M-TMSI.
// Kept: numbers for no and yes, since the C interface has them.
#[repr(C)]
#[derive(Clone, Copy)]
pub struct S1 {
    pub registered: u8,
    pub n26: u8,
    pub context: u8,
    pub valid: u8,
    pub native: u8,
    pub guti: [u8; 10],
}

// What is chosen from: the GUTIs, F2 and ten octets for access 0, then for access 1, and which of them are held; the SUCI; the request's access, and its pending
// network and equivalents.
// Kept: numbers for what is held, as the record has them by the C interface.
#[derive(Clone, Copy)]
pub struct Choice<'a, 'b> {
    pub gutis: &'a [u8],
    pub suci: &'a [u8],
    pub access: u8,
    pub held0: u8,
    pub held1: u8,
    pub net: u32,
    pub equivalents: &'b [u32; 15],
    pub count: u8,
}

// The network of the GUTI of an access: three octets behind its F2.
fn net(gutis: &[u8], slot: usize) -> u32
    requires { (length gutis.now ≡ 22) × (slot ≤ 1) }
    ensures { result ≡ guti_net gutis.now slot }
{
    let at = slot * 11;
    triple(gutis[at + 1], gutis[at + 2], gutis[at + 3])
}

// Equivalents in use: a count above fifteen counts as fifteen.
fn size(count: u8) -> usize
    ensures value { result ≡ equivalents_held count }
    ensures upper_bound { result ≤ 15 }
{
    usize::from(count).min(15)
}

// Kept: by value, since an array behind a reference brings no length to the proof.
fn among(net: u32, nets: [u32; 15], n: usize) -> bool
    requires { n ≤ 15 }
    ensures { result ≡ is_among net n nets }
{
    nets[..n].contains(&net)
}

// This access's first, then the other's, else what comes next.
fn first(here: bool, there: bool, own: usize, next: Option<usize>) -> Option<usize>
    requires slot { own ≤ 1 }
    requires others { IfSome next (λ slot. slot ≤ 1) }
    ensures value { result ≡ own_first here there own next }
    ensures slot { IfSome result (λ slot. slot ≤ 1) }
{
    if here {
        Some(own)
    } else if there {
        Some(1 - own)
    } else {
        next
    }
}

impl<'a, 'b> Choice<'a, 'b> {
    fn pending(self, slot: usize, held: u8) -> bool
        requires { (length self.gutis.now ≡ 22) × (slot ≤ 1) }
        ensures { result ≡ is_pending self.entry.gutis.now slot held self.entry.net }
    {
        let own = net(self.gutis, slot);
        held != 0 && own == self.net
    }

    fn equivalent(self, slot: usize, held: u8) -> bool
        requires { (length self.gutis.now ≡ 22) × (slot ≤ 1) }
        ensures { result ≡ is_equivalent self.entry.gutis.now slot held self.entry.equivalents.now self.entry.count }
    {
        let own = net(self.gutis, slot);
        held != 0 && among(own, *self.equivalents, size(self.count))
    }

    fn order(self, own: usize, here: u8, there: u8) -> Option<usize>
        requires { (length self.gutis.now ≡ 22) × (own ≤ 1) }
        ensures slot { IfSome result (λ slot. slot ≤ 1) }
        ensures value { result ≡ slot_by self.entry.gutis.now own here there self.entry.net self.entry.equivalents.now self.entry.count }
    {
        let other = 1 - own;
        let any = first(here != 0, there != 0, own, None);
        let a = self.equivalent(own, here);
        let b = self.equivalent(other, there);
        let alike = first(a, b, own, any);
        let p = self.pending(own, here);
        let q = self.pending(other, there);
        first(p, q, own, alike)
    }

    // No slot is the SUCI's, and there is none where not all 22 octets of the GUTIs are there.
    fn slot(self) -> Option<usize>
        ensures slot { IfSome result (λ slot. (slot ≤ 1) × (length self.entry.gutis.now ≡ 22)) }
        ensures value { result ≡ slot_of self.entry.gutis.now self.entry.access self.entry.held0 self.entry.held1 self.entry.net self.entry.equivalents.now self.entry.count }
    {
        if self.gutis.len() != 22 {
            None
        } else if self.access == 0 {
            self.order(0, self.held0, self.held1)
        } else {
            self.order(1, self.held1, self.held0)
        }
    }
}

// The identity by document 01's order, as a part of the very buffer that held it.
pub fn choose<'a, 'b>(c: Choice<'a, 'b>) -> &'a [u8]
    ensures octets { result.now ≡ chosen_of c.entry.gutis.now c.entry.suci.now c.entry.access c.entry.held0 c.entry.held1 c.entry.net c.entry.equivalents.now c.entry.count }
    ensures place { result.ref_ptr ≡ part_at c.entry.gutis.ref_ptr c.entry.suci.ref_ptr (slot_of c.entry.gutis.now c.entry.access c.entry.held0 c.entry.held1 c.entry.net c.entry.equivalents.now c.entry.count) }
{
    let gutis = c.gutis;
    match c.slot() {
        Some(slot) => &gutis[slot * 11..slot * 11 + 11],
        None => c.suci,
    }
}
