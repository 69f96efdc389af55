// One access's sixteen network entries, as columns of numbers: searched, struck, lifted and cleared in place.
#![tactic(auto)]

ghost use Rattle.std.specs.Prelude.{◌≡◌, cond, [], ◌≤◌, replicate};
ghost use Rattle.laws.specs.Bounds.{one_more};
ghost use Rattle.laws.specs.Upto.{upto, seek_to};
ghost use Rattle.entries.specs.Places.{same_net, entries_held, place_in, has_entry, put_at, peek_at};
ghost use Rattle.entries.specs.Entries.{with_ranks, found_in, marks_after, entries_after, lift_mark, bumped, raised, entries_of, banned, barred_by, n1_to_limit, swept, powered, none};

mod import;
mod order;

pub use import::{grow, is_import};
pub use order::last_when;

// Dense from 0 to a count that the access keeps; behind it nothing is looked at. Ranks are the order of the last marking: how many were marked earlier.
// Kept: columns beside each other, and marks as octets: the C interface lays a record out so, with its counts and limits among the access's and the device's numbers.
#[repr(C)]
#[derive(Clone, Copy)]
pub struct Entries {
    pub nets: [u32; 16],
    pub bans: [u8; 16],
    pub n1s: [u8; 16],
    pub forbidden: [u8; 16],
    pub barred: [u8; 16],
    pub ranks: [u8; 16],
}

// What stands in the entries about one network: its place, else the first free one, and its marks; a seventeenth's is that of the one that gives up its own. About an import's file: whether it is one, and the first free
// place once its networks have theirs.
// Kept: what may not change: a place beside `found`: where a network has no entry, its place is the free one (`found_in`, `place_for`), sixteen where there is none.
#[derive(Clone, Copy)]
pub struct Seen {
    pub at: usize,
    pub found: bool,
    pub forbidden: u8,
    pub barred: u8,
}

// Where a network is written down.
#[derive(Clone, Copy)]
pub struct Seat {
    pub at: usize,
    pub found: bool,
    pub net: u32,
    pub protected: u8,
}

// What an event does to an access's entries: a reject that bans the network, one that bars it from N1, an accept, a protected 27
// over the other access, an import, T3247 out, a power cycle, a card change.
// Kept: no plainer, nothing is one of the deeds that a plan has for each access (`marks_after`).
#[derive(Clone, Copy)]
pub enum Deed {
    Nothing,
    Ban(Seat),
    Bar(Seat),
    Accept(Seat),
    ToLimit(u32),
    Import,
    Sweep,
    Power,
    Fresh,
}

// Any count is taken, so that no caller owes one: above sixteen it is sixteen.
#[tactic(auto, unfolding(crate::specs::Places::entries_held))]
pub fn size(count: u8) -> usize
    ensures value { result ≡ entries_held count }
    ensures upper_bound { result ≤ 16 }
{
    if count < 16 { count as usize } else { 16 }
}

// The first free place, n, where it is nowhere. Each of the sixteen is a bit, the first the lowest, with no branch an element: which one it is cannot be foreseen.
// Bits from n on are passed over at the end.
// Kept: tried and slower: with a branch an element, as `position` has it, a replay took longer (docs/BENCH.md, "sixteen entries compared without a branch for each").
pub(crate) fn find(nets: &[u32; 16], n: usize, net: u32) -> usize
    requires { n ≤ 16 }
    ensures { result ≡ seek_to (same_net net) n nets.now }
{
    let mut m: u16 = 0;
    for i in 0..16 {
        m |= u16::from(nets[i] == net) << i;
    }
    let at = m.trailing_zeros() as usize;
    if at < n { at } else { n }
}

#[tactic(auto, unfolding(crate::specs::Places::peek_at))]
fn peek(xs: &[u8; 16], at: usize, n: usize) -> u8
    requires { n ≤ 16 }
    ensures { result ≡ peek_at xs.now at n }
{
    if at < n { xs[at] } else { 0 }
}

#[tactic(auto, unfolding(crate::specs::Entries::lift_mark))]
fn lift(n: u8, mark: u8, limit: u8) -> u8
    ensures { result ≡ lift_mark limit n mark }
{
    if n != 0 && n < limit { 0 } else { mark }
}

// Each mark goes by the counter beside it.
fn lift_marks(marks: &mut [u8; 16], counts: &[u8; 16], n: usize, limit: u8)
    requires { n ≤ 16 }
    ensures { marks.new ≡ upto (lift_mark limit) n counts.now marks.old }
{
    for i in 0..n {
        marks[i] = lift(counts[i], marks[i], limit);
    }
}

// Up by one unless at its limit.
pub fn one_more(limit: u8, n: u8) -> u8
    ensures { result ≡ one_more limit n }
{
    if n < limit { n + 1 } else { n }
}

#[tactic(auto, unfolding(crate::specs::Entries::bumped))]
fn bump(n: u8, limit: u8, protected: u8) -> u8
    ensures { result ≡ bumped limit protected n }
{
    if protected == 0 {
        one_more(limit, n)
    } else {
        limit
    }
}

// Sixteen is the place in a full table: nothing is stored there.
#[tactic(auto, unfolding(crate::specs::Places::put_at))]
pub(crate) fn put<T: Copy>(xs: &mut [T; 16], at: usize, v: T)
    ensures { xs.new ≡ put_at xs.old at v }
{
    if at < 16 {
        xs[at] = v;
    }
}

pub(crate) fn put_when(when: bool, xs: &mut [u8; 16], at: usize, v: u8)
    ensures { xs.new ≡ cond when (put_at xs.old at v) xs.old }
{
    if when {
        put(xs, at, v);
    }
}

#[tactic(auto, unfolding(crate::specs::Entries::raised, crate::specs::Places::put_at))]
fn raise(xs: &mut [u8; 16], at: usize, found: bool, limit: u8, protected: u8)
    ensures { xs.new ≡ raised xs.old at found limit protected }
{
    if at < 16 {
        let n = if found { xs[at] } else { 0 };
        xs[at] = bump(n, limit, protected);
    }
}

// A reject's mark and counter; the other two columns are zeroed in a new entry. Barring is banning with the columns changed about, so they are lent one by one.
#[tactic(auto, unfolding(crate::specs::Entries::banned, crate::specs::Entries::clear_unless))]
fn strike(
    s: Seat,
    limit: u8,
    nets: &mut [u32; 16],
    counts: &mut [u8; 16],
    others: &mut [u8; 16],
    marks: &mut [u8; 16],
    spare: &mut [u8; 16],
)
    ensures { entries_of nets.new counts.new others.new marks.new spare.new [] ≡ banned s limit (entries_of nets.old counts.old others.old marks.old spare.old []) }
{
    put(nets, s.at, s.net);
    raise(counts, s.at, s.found, limit, s.protected);
    put_when(!s.found, others, s.at, 0);
    put(marks, s.at, 1);
    put_when(!s.found, spare, s.at, 0);
}

impl Entries {
    // A network with no entry has no marks.
    #[tactic(auto, unfolding(crate::specs::Entries::found_in, crate::specs::Places::has_entry, crate::specs::Places::place_in))]
    pub fn look(&self, count: u8, net: u32) -> Seen
        ensures { result ≡ found_in count net self.now.nets self.now.forbidden self.now.barred }
    {
        let n = size(count);
        let at = find(&self.nets, n, net);
        Seen {
            at,
            found: at < n,
            forbidden: peek(&self.forbidden, at, n),
            barred: peek(&self.barred, at, n),
        }
    }

    fn ban(&mut self, s: Seat, limit: u8)
        ensures { self.new ≡ banned s limit self.old }
    {
        strike(
            s,
            limit,
            &mut self.nets,
            &mut self.bans,
            &mut self.n1s,
            &mut self.forbidden,
            &mut self.barred,
        );
    }

    fn bar(&mut self, s: Seat, limit: u8)
        ensures { self.new ≡ barred_by s limit self.old }
    {
        strike(
            s,
            limit,
            &mut self.nets,
            &mut self.n1s,
            &mut self.bans,
            &mut self.barred,
            &mut self.forbidden,
        );
    }

    // A network that has no entry is skipped.
    #[tactic(auto, unfolding(crate::specs::Entries::n1_to_limit, crate::specs::Places::has_entry, crate::specs::Places::place_in))]
    fn to_limit(&mut self, count: u8, net: u32, limit: u8)
        ensures { self.new ≡ n1_to_limit net count limit self.old }
    {
        let n = size(count);
        let at = find(&self.nets, n, net);
        put_when(at < n, &mut self.n1s, at, limit);
    }

    // Each mark goes by its own counter and limit.
    #[tactic(auto, unfolding(crate::specs::Entries::swept))]
    fn sweep(&mut self, count: u8, banlimit: u8, n1limit: u8)
        ensures { self.new ≡ swept count banlimit n1limit self.old }
    {
        let n = size(count);
        lift_marks(&mut self.forbidden, &self.bans, n, banlimit);
        lift_marks(&mut self.barred, &self.n1s, n, n1limit);
    }

    #[tactic(auto, unfolding(crate::specs::Entries::powered))]
    fn power(&mut self, count: u8, banlimit: u8)
        ensures { self.new ≡ powered count banlimit self.old }
    {
        lift_marks(&mut self.forbidden, &self.bans, size(count), banlimit);
        self.barred = [0; 16];
    }

    #[tactic(auto, unfolding(crate::specs::Entries::none))]
    fn wipe(&mut self)
        ensures { self.new ≡ with_ranks self.old.ranks none }
    {
        self.nets = [0; 16];
        self.bans = [0; 16];
        self.n1s = [0; 16];
        self.forbidden = [0; 16];
        self.barred = [0; 16];
    }

    // An import's file is not at hand here: `take_in` has it. Nor does the order change: `reorder` makes it.
    #[tactic(auto, unfolding(crate::specs::Entries::marks_after, crate::specs::Entries::unforbidden))]
    pub fn tend(&mut self, k: Deed, count: u8, banlimit: u8, n1limit: u8)
        ensures { self.new ≡ marks_after k count banlimit n1limit self.old }
    {
        match k {
            Deed::Nothing => {}
            Deed::Ban(s) => self.ban(s, banlimit),
            Deed::Bar(s) => self.bar(s, n1limit),
            Deed::Accept(s) => put_when(s.found, &mut self.forbidden, s.at, 0),
            Deed::ToLimit(net) => self.to_limit(count, net, n1limit),
            Deed::Import => {}
            Deed::Sweep => self.sweep(count, banlimit, n1limit),
            Deed::Power => self.power(count, banlimit),
            Deed::Fresh => self.wipe(),
        }
    }

    // The whole of a deed: the order, the marks, and an import's file, which is the octets beside the event. Most events do nothing to one of the two accesses.
    #[tactic(auto, unfolding(crate::specs::Entries::entries_after, crate::specs::Entries::with_file, crate::specs::Entries::ranks_after, crate::specs::Entries::marks_after, crate::specs::Entries::is_import))]
    pub fn after(&mut self, k: Deed, octets: &[u8], count: u8, banlimit: u8, n1limit: u8)
        ensures { self.new ≡ entries_after k octets.now count banlimit n1limit self.old }
    {
        match k {
            Deed::Nothing => {}
            Deed::Import => self.take_in(octets, count),
            _ => {
                self.reorder(k, count);
                self.tend(k, count, banlimit, n1limit);
            }
        }
    }
}
