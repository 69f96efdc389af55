// Optional elements of a message: the formats, one element at a place, the walker, and the first elements with given identifiers.
#![tactic(auto)]

ghost use Rattle.std.specs.Prelude.{◌≡◌, Bool, true, ℕ, ◌<◌, ◌≤◌, length, get_or, drop};
ghost use Rattle.std.specs.Option.{option_or};
ghost use Rattle.octets.specs.Element.{format_of, code_of, lead_by, contents_by, element_at, after_of, walked_at, Elements, elements_from, wanted_of, gather_of};
ghost use Rattle.octets.specs.Element.Elements.{over, element};

mod formats;

use formats::FORMATS;

// Why a message is malformed: cut short, its first or second octet, its type, an element past the end, an element that must be understood.
#[derive(Clone, Copy, Debug, PartialEq, Eq)]
pub enum Fault {
    Cut,
    First,
    Second,
    Kind,
    Past,
    Strange,
}

// What is told of a message that is malformed: the fault, and its offset.
#[derive(Clone, Copy, Debug, PartialEq, Eq)]
pub struct Malformed {
    pub fault: Fault,
    pub at: usize,
}

// How an element is laid out: format_of in specs has the rule, and says what each means.
#[derive(Clone, Copy, Debug, PartialEq, Eq)]
pub enum Layout {
    Whole,
    LongLength,
    ShortLength,
    SevenInRequest,
    MustBeKnown,
}

// Kept: no plainer, an Option of a Result of the rest would say these three cases in two layers.
#[derive(Clone, Copy, Debug, PartialEq, Eq)]
pub enum Element {
    End,
    Bad(Fault),
    At {
        id: u8,
        start: usize,
        len: usize,
        next: usize,
    },
}

// The contents of an element.
#[derive(Clone, Copy, Debug, PartialEq, Eq)]
pub struct Part {
    pub start: usize,
    pub len: usize,
}

// How a message's elements end, and the first ones with four identifiers before that.
#[derive(Clone, Copy, Debug, PartialEq, Eq)]
pub struct Gathered {
    pub end: Result<(), Malformed>,
    pub first: Option<Part>,
    pub second: Option<Part>,
    pub third: Option<Part>,
    pub fourth: Option<Part>,
}

// An octet as a wider number.
pub fn wide(x: u8) -> usize
    ensures { (result ≡ x) × (result < 256) }
{
    x as usize
}

// Kept: what may not change, `format` promises the number that the table has.
pub fn format(id: u8) -> u8
    ensures { result ≡ code_of (format_of id) }
{
    FORMATS[usize::from(id)]
}

// The rule's own comparisons, for the walk: the compiler lays the table out anew each time it is asked.
#[tactic(auto, unfolding(crate::specs::Element::format_of))]
fn format_of(id: u8) -> Layout
    ensures { result ≡ format_of id }
{
    if 128 <= id {
        return Layout::Whole;
    }
    if 112 <= id {
        return Layout::LongLength;
    }
    if id == 82 {
        return Layout::SevenInRequest;
    }
    if id < 16 {
        return Layout::MustBeKnown;
    }
    Layout::ShortLength
}

// An octet behind a place. A missing one reads as 0: its element ends past the end whatever it says.
fn octet(msg: &[u8], from: usize, i: usize) -> usize
    requires { from ≤ length msg.now }
    ensures { (result ≡ get_or (drop from msg.now) i 0) × (result < 256) }
{
    if i < msg.len() - from {
        return usize::from(msg[from + i]);
    }
    0
}

// The octets before the contents.
#[tactic(auto, unfolding(crate::specs::Element::lead_by))]
fn lead(layout: Layout, request: bool) -> usize
    ensures { (result ≡ lead_by request layout) × (result < 4) }
{
    match layout {
        Layout::Whole => 0,
        Layout::LongLength => 3,
        Layout::SevenInRequest => if request { 1 } else { 2 },
        Layout::ShortLength | Layout::MustBeKnown => 2,
    }
}

// The octets of the contents, by what follows the identifier.
#[tactic(auto, unfolding(crate::specs::Element::contents_by))]
fn contents(msg: &[u8], from: usize, layout: Layout, request: bool) -> usize
    requires { from ≤ length msg.now }
    ensures { (result ≡ contents_by request layout (drop from msg.now)) × (result < 65536) }
{
    match layout {
        Layout::Whole => 1,
        Layout::LongLength => octet(msg, from, 0) * 256 + octet(msg, from, 1),
        Layout::SevenInRequest => if request { 6 } else { octet(msg, from, 0) },
        Layout::ShortLength | Layout::MustBeKnown => octet(msg, from, 0),
    }
}

// The work: the element at a place of a slice.
pub fn element_at(msg: &[u8], at: usize, request: bool) -> Element
    ensures { result ≡ element_at request msg.now at }
{
    if msg.len() <= at {
        return Element::End;
    }
    let id = msg[at];
    let layout = format_of(id);
    let lead = lead(layout, request);
    let len = contents(msg, at + 1, layout, request);
    let size = lead + len;
    if msg.len() - at < size {
        return Element::Bad(Fault::Past);
    }
    match layout {
        Layout::MustBeKnown => Element::Bad(Fault::Strange),
        _ => Element::At {
            id,
            start: at + lead,
            len,
            next: at + size,
        },
    }
}

#[tactic(auto, unfolding(crate::specs::Element::after_of))]
fn after(e: Element, at: usize) -> usize
    ensures { result ≡ after_of e at }
{
    match e {
        Element::At { next, .. } => next,
        _ => at,
    }
}

// A walker keeps the message and its place in one value, and steps over elements.
#[derive(Clone, Copy)]
pub struct Walker<'a> {
    pub msg: &'a [u8],
    pub at: usize,
}

// What a walker saw at its place, and the place that it stepped to.
#[derive(Clone, Copy, Debug, PartialEq, Eq)]
pub struct Walked {
    pub here: Element,
    pub next: usize,
}

impl<'a> Walker<'a> {
    pub fn open(msg: &'a [u8], at: usize) -> Walker<'a>
        ensures { (result.msg ≡ msg.entry) × (result.at ≡ at) }
    {
        Walker { msg, at }
    }

    pub fn look(self, request: bool) -> Element
        ensures { result ≡ element_at request self.entry.msg.now self.entry.at }
    {
        element_at(self.msg, self.at, request)
    }

    // Over the element that was looked at: it is not read again.
    pub fn pass(self, e: Element) -> Walker<'a>
        ensures { (result.msg ≡ self.entry.msg) × (result.at ≡ after_of e self.entry.at) }
    {
        Walker {
            msg: self.msg,
            at: after(e, self.at),
        }
    }
}

// One step, with plain parameters: whoever calls it needs no walk by hand.
#[tactic(auto, unfolding(crate::specs::Element::walked_at))]
pub fn walk(msg: &[u8], at: usize, request: bool) -> Walked
    ensures { result ≡ walked_at request msg.now at }
{
    let w = Walker::open(msg, at);
    let here = w.look(request);
    Walked {
        here,
        next: w.pass(here).at,
    }
}

// What is held of what is wanted, behind one element more.
#[tactic(auto, unfolding(crate::specs::Element::wanted_of, crate::specs::Element::first_of))]
fn kept(held: Option<Part>, wanted: Option<u8>, id: u8, start: usize, len: usize) -> Option<Part>
    ensures { result ≡ option_or held (wanted_of wanted (element id start len over)) }
{
    match (held, wanted) {
        (None, Some(x)) if id == x => Some(Part { start, len }),
        _ => held,
    }
}

// Whether what is wanted has no identifier of one octet: an element of one octet then changes nothing.
#[tactic(auto, unfolding(crate::specs::Element::wanted_of, crate::specs::Element::first_of))]
fn low(wanted: Option<u8>) -> bool
    ensures { result ≡ true → (i b n : ℕ) (l : Elements) → 128 ≤ i → wanted_of wanted (element i b n l) ≡ wanted_of wanted l }
{
    match wanted {
        None => true,
        Some(x) => x < 128,
    }
}

// The same of all four.
fn plain(x: Option<u8>, y: Option<u8>, z: Option<u8>, u: Option<u8>) -> bool
    ensures { result ≡ true → (i b n : ℕ) (l : Elements) → 128 ≤ i → gather_of x y z u (element i b n l) ≡ gather_of x y z u l }
{
    low(x) && low(y) && low(z) && low(u)
}

// Past the elements of one octet at a place, where they change nothing: a message can be full of them. Not inlined: among a caller's numbers its loop takes 7 instructions for 5.
#[inline(never)]
fn skipped(
    msg: &[u8],
    from: usize,
    x: Option<u8>,
    y: Option<u8>,
    z: Option<u8>,
    u: Option<u8>,
) -> usize
    ensures { (from ≤ result) × ((request : Bool) → gather_of x y z u (elements_from request msg.now result) ≡ gather_of x y z u (elements_from request msg.now from)) }
{
    if !plain(x, y, z, u) {
        return from;
    }
    for at in from..msg.len() {
        if msg[at] < 128 {
            return at;
        }
    }
    from.max(msg.len())
}

// How the elements end, and the first ones with the identifiers x, y, z and u, in one pass.
// Kept: no plainer, an array of four would have places 0 to 3 for what has names.
pub fn gather(
    msg: &[u8],
    from: usize,
    request: bool,
    x: Option<u8>,
    y: Option<u8>,
    z: Option<u8>,
    u: Option<u8>,
) -> Gathered
    ensures { result ≡ gather_of x y z u (elements_from request msg.now from) }
{
    let mut g = Gathered {
        end: Ok(()),
        first: None,
        second: None,
        third: None,
        fourth: None,
    };
    let mut at = from;
    // Kept: no plainer, nothing is counted: the message itself says where its next element begins.
    loop {
        let place = skipped(msg, at, x, y, z, u);
        let w = walk(msg, place, request);
        match w.here {
            Element::End => return g,
            Element::Bad(fault) => {
                g.end = Err(Malformed { fault, at: place });
                return g;
            }
            Element::At { id, start, len, .. } => {
                g.first = kept(g.first, x, id, start, len);
                g.second = kept(g.second, y, id, start, len);
                g.third = kept(g.third, z, id, start, len);
                g.fourth = kept(g.fourth, u, id, start, len);
                at = w.next;
            }
        }
    }
}
