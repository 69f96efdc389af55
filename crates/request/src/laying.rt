// A request's octets laid into a lent buffer, piece behind piece.
// Kept: a buffer and a place in it, from piece to piece: the C interface lends it, fixed memory.
ghost use Rattle.std.specs.Prelude.{◌≡◌, ◌++◌, ◌+◌, ◌≤◌, ◌<◌, length};
ghost use Rattle.request.specs.Layout.{with_lead, item_octets, opening_head, opening, octets_of, clear};
ghost use Rattle.request.specs.Layout.Form.{short_form, long_form, plain_form};
ghost use Rattle.laws.specs.Splice.{Put};
ghost use Rattle.request.specs.Steps.{said, tail_octets, front_octets, rear_octets, sized_of, Small};

// What a request says, each piece lent; one of no octets is none.
#[derive(Clone, Copy)]
pub(crate) struct Saying<'a> {
    pub regtype: u8,
    pub ksi: u8,
    pub identity: &'a [u8],
    pub capability: &'a [u8],
    pub security: &'a [u8],
    pub last: &'a [u8],
    pub uplink: &'a [u8],
    pub sessions: &'a [u8],
    pub additional: &'a [u8],
    pub status: &'a [u8],
    pub attach: &'a [u8],
}

// Octets from a place on; the place behind them is handed back.
pub(crate) fn put(buffer: &mut [u8], at: usize, src: &[u8]) -> usize
    requires { at + length src.now ≤ length buffer.old }
    ensures { Put buffer.old at src.now buffer.new result }
{
    let end = at + src.len();
    buffer[at..end].copy_from_slice(src);
    end
}

// An element behind its lead, or nothing where it has no contents.
pub(crate) fn item(buffer: &mut [u8], at: usize, lead: &[u8], src: &[u8]) -> usize
    requires { at + length (with_lead lead.now src.now) ≤ length buffer.old }
    ensures { Put buffer.old at (with_lead lead.now src.now) buffer.new result }
{
    if src.is_empty() {
        return at;
    }
    let from = put(buffer, at, lead);
    put(buffer, from, src)
}

// With a one-octet length.
fn short(buffer: &mut [u8], at: usize, id: u8, src: &[u8]) -> usize
    requires { (length src.now < 256) × (at + length (item_octets short_form id src.now) ≤ length buffer.old) }
    ensures { Put buffer.old at (item_octets short_form id src.now) buffer.new result }
{
    let lead = [id, src.len() as u8];
    item(buffer, at, &lead, src)
}

// With a two-octet length, the high octet first.
fn long(buffer: &mut [u8], at: usize, id: u8, src: &[u8]) -> usize
    requires { (length src.now < 65536) × (at + length (item_octets long_form id src.now) ≤ length buffer.old) }
    ensures { Put buffer.old at (item_octets long_form id src.now) buffer.new result }
{
    let [high, low] = (src.len() as u16).to_be_bytes();
    let lead = [id, high, low];
    item(buffer, at, &lead, src)
}

// Without a length.
fn plain(buffer: &mut [u8], at: usize, id: u8, src: &[u8]) -> usize
    requires { at + length (item_octets plain_form id src.now) ≤ length buffer.old }
    ensures { Put buffer.old at (item_octets plain_form id src.now) buffer.new result }
{
    let lead = [id];
    item(buffer, at, &lead, src)
}

fn head(regtype: u8, ksi: u8, n: usize) -> [u8; 6]
    requires { (regtype ≤ 3) × ((ksi ≤ 7) × (n ≤ 64)) }
    ensures { result ≡ opening_head regtype ksi n }
{
    let [high, low] = (n as u16).to_be_bytes();
    [0x7E, 0x00, 0x41, ksi * 16 + regtype, high, low]
}

// How many octets an element of n octets takes behind a lead of k; one of none is left out.
fn sized(k: usize, n: usize) -> usize
    requires { (k ≤ 3) × (n ≤ 65000) }
    ensures { result ≡ sized_of k n }
{
    if n == 0 { 0 } else { k + n }
}

impl<'a> Saying<'a> {
    // How many octets the request has.
    pub(crate) fn size(self) -> usize
        requires { Small (said self) }
        ensures { result ≡ length (octets_of (said self.entry)) }
    {
        6 + self.identity.len()
            + sized(2, self.capability.len())
            + sized(2, self.security.len())
            + sized(1, self.last.len())
            + sized(2, self.uplink.len())
            + sized(2, self.sessions.len())
            + sized(3, self.additional.len())
            + sized(2, self.status.len())
            + sized(3, self.attach.len())
    }

    // The head, then the identity.
    fn begin(self, buffer: &mut [u8], at: usize) -> usize
        requires { Small (said self) × (at + length (opening (said self)) ≤ length buffer.old) }
        ensures { Put buffer.old at (opening (said self.entry)) buffer.new result }
    {
        let head = head(self.regtype, self.ksi, self.identity.len());
        let from = put(buffer, at, &head);
        put(buffer, from, self.identity)
    }

    // What stands before 77: the opening, then an element a line.
    fn front(self, buffer: &mut [u8], at: usize) -> usize
        requires { Small (said self) × (at + length (front_octets (said self)) ≤ length buffer.old) }
        ensures { Put buffer.old at (front_octets (said self.entry)) buffer.new result }
    {
        let at = self.begin(buffer, at);
        let at = short(buffer, at, 0x10, self.capability);
        let at = short(buffer, at, 0x2E, self.security);
        self.tail(buffer, at)
    }

    // 52, 40 and 50.
    fn tail(self, buffer: &mut [u8], at: usize) -> usize
        requires { Small (said self) × (at + length (tail_octets (said self)) ≤ length buffer.old) }
        ensures { Put buffer.old at (tail_octets (said self.entry)) buffer.new result }
    {
        let at = plain(buffer, at, 0x52, self.last);
        let at = short(buffer, at, 0x40, self.uplink);
        short(buffer, at, 0x50, self.sessions)
    }

    // 77, 2B and 70.
    fn rear(self, buffer: &mut [u8], at: usize) -> usize
        requires { Small (said self) × (at + length (rear_octets (said self)) ≤ length buffer.old) }
        ensures { Put buffer.old at (rear_octets (said self.entry)) buffer.new result }
    {
        let at = long(buffer, at, 0x77, self.additional);
        let at = short(buffer, at, 0x2B, self.status);
        long(buffer, at, 0x70, self.attach)
    }

    // The request at a place of the buffer.
    pub(crate) fn lay(self, buffer: &mut [u8], at: usize) -> usize
        requires { Small (said self) × (at + length (octets_of (said self)) ≤ length buffer.old) }
        ensures { Put buffer.old at (octets_of (said self.entry)) buffer.new result }
    {
        let at = self.front(buffer, at);
        self.rear(buffer, at)
    }

    // What is said in the clear.
    pub(crate) fn clear(self) -> Saying<'a>
        ensures { said result ≡ clear (said self.entry) }
    {
        Saying {
            capability: &[],
            last: &[],
            uplink: &[],
            sessions: &[],
            ..self
        }
    }
}
