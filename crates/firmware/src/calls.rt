// The calls that C firmware makes.
ghost use Rattle.std.specs.Prelude.{◌≡◌, [], ◌≤◌, length, IfOk};
ghost use Rattle.request.specs.Writing.{no_s1, buffer_of};
ghost use Rattle.cells.specs.Cells.{list_of};
ghost use Rattle.usim.specs.Usim.{file_after};
ghost use Rattle.messages.specs.Message.{cause_reading, cause_of, timer_seconds};
ghost use Rattle.timers.specs.Timer.{span2_of};
ghost use Rattle.firmware.specs.Calls.{new_of, heard_as, number_in, wrote_of, wrote_from_s1, picked_of, filed_of, version};

use crate::{Notice, handle};
use identity::S1;
use record::{Answer, Record};

// What is counted is below 256, so a refusal is told from it.
pub(crate) fn counted(n: Result<usize, Answer>) -> u32
    requires { IfOk n (λ count. count ≤ 255) }
    ensures { result ≡ number_in n }
{
    match n {
        Ok(count) => count as u32,
        Err(a) => 256 + u32::from(record::number(a)),
    }
}

// A new record; a refusal leaves the one that was there.
#[tactic(auto, unfolding(crate::specs::Calls::new_of, crate::specs::Calls::new_by))]
pub fn tjernfaug_new(
    r: &mut Record,
    cardlimit: u8,
    banlimit: u8,
    n1limit: u8,
    capability: &[u8],
    security: &[u8],
) -> u32
    ensures { (result ≡ (new_of r.old cardlimit banlimit n1limit capability.now security.now).answer) × (r.new ≡ (new_of r.old cardlimit banlimit n1limit capability.now security.now).next) }
{
    let m = record::fresh(cardlimit, banlimit, n1limit, capability, security);
    if record::taken(m.answer) {
        *r = m.made;
    }
    u32::from(record::number(m.answer))
}

// An event as the event log has it: its kind and its body.
#[tactic(auto, unfolding(crate::specs::Calls::heard_as, crate::specs::Calls::heard_by))]
pub fn tjernfaug_event(r: &mut Record, kind: u32, body: &[u8], notice: &mut Notice) -> u32
    ensures { (result ≡ (heard_as r.old kind body.now).answer) × ((r.new ≡ (heard_as r.old kind body.now).next) × (notice.new ≡ (heard_as r.old kind body.now).notice)) }
{
    let before = *r;
    let reply = handle(r, eventlog::event(kind, body), eventlog::octets(kind, body));
    let changed = u32::from(!image::same(&before, r));
    *notice = Notice::of(changed, reply);
    u32::from(record::number(reply.answer))
}

// The registration request of an access, written to the buffer's front.
#[tactic(auto, unfolding(crate::specs::Calls::wrote_of, crate::specs::Calls::wrote_by))]
pub fn tjernfaug_request(r: &Record, access: u8, buffer: &mut [u8]) -> u32
    ensures { (result ≡ wrote_of r.now access (length buffer.old)) × (buffer.new ≡ buffer_of r.now access no_s1 [] buffer.old) }
{
    counted(request::write(r, access, request::no_s1(), &[], buffer))
}

// The same of a device that comes from 4G: the length is stored, 0 with a refusal, and the answer given back.
#[tactic(auto, unfolding(crate::specs::Calls::wrote_from_s1, crate::specs::Calls::wrote_apart))]
pub fn tjernfaug_request_from_s1(
    r: &Record,
    access: u8,
    s1: &S1,
    attach: &[u8],
    buffer: &mut [u8],
    written: &mut u64,
) -> u32
    ensures { (result ≡ (wrote_from_s1 r.now access s1.now attach.now (length buffer.old)).answer) × ((buffer.new ≡ buffer_of r.now access s1.now attach.now buffer.old) × (written.new ≡ (wrote_from_s1 r.now access s1.now attach.now (length buffer.old)).len)) }
{
    match request::write(r, access, *s1, attach, buffer) {
        Ok(len) => {
            *written = len as u64;
            0
        }
        Err(a) => {
            *written = 0;
            u32::from(record::number(a))
        }
    }
}

// Of the networks heard those that may be tried over an access, written to the list's front.
#[tactic(auto, unfolding(crate::specs::Calls::picked_of, crate::specs::Calls::picked_by))]
pub fn tjernfaug_cells(r: &Record, access: u8, heard: &[u32], permitted: &mut [u32]) -> u32
    ensures { (result ≡ picked_of r.now access heard.now (length permitted.old)) × (permitted.new ≡ list_of r.now access heard.now permitted.old) }
{
    counted(cells::permitted(r, access, heard, permitted))
}

// The card's file of forbidden networks, those of access 0, and FF behind them.
#[tactic(auto, unfolding(crate::specs::Calls::filed_of, crate::specs::Calls::filed_by))]
pub fn tjernfaug_forbidden(r: &Record, file: &mut [u8]) -> u32
    ensures { (result ≡ filed_of r.now (length file.old)) × (file.new ≡ file_after r.now file.old) }
{
    counted(usim::write(r, file))
}

// The two readings by themselves, so that one library has all calls.
pub fn reject_cause(msg: &[u8]) -> u32
    ensures { result ≡ cause_of (cause_reading msg.now) }
{
    messages::reject_cause(msg)
}

pub fn timer_seconds(octet: u8) -> u32
    ensures { result ≡ timer_seconds (span2_of octet) }
{
    messages::timer_seconds(octet)
}

// The version that the library was made as, to be held against the header's.
pub fn tjernfaug_version() -> u32
    ensures { result ≡ version }
{
    1200
}
