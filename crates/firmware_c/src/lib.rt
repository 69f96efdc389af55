// The C calls: each is the call of `firmware` with its name, under C's calling convention, so that the library beside them stays one for other crates.
#![tactic(auto)]

ghost use Rattle.std.specs.Prelude.{◌≡◌, [], length};
ghost use Rattle.request.specs.Writing.{no_s1, buffer_of};
ghost use Rattle.cells.specs.Cells.{list_of};
ghost use Rattle.usim.specs.Usim.{file_after};
ghost use Rattle.messages.specs.Message.{cause_reading, cause_of, timer_seconds};
ghost use Rattle.timers.specs.Timer.{span2_of};
ghost use Rattle.firmware.specs.Calls.{new_of, heard_as, wrote_of, wrote_from_s1, picked_of, filed_of, version};
ghost use Rattle.deadlines.specs.Waiting.{wait_of};
ghost use Rattle.rounds.specs.Round.{words_after};
ghost use Rattle.firmware.specs.Clock.{armed_by, sought_in, passed_of};
ghost use Rattle.image.specs.Image.{saved_over};
ghost use Rattle.firmware.specs.Storage.{saved_of, regained_of};

use deadlines::Table;
use firmware::Notice;
use identity::S1;
use record::Record;

// A new record; a refusal leaves the one that was there.
#[unsafe(no_mangle)]
pub extern "C" fn tjernfaug_new(
    r: &mut Record,
    cardlimit: u8,
    banlimit: u8,
    n1limit: u8,
    capability: &[u8],
    security: &[u8],
) -> u32
    ensures { (result ≡ (new_of r.old cardlimit banlimit n1limit capability.now security.now).answer) × (r.new ≡ (new_of r.old cardlimit banlimit n1limit capability.now security.now).next) }
{
    firmware::tjernfaug_new(r, cardlimit, banlimit, n1limit, capability, security)
}

// An event as the event log has it: its kind and its body.
#[unsafe(no_mangle)]
pub extern "C" fn tjernfaug_event(
    r: &mut Record,
    kind: u32,
    body: &[u8],
    notice: &mut Notice,
) -> u32
    ensures { (result ≡ (heard_as r.old kind body.now).answer) × ((r.new ≡ (heard_as r.old kind body.now).next) × (notice.new ≡ (heard_as r.old kind body.now).notice)) }
{
    firmware::tjernfaug_event(r, kind, body, notice)
}

// The registration request of an access, written to the buffer's front.
#[unsafe(no_mangle)]
pub extern "C" fn tjernfaug_request(r: &Record, access: u8, buffer: &mut [u8]) -> u32
    ensures { (result ≡ wrote_of r.now access (length buffer.old)) × (buffer.new ≡ buffer_of r.now access no_s1 [] buffer.old) }
{
    firmware::tjernfaug_request(r, access, buffer)
}

// The same of a device that comes from 4G: the length is stored, 0 with a refusal, and the answer given back.
#[unsafe(no_mangle)]
pub extern "C" fn tjernfaug_request_from_s1(
    r: &Record,
    access: u8,
    s1: &S1,
    attach: &[u8],
    buffer: &mut [u8],
    written: &mut u64,
) -> u32
    ensures { (result ≡ (wrote_from_s1 r.now access s1.now attach.now (length buffer.old)).answer) × ((buffer.new ≡ buffer_of r.now access s1.now attach.now buffer.old) × (written.new ≡ (wrote_from_s1 r.now access s1.now attach.now (length buffer.old)).len)) }
{
    firmware::tjernfaug_request_from_s1(r, access, s1, attach, buffer, written)
}

// Of the networks heard those that may be tried over an access, written to the list's front.
#[unsafe(no_mangle)]
pub extern "C" fn tjernfaug_cells(
    r: &Record,
    access: u8,
    heard: &[u32],
    permitted: &mut [u32],
) -> u32
    ensures { (result ≡ picked_of r.now access heard.now (length permitted.old)) × (permitted.new ≡ list_of r.now access heard.now permitted.old) }
{
    firmware::tjernfaug_cells(r, access, heard, permitted)
}

// The card's file of forbidden networks, those of access 0, and FF behind them.
#[unsafe(no_mangle)]
pub extern "C" fn tjernfaug_forbidden(r: &Record, file: &mut [u8]) -> u32
    ensures { (result ≡ filed_of r.now (length file.old)) × (file.new ≡ file_after r.now file.old) }
{
    firmware::tjernfaug_forbidden(r, file)
}

// The two readings by themselves, so that one library has all calls.
#[unsafe(no_mangle)]
pub extern "C" fn reject_cause(msg: &[u8]) -> u32
    ensures { result ≡ cause_of (cause_reading msg.now) }
{
    firmware::reject_cause(msg)
}

#[unsafe(no_mangle)]
pub extern "C" fn timer_seconds(octet: u8) -> u32
    ensures { result ≡ timer_seconds (span2_of octet) }
{
    firmware::timer_seconds(octet)
}

// The version that the library was made as, to be held against the header's.
#[unsafe(no_mangle)]
pub extern "C" fn tjernfaug_version() -> u32
    ensures { result ≡ version }
{
    firmware::tjernfaug_version()
}

// Each timer that the notice tells of gets its deadline, or loses it.
#[unsafe(no_mangle)]
pub extern "C" fn tjernfaug_arm(t: &mut Table, time: u32, notice: &Notice) -> u32
    ensures { (result ≡ (armed_by t.old time notice.now).answer) × (t.new ≡ (armed_by t.old time notice.now).next) }
{
    firmware::tjernfaug_arm(t, time, notice)
}

// The slot of the timer due, 10 if none is.
#[unsafe(no_mangle)]
pub extern "C" fn tjernfaug_ask(t: &mut Table, time: u32) -> u32
    ensures { (result ≡ (sought_in t.old time).slot) × (t.new ≡ (sought_in t.old time).next) }
{
    firmware::tjernfaug_ask(t, time)
}

// An asking round: the due timers run out one after the other, and each is handed out with its notice.
#[unsafe(no_mangle)]
pub extern "C" fn tjernfaug_round(
    r: &mut Record,
    t: &mut Table,
    time: u32,
    words: &mut [u32],
) -> u32
    ensures { (result ≡ (passed_of r.old t.old time (length words.old)).count) × ((r.new ≡ (passed_of r.old t.old time (length words.old)).next) × ((t.new ≡ (passed_of r.old t.old time (length words.old)).table) × (words.new ≡ words_after r.old t.old time words.old))) }
{
    firmware::tjernfaug_round(r, t, time, words)
}

// For how many milliseconds firmware may sleep after a round until the next one, 600,000 at most.
#[unsafe(no_mangle)]
pub extern "C" fn tjernfaug_wait(t: &Table, time: u32) -> u32
    ensures { result ≡ wait_of time t.now }
{
    firmware::tjernfaug_wait(t, time)
}

// The image of record, table and serial, written to the buffer's front.
#[unsafe(no_mangle)]
pub extern "C" fn tjernfaug_save(r: &Record, t: &Table, serial: u32, buffer: &mut [u8]) -> u32
    ensures { (result ≡ saved_of r.now (length buffer.old)) × (buffer.new ≡ saved_over serial r.now t.now buffer.old) }
{
    firmware::tjernfaug_save(r, t, serial, buffer)
}

// What the octets' image holds; a refusal leaves all that is lent.
#[unsafe(no_mangle)]
pub extern "C" fn tjernfaug_load(
    r: &mut Record,
    t: &mut Table,
    serial: &mut u32,
    octets: &[u8],
) -> u32
    ensures { (result ≡ (regained_of r.old t.old serial.old octets.now).answer) × ((r.new ≡ (regained_of r.old t.old serial.old octets.now).next) × ((t.new ≡ (regained_of r.old t.old serial.old octets.now).table) × (serial.new ≡ (regained_of r.old t.old serial.old octets.now).serial))) }
{
    firmware::tjernfaug_load(r, t, serial, octets)
}
