// A new record, from limits and capabilities.
ghost use Rattle.std.specs.Prelude.{◌≡◌, ◌≤◌, [], ◌∷◌, length};
ghost use Rattle.laws.specs.Upto.{copied};
ghost use Rattle.entries.specs.Entries.{none};
ghost use Rattle.record.specs.New.{new_device, new_access, zeros, empty_record, new_record, may_make, made_of};

use crate::joins::ranged;
use crate::{Access, Answer, Device, Hot, Made, Record, U2};
use entries::Entries;

#[tactic(auto, unfolding(crate::specs::New::new_access))]
pub fn new_access(state: u8) -> Access
    ensures { result ≡ new_access state }
{
    Access {
        state,
        status: U2,
        attempts: 0,
        cardcounter: 0,
        t3510: 0,
        t3511: 0,
        t3502: 0,
        t3346: 0,
        t3502length: 720,
        net: 0,
        code: 0,
        regtype: 1,
        uplink: 0,
        sessions: 0,
        guti: 0,
        visited: 0,
        lastnet: 0,
        lastcode: 0,
        ksi: 7,
        equivalents: 0,
        entries: 0,
    }
}

#[tactic(auto, unfolding(crate::specs::New::new_device))]
fn device(cardlimit: u8, banlimit: u8, n1limit: u8, capability: u8, security: u8) -> Device
    ensures { result ≡ new_device cardlimit banlimit n1limit capability security }
{
    Device {
        card: 0,
        home: 0,
        t3512length: 3240,
        suci: 0,
        cardlimit,
        banlimit,
        n1limit,
        t3247: 0,
        t3512: 0,
        due: 0,
        capability,
        security,
        roaming: 0,
        regional: 0,
        edition: 1,
    }
}

#[tactic(auto, unfolding(entries::specs::Entries::none))]
fn blank() -> Entries
    ensures { result ≡ none }
{
    Entries {
        nets: [0; 16],
        bans: [0; 16],
        n1s: [0; 16],
        forbidden: [0; 16],
        barred: [0; 16],
        ranks: [0; 16],
    }
}

#[tactic(auto, unfolding(crate::specs::New::empty_record))]
pub fn empty(h: Hot, suci: [u8; 64], capability: [u8; 13], security: [u8; 8]) -> Record
    ensures { result ≡ empty_record h suci capability security }
{
    let e = blank();
    Record {
        hot: h,
        e0: e,
        e1: e,
        roaming: [0; 40],
        regional: [0; 40],
        guti0: [0; 10],
        guti1: [0; 10],
        equivalents0: [0; 15],
        equivalents1: [0; 15],
        suci,
        capability,
        security,
    }
}

// Octets, and zeros behind them.
fn padded<const N: usize>(s: &[u8]) -> [u8; N]
    requires { length s.now ≤ N }
    ensures { result ≡ copied (length s.now) s.now (zeros N) }
{
    let mut b = [0; N];
    b[..s.len()].copy_from_slice(s);
    b
}

#[tactic(auto, unfolding(crate::specs::New::may_make))]
fn may_make(cardlimit: u8, banlimit: u8, n1limit: u8, capability: usize, security: usize) -> bool
    ensures { result ≡ may_make cardlimit banlimit n1limit capability security }
{
    ranged(1, 10, cardlimit)
        && ranged(1, 10, banlimit)
        && ranged(1, 10, n1limit)
        && (1 <= capability && capability <= 13)
        && (2 <= security && security <= 8)
}

#[tactic(auto, unfolding(crate::specs::New::new_record))]
fn make(cardlimit: u8, banlimit: u8, n1limit: u8, capability: &[u8], security: &[u8]) -> Record
    requires { (length capability.now ≤ 13) × (length security.now ≤ 8) }
    ensures { result ≡ new_record cardlimit banlimit n1limit capability.now security.now }
{
    let capabilities = capability.len() as u8;
    let securities = security.len() as u8;
    let h = Hot {
        dev: device(cardlimit, banlimit, n1limit, capabilities, securities),
        a0: new_access(0),
        a1: new_access(0),
    };
    empty(h, [0; 64], padded(capability), padded(security))
}

// What comes with the answer to bad limits or capabilities: all of them as small as they may be.
fn smallest() -> Record
    ensures { result ≡ new_record 1 1 1 (0 ∷ []) (0 ∷ 0 ∷ []) }
{
    make(1, 1, 1, &[0], &[0, 0])
}

// Kept: five numbers and octets one by one: so C hands them over.
pub fn fresh(cardlimit: u8, banlimit: u8, n1limit: u8, capability: &[u8], security: &[u8]) -> Made
    ensures { result ≡ made_of cardlimit banlimit n1limit capability.now security.now }
{
    if may_make(
        cardlimit,
        banlimit,
        n1limit,
        capability.len(),
        security.len(),
    ) {
        let made = make(cardlimit, banlimit, n1limit, capability, security);
        return Made {
            answer: Answer::Taken,
            made,
        };
    }
    Made {
        answer: Answer::Range,
        made: smallest(),
    }
}
