// The parts of a record and of a table, their columns read from octets at their places.
ghost use Rattle.std.specs.Prelude.{◌≡◌, ◌+◌, ◌≤◌, length};
ghost use Rattle.image.specs.Layout.{device_at, access_at, hot_at, entries_at, record_at, table_at};

use crate::columns::column;
use deadlines::Table;
use entries::Entries;
use record::{Access, Device, Hot, Record};

#[tactic(auto, unfolding(crate::specs::Layout::device_at, crate::specs::Layout::device_from))]
fn device(s: &[u8], at: usize) -> Device
    requires { at + 21 ≤ length s.now }
    ensures { result ≡ device_at s.now at }
{
    let w: [u32; 2] = column(s, at);
    let o: [u8; 13] = column(s, at + 8);
    Device {
        home: w[0],
        t3512length: w[1],
        card: o[0],
        suci: o[1],
        cardlimit: o[2],
        banlimit: o[3],
        n1limit: o[4],
        t3247: o[5],
        t3512: o[6],
        due: o[7],
        capability: o[8],
        security: o[9],
        roaming: o[10],
        regional: o[11],
        edition: o[12],
    }
}

#[tactic(auto, unfolding(crate::specs::Layout::access_at, crate::specs::Layout::access_from))]
fn access(s: &[u8], at: usize) -> Access
    requires { at + 36 ≤ length s.now }
    ensures { result ≡ access_at s.now at }
{
    let w: [u32; 4] = column(s, at);
    let p: [u16; 3] = column(s, at + 16);
    let o: [u8; 14] = column(s, at + 22);
    Access {
        net: w[0],
        code: w[1],
        lastnet: w[2],
        lastcode: w[3],
        t3502length: p[0],
        uplink: p[1],
        sessions: p[2],
        state: o[0],
        status: o[1],
        attempts: o[2],
        cardcounter: o[3],
        t3510: o[4],
        t3511: o[5],
        t3502: o[6],
        guti: o[7],
        visited: o[8],
        ksi: o[9],
        equivalents: o[10],
        entries: o[11],
        regtype: o[12],
        t3346: o[13],
    }
}

#[tactic(auto, unfolding(crate::specs::Layout::hot_at))]
fn hot(s: &[u8]) -> Hot
    requires { 1392 ≤ length s.now }
    ensures { result ≡ hot_at s.now }
{
    Hot {
        dev: device(s, 12),
        a0: access(s, 33),
        a1: access(s, 69),
    }
}

#[tactic(auto, unfolding(crate::specs::Layout::entries_at))]
fn entries_at(s: &[u8], at: usize) -> Entries
    requires { at + 144 ≤ length s.now }
    ensures { result ≡ entries_at s.now at }
{
    Entries {
        nets: column(s, at),
        bans: column(s, at + 64),
        n1s: column(s, at + 80),
        forbidden: column(s, at + 96),
        barred: column(s, at + 112),
        ranks: column(s, at + 128),
    }
}

#[tactic(auto, unfolding(crate::specs::Layout::record_at))]
pub(crate) fn record_at(s: &[u8]) -> Record
    requires { 1392 ≤ length s.now }
    ensures { result ≡ record_at s.now }
{
    Record {
        hot: hot(s),
        e0: entries_at(s, 105),
        e1: entries_at(s, 249),
        roaming: column(s, 393),
        regional: column(s, 713),
        guti0: column(s, 1033),
        guti1: column(s, 1043),
        equivalents0: column(s, 1053),
        equivalents1: column(s, 1113),
        suci: column(s, 1173),
        capability: column(s, 1237),
        security: column(s, 1250),
    }
}

#[tactic(auto, unfolding(crate::specs::Layout::table_at))]
pub(crate) fn table_at(s: &[u8]) -> Table
    requires { 1392 ≤ length s.now }
    ensures { result ≡ table_at s.now }
{
    Table {
        rests: column(s, 1258),
        ends: column(s, 1338),
        held: column(s, 1378),
    }
}
