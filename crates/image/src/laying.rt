// The parts of a record and of a table, their columns laid into a lent buffer one behind the other.
// Kept: a buffer and a place in it, from piece to piece: the C interface lends it, fixed memory.
ghost use Rattle.std.specs.Prelude.{◌≡◌, ◌+◌, ◌≤◌, length};
ghost use Rattle.laws.specs.Splice.{Put};
ghost use Rattle.image.specs.Numbers.{column_octets};
ghost use Rattle.image.specs.Layout.{device_words, device_octets, device_columns, access_words, access_pairs, access_octets, access_columns, hot_columns, entries_columns, area_columns, card_columns, record_columns, table_columns};

use crate::columns::lay_column;
use deadlines::Table;
use entries::Entries;
use record::{Access, Device, Hot, Record};

#[tactic(auto, unfolding(crate::specs::Layout::device_words))]
pub(crate) fn device_words(d: &Device) -> [u32; 2]
    ensures { result ≡ device_words d.now }
{
    [d.home, d.t3512length]
}

#[tactic(auto, unfolding(crate::specs::Layout::device_octets))]
pub(crate) fn device_octets(d: &Device) -> [u8; 13]
    ensures { result ≡ device_octets d.now }
{
    [
        d.card,
        d.suci,
        d.cardlimit,
        d.banlimit,
        d.n1limit,
        d.t3247,
        d.t3512,
        d.due,
        d.capability,
        d.security,
        d.roaming,
        d.regional,
        d.edition,
    ]
}

#[tactic(auto, unfolding(crate::specs::Layout::access_words))]
pub(crate) fn access_words(a: &Access) -> [u32; 4]
    ensures { result ≡ access_words a.now }
{
    [a.net, a.code, a.lastnet, a.lastcode]
}

#[tactic(auto, unfolding(crate::specs::Layout::access_pairs))]
pub(crate) fn access_pairs(a: &Access) -> [u16; 3]
    ensures { result ≡ access_pairs a.now }
{
    [a.t3502length, a.uplink, a.sessions]
}

#[tactic(auto, unfolding(crate::specs::Layout::access_octets))]
pub(crate) fn access_octets(a: &Access) -> [u8; 14]
    ensures { result ≡ access_octets a.now }
{
    [
        a.state,
        a.status,
        a.attempts,
        a.cardcounter,
        a.t3510,
        a.t3511,
        a.t3502,
        a.guti,
        a.visited,
        a.ksi,
        a.equivalents,
        a.entries,
        a.regtype,
        a.t3346,
    ]
}

fn lay_device(buffer: &mut [u8], at: usize, d: &Device) -> usize
    requires { at + 21 ≤ length buffer.old }
    ensures laid { Put buffer.old at (column_octets (device_columns d.now)) buffer.new result }
    ensures next { result ≡ at + 21 }
{
    let next = lay_column(buffer, at, &device_words(d));
    lay_column(buffer, next, &device_octets(d))
}

fn lay_access(buffer: &mut [u8], at: usize, a: &Access) -> usize
    requires { at + 36 ≤ length buffer.old }
    ensures laid { Put buffer.old at (column_octets (access_columns a.now)) buffer.new result }
    ensures next { result ≡ at + 36 }
{
    let next = lay_column(buffer, at, &access_words(a));
    let last = lay_column(buffer, next, &access_pairs(a));
    lay_column(buffer, last, &access_octets(a))
}

fn lay_hot(buffer: &mut [u8], at: usize, h: &Hot) -> usize
    requires { at + 93 ≤ length buffer.old }
    ensures laid { Put buffer.old at (column_octets (hot_columns h.now)) buffer.new result }
    ensures next { result ≡ at + 93 }
{
    let next = lay_device(buffer, at, &h.dev);
    let last = lay_access(buffer, next, &h.a0);
    lay_access(buffer, last, &h.a1)
}

fn lay_entries(buffer: &mut [u8], at: usize, t: &Entries) -> usize
    requires { at + 144 ≤ length buffer.old }
    ensures laid { Put buffer.old at (column_octets (entries_columns t.now)) buffer.new result }
    ensures next { result ≡ at + 144 }
{
    let a = lay_column(buffer, at, &t.nets);
    let b = lay_column(buffer, a, &t.bans);
    let c = lay_column(buffer, b, &t.n1s);
    let d = lay_column(buffer, c, &t.forbidden);
    let e = lay_column(buffer, d, &t.barred);
    lay_column(buffer, e, &t.ranks)
}

fn lay_areas(buffer: &mut [u8], at: usize, r: &Record) -> usize
    requires { at + 780 ≤ length buffer.old }
    ensures laid { Put buffer.old at (column_octets (area_columns r.now)) buffer.new result }
    ensures next { result ≡ at + 780 }
{
    let a = lay_column(buffer, at, &r.roaming);
    let b = lay_column(buffer, a, &r.regional);
    let c = lay_column(buffer, b, &r.guti0);
    let d = lay_column(buffer, c, &r.guti1);
    let e = lay_column(buffer, d, &r.equivalents0);
    lay_column(buffer, e, &r.equivalents1)
}

fn lay_card(buffer: &mut [u8], at: usize, r: &Record) -> usize
    requires { at + 85 ≤ length buffer.old }
    ensures laid { Put buffer.old at (column_octets (card_columns r.now)) buffer.new result }
    ensures next { result ≡ at + 85 }
{
    let a = lay_column(buffer, at, &r.suci);
    let b = lay_column(buffer, a, &r.capability);
    lay_column(buffer, b, &r.security)
}

pub(crate) fn lay_record(buffer: &mut [u8], at: usize, r: &Record) -> usize
    requires { at + 1246 ≤ length buffer.old }
    ensures laid { Put buffer.old at (column_octets (record_columns r.now)) buffer.new result }
    ensures next { result ≡ at + 1246 }
{
    let a = lay_hot(buffer, at, &r.hot);
    let b = lay_entries(buffer, a, &r.e0);
    let c = lay_entries(buffer, b, &r.e1);
    let d = lay_areas(buffer, c, r);
    lay_card(buffer, d, r)
}

pub(crate) fn lay_table(buffer: &mut [u8], at: usize, t: &Table) -> usize
    requires { at + 130 ≤ length buffer.old }
    ensures laid { Put buffer.old at (column_octets (table_columns t.now)) buffer.new result }
    ensures next { result ≡ at + 130 }
{
    let a = lay_column(buffer, at, &t.rests);
    let b = lay_column(buffer, a, &t.ends);
    lay_column(buffer, b, &t.held)
}
