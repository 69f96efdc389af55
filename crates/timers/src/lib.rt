// The timer octets: GPRS timer 2 and GPRS timer 3, each read by its table.
#![tactic(auto)]

ghost use Rattle.std.specs.Prelude.{◌≡◌, ◌≤◌, ◌%◌};
ghost use Rattle.timers.specs.Timer.{span_for, span2_of, span3_of};

// What a timer octet says: deactivated, zero, or so many seconds.
// Kept: no plainer, document 02 has these three cases (R-6), and T3502 and T3512 differ in which of them is absent.
#[derive(Clone, Copy, Debug, PartialEq, Eq)]
pub enum Span {
    Off,
    Zero,
    Seconds(u32),
}

// The tables, a number for each value of the top three bits: the seconds of one count, 0 for deactivated.
const UNITS2: [u32; 8] = [2, 60, 360, 60, 60, 60, 60, 0];

const UNITS3: [u32; 8] = [600, 3600, 36000, 2, 30, 60, 1152000, 0];

// What an octet says by the number of its row, which its top three bits tell: the low five are the count. The number and not the table goes in, which would be laid out anew each time.
fn span_by(unit: u32, octet: u8) -> Span
    requires { unit ≤ 1152000 }
    ensures { result ≡ span_for unit (octet % 32) }
{
    let count = u32::from(octet % 32);
    match (unit, count) {
        (0, _) => Span::Off,
        (_, 0) => Span::Zero,
        _ => Span::Seconds(count * unit),
    }
}

pub fn timer2(octet: u8) -> Span
    ensures { result ≡ span2_of octet }
{
    span_by(UNITS2[usize::from(octet / 32)], octet)
}

pub fn timer3(octet: u8) -> Span
    ensures { result ≡ span3_of octet }
{
    span_by(UNITS3[usize::from(octet / 32)], octet)
}
