// What the arguments ask for: a network, an access, and whether after each event.
ghost use Rattle.std.specs.Prelude.{◌≤◌, length, IfSome};

use std::env::FillError;
use std::rt::Env;

// What has the form may still be no network code or no access.
#[derive(Clone, Copy)]
pub(crate) struct Question {
    pub(crate) net: u32,
    pub(crate) access: u8,
    pub(crate) each: bool,
}

fn decimal(c: u8) -> Option<u32> {
    char::from(c).to_digit(10)
}

fn hex(c: u8) -> Option<u32> {
    char::from(c).to_digit(16)
}

// The six octets of a network, or MCC-MNC, where the third digit of the MNC stands behind the first two of the MCC; in the order of the network's octets.
fn network(word: &[u8]) -> Option<u32> {
    let digits = match word {
        [a, b, c, b'-', d, e] => [
            decimal(*b)?,
            decimal(*a)?,
            15,
            decimal(*c)?,
            decimal(*e)?,
            decimal(*d)?,
        ],
        [a, b, c, b'-', d, e, f] => [
            decimal(*b)?,
            decimal(*a)?,
            decimal(*f)?,
            decimal(*c)?,
            decimal(*e)?,
            decimal(*d)?,
        ],
        [a, b, c, d, e, f] => [hex(*a)?, hex(*b)?, hex(*c)?, hex(*d)?, hex(*e)?, hex(*f)?],
        _ => return None,
    };
    let mut net: u32 = 0;
    for digit in digits {
        net = net << 4 | digit;
    }
    Some(net)
}

// One digit.
fn access(word: &[u8]) -> Option<u8> {
    match word {
        [c] => u8::try_from(decimal(*c)?).ok(),
        _ => None,
    }
}

// An argument, put at the start of the word; a longer one is none.
fn arg<'a>(rt: &impl Env, i: usize, word: &'a mut [u8; 8]) -> Option<&'a [u8]>
    ensures { IfSome result (λ s. length s.now ≤ 8) }
{
    let n = rt.arg(i, word).ok()?;
    word.get(..n)
}

fn is_missing(rt: &impl Env, i: usize) -> bool {
    let mut word = [0u8; 8];
    matches!(rt.arg(i, &mut word), Err(FillError::NotPresent))
}

// With the program's own name three words, or four with `each`.
pub(crate) fn asked(rt: &impl Env) -> Option<Question> {
    let mut word = [0u8; 8];
    let net = network(arg(rt, 1, &mut word)?)?;
    let access = access(arg(rt, 2, &mut word)?)?;
    let each = !is_missing(rt, 3);
    if each && (arg(rt, 3, &mut word)? != b"each".as_slice() || !is_missing(rt, 4)) {
        return None;
    }
    Some(Question { net, access, each })
}
