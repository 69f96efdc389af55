// The networks that access 0 forbids, written as the card's file has them: three octets each, in entry order, then FF to the end.
#![tactic(auto)]

ghost use Rattle.std.specs.Prelude.{◌≡◌, [], ◌++◌, ◌+◌, ◌*◌, ◌-◌, ◌/◌, ◌%◌, ◌<◌, ◌≤◌, length, set, take, replicate};
ghost use Rattle.laws.specs.Upto.{over};
ghost use Rattle.networks.specs.Networks.{octets_of};
ghost use Rattle.usim.specs.Usim as usim;

use record::{Answer, Record};

// How many of the first n are marked.
fn marked(n: usize, forbidden: &[u8; 16]) -> usize
    requires { n ≤ 16 }
    ensures value { result ≡ length (usim.marked_to n [] forbidden.now) }
    ensures upper_bound { result ≤ n }
{
    forbidden[..n].iter().filter(|&&mark| mark != 0).count()
}

// A network's three octets, the first one highest.
fn lay(net: u32, file: &mut [u8], at: usize)
    requires { at + 2 < length file.old }
    ensures { file.new ≡ set (set (set file.old at (net / 65536 % 256)) (at + 1) (net / 256 % 256)) (at + 2) (net % 256) }
{
    file[at] = (net / 65536 % 256) as u8;
    file[at + 1] = (net / 256 % 256) as u8;
    file[at + 2] = (net % 256) as u8;
}

fn list(n: usize, nets: &[u32; 16], marks: &[u8; 16], file: &mut [u8])
    requires { (n ≤ 16) × (length (usim.marked_to n nets.now marks.now) * 3 ≤ length file.old) }
    ensures { file.new ≡ over (octets_of (usim.marked_to n nets.now marks.now)) file.old }
{
    let mut at = 0;
    for i in 0..n {
        if marks[i] != 0 {
            lay(nets[i], file, at);
            at += 3;
        }
    }
}

fn pad(file: &mut [u8], from: usize)
    requires { from ≤ length file.old }
    ensures { file.new ≡ take from file.old ++ replicate (length file.old - from) 0xFF }
{
    file[from..].fill(0xFF);
}

#[tactic(auto, unfolding(crate::specs::Usim::may_write))]
fn may(r: &Record, n: usize) -> bool
    ensures { result ≡ usim.may_write r.now n }
{
    n % 3 == 0 && ranges::fits(r)
}

// Any record, any file; how many networks were written.
pub fn write(r: &Record, file: &mut [u8]) -> Result<usize, Answer>
    ensures value { result ≡ usim.listed_of r.now (length file.old) }
    ensures file_after { file.new ≡ usim.file_after r.now file.old }
{
    if !may(r, file.len()) {
        return Err(Answer::Range);
    }
    let n = entries::size(r.hot.a0.entries);
    let marks = &r.e0.forbidden;
    let count = marked(n, marks);
    if file.len() < count * 3 {
        return Err(Answer::Short);
    }
    list(n, &r.e0.nets, marks, file);
    pad(file, count * 3);
    Ok(count)
}
