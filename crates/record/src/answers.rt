// The reply numbers.
ghost use Rattle.std.specs.Prelude.{◌≡◌};
ghost use Rattle.record.specs.Answers.{number_of, is_taken, fault_offset};

use crate::Answer;

// Kept: what may not change, `number` promises `number_of`; a `From` would hold the same match.
#[tactic(auto, unfolding(crate::specs::Answers::number_of))]
pub fn number(a: Answer) -> u8
    ensures { result ≡ number_of a }
{
    match a {
        Answer::Taken => 0,
        Answer::Range => 1,
        Answer::Ignored => 2,
        Answer::Malformed(f, _) => messages::number(f),
        Answer::Full => 4,
        Answer::StateZero => 5,
        Answer::State => 6,
        Answer::Same => 7,
        Answer::Listed => 8,
        Answer::Area => 9,
        Answer::Unprotected => 10,
        Answer::Idle => 11,
        Answer::Short => 12,
        Answer::Waiting => 20,
    }
}

pub fn taken(a: Answer) -> bool
    ensures { result ≡ is_taken a }
{
    matches!(a, Answer::Taken)
}

// The offset of the octet at fault, in the message; 0 where the answer is no fault's.
pub fn offset(a: Answer) -> usize
    ensures { result ≡ fault_offset a }
{
    match a {
        Answer::Malformed(_, at) => at,
        _ => 0,
    }
}
