// The sending of a request: its clear part, or that and the whole request in a container, if the buffer has room.
ghost use Rattle.std.specs.Prelude.{◌≡◌, ◌≤◌, length};
ghost use Rattle.request.specs.Layout.{octets_of, clear, nested, layout};
ghost use Rattle.laws.specs.Splice.{Put};
ghost use Rattle.request.specs.Steps.{said, sent_of, sent_over, Small};

use crate::laying::{Saying, put};
use record::Answer;

impl<'a> Saying<'a> {
    // The request alone, if the buffer has room for it.
    fn bare(self, buffer: &mut [u8]) -> Result<usize, Answer>
        requires { Small (said self) }
        ensures value { result ≡ sent_of (octets_of (said self.entry)) (length buffer.old) }
        ensures buffer_after { buffer.new ≡ sent_over (octets_of (said self.entry)) buffer.old }
    {
        let len = self.size();
        if buffer.len() < len {
            return Err(Answer::Short);
        }
        self.lay(buffer, 0);
        Ok(len)
    }

    // The clear part, then 71 with the whole request in it, of which there are so many octets.
    fn nest(self, buffer: &mut [u8], whole: usize) -> usize
        requires { Small (said self) × ((whole ≡ length (octets_of (said self))) × (length (nested 1 (said self)) ≤ length buffer.old)) }
        ensures { Put buffer.old 0 (nested 1 (said self.entry)) buffer.new result }
    {
        let at = self.clear().lay(buffer, 0);
        let [high, low] = (whole as u16).to_be_bytes();
        let lead = [0x71, high, low];
        let at = put(buffer, at, &lead);
        self.lay(buffer, at)
    }

    // Both, if the buffer has room for them.
    fn enclose(self, buffer: &mut [u8]) -> Result<usize, Answer>
        requires { Small (said self) }
        ensures value { result ≡ sent_of (nested 1 (said self.entry)) (length buffer.old) }
        ensures buffer_after { buffer.new ≡ sent_over (nested 1 (said self.entry)) buffer.old }
    {
        let whole = self.size();
        let len = self.clear().size() + 3 + whole;
        if buffer.len() < len {
            return Err(Answer::Short);
        }
        self.nest(buffer, whole);
        Ok(len)
    }

    // With ngKSI 7 the clear part alone, else the whole request in a container behind it.
    pub(crate) fn send(self, buffer: &mut [u8]) -> Result<usize, Answer>
        requires { Small (said self) }
        ensures value { result ≡ sent_of (layout (said self.entry)) (length buffer.old) }
        ensures buffer_after { buffer.new ≡ sent_over (layout (said self.entry)) buffer.old }
    {
        if self.ksi == 7 {
            self.clear().bare(buffer)
        } else {
            self.enclose(buffer)
        }
    }
}
