// What is kept of a mark from one point to the next.
use chronicle::Account;

// Never set, or nothing since it was set; the event that lifted it last and the counter before it; the last event since it was set that might have lifted it and did not, and the counter then.
#[derive(Clone, Copy)]
pub(crate) enum Trace {
    Untouched,
    Lifted { by: usize, counter: u8 },
    Kept { by: usize, counter: u8 },
}

impl Trace {
    // A mark that was kept is kept by this event too.
    pub(crate) fn still(self, number: usize) -> Trace {
        match self {
            Trace::Kept { counter, .. } => Trace::Kept {
                by: number,
                counter,
            },
            _ => self,
        }
    }

    // By what is told before an event, with the counter, and after it. A mark with another offset than before was set anew.
    pub(crate) fn follow(
        self,
        was: Option<usize>,
        is: Option<usize>,
        number: usize,
        counter: u8,
        weighs: bool,
    ) -> Trace {
        match (was, is) {
            (None, None) => self,
            (Some(_), None) => Trace::Lifted {
                by: number,
                counter,
            },
            (Some(from), Some(at)) if from == at => {
                if weighs {
                    Trace::Kept {
                        by: number,
                        counter,
                    }
                } else {
                    self
                }
            }
            _ => Trace::Untouched,
        }
    }
}

// Whether there is nothing to lift.
pub(crate) fn is_free(t: Account) -> bool {
    t.forbidden.is_none() && t.barred.is_none()
}
