// This crate reads a record for the calls: it gives the record's graph, or the first of refusals 4 to 7 that applies. Each refusal is
// checked over the whole record before the next; `decode` finds 4, and `peeling` finds 5 to 7. The crate knows one record at a time. Of the
// table it knows the number of types, and the order too where a list of types for features is given.

#![tactic(auto)]

ghost use Rattle.std.specs.Prelude.{◌≡◌};
ghost use Rattle.record.specs.Faults.{fault_of};

use peeling::Unrooted;

pub mod appropriate;
pub mod judging;
pub mod reading;

// Why a record is refused, by the numbers of document 01's refusals, and of document 02's 18, for a graph with a link that a list forbids.
#[derive(Clone, Copy)]
pub enum GraphFault {
    Malformed = 4,
    OutOfRange = 5,
    Cyclic = 6,
    Unreached = 7,
    Inappropriate = 18,
}

impl From<Unrooted> for GraphFault {
    ghost from_gives = { λ unrooted fault. fault ≡ fault_of unrooted };

    fn from(unrooted: Unrooted) -> GraphFault {
        match unrooted {
            Unrooted::Cyclic => GraphFault::Cyclic,
            Unrooted::Apart => GraphFault::Unreached,
        }
    }
}
