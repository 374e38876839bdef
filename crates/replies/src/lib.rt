// The replies of all calls of documents 01 and 02, with the number of each refusal, for every crate that makes a call. This crate knows the
// faults of tables and graphs, and no call.

#![tactic(auto)]

ghost use Rattle.std.specs.Prelude.{◌≡◌};
ghost use Rattle.replies.specs.declared.Refusal.TheVariants.{Table};
ghost use Rattle.replies.specs.Replies.{refusal_of, refusal_of_unmarked, told};

use acceptance::TableFault;
use encode::{Unmarked, Unwritten};
use record::GraphFault;

pub mod answers;

// Which of two graphs is refused. A lone graph counts as the first.
#[derive(Clone, Copy)]
pub enum Side {
    First = 1,
    Second = 2,
}

// What a call answers that is not refused: the record's length; one of the order's four answers, seen from the first graph; the counts of nodes
// and rows; or the end of a listing.
#[derive(Clone, Copy)]
pub enum Success {
    Length(usize),
    Same,
    Under,
    Above,
    Neither,
    Counts(usize, usize),
    End,
}

// Why a call is refused.
#[derive(Clone, Copy)]
pub enum Refusal {
    Table(TableFault),
    Graph(GraphFault, Side),
    NoRoom,
    Cycle,
    Clash,
    TooLarge,
    NotBelow,
    NoWantedType,
    RowOutOfRange,
    RowTwice,
    NothingGathered,
    TypeList,
    ReadingOrder,
    WrongVersion,
    NoStoreRoom,
    NoReasonRoom,
    FeatureCount,
    NotListed,
}

// What a call answers. A call that can only write a record answers `Result<usize, Refusal>`, with the record's length.
pub type Reply = Result<Success, Refusal>;

// The reply of a call that can only write a record.
pub fn told_reply(written: Result<usize, Refusal>) -> Reply
    ensures { result ≡ told written }
{
    written.map(Success::Length)
}

impl From<TableFault> for Refusal {
    ghost from_gives = { λ fault refusal. refusal ≡ Table fault };

    fn from(fault: TableFault) -> Refusal {
        Refusal::Table(fault)
    }
}

impl From<Unwritten> for Refusal {
    ghost from_gives = { λ unwritten refusal. refusal ≡ refusal_of unwritten };

    fn from(unwritten: Unwritten) -> Refusal {
        match unwritten {
            Unwritten::TooLarge => Refusal::TooLarge,
            Unwritten::NoRoom => Refusal::NoRoom,
        }
    }
}

impl From<Unmarked> for Refusal {
    ghost from_gives = { λ unmarked refusal. refusal ≡ refusal_of_unmarked unmarked };

    fn from(unmarked: Unmarked) -> Refusal {
        match unmarked {
            Unmarked::Unwritten(why) => Refusal::from(why),
            Unmarked::NoMarkRoom => Refusal::NoReasonRoom,
        }
    }
}
