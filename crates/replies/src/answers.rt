// What each reply tells, with the numbers that documents 01 ("Returned by a call") and 02 give to refusals.

ghost use Rattle.std.specs.Prelude.{◌≡◌, Ok, Err};
ghost use Rattle.acceptance.specs.Reply.{table_number};
ghost use Rattle.record.specs.Read.{graph_number};
ghost use Rattle.replies.specs.Reply.{answer_of};

use crate::{Refusal, Reply, Side, Success};
use acceptance::TableFault;
use record::GraphFault;

// What a reply tells. A refusal has a number, and a refusal of a graph also tells which of the two graphs it is. Refusals are numbers here,
// because C programs and `mapcalc` are told the numbers of the documents.
#[derive(Clone, Copy)]
pub enum Answer {
    Length(usize),
    Same,
    Under,
    Above,
    Neither,
    Counts(usize, usize),
    End,
    Refused(usize),
    RefusedGraph(usize, Side),
}

// What a reply tells.
pub fn answer_of(reply: Reply) -> Answer
    ensures { result ≡ answer_of reply }
{
    match reply {
        Ok(success) => success_answer(success),
        Err(refusal) => refusal_answer(refusal),
    }
}

// What the reply of a call tells that is not refused.
fn success_answer(success: Success) -> Answer
    ensures { result ≡ answer_of (Ok success) }
{
    match success {
        Success::Length(length) => Answer::Length(length),
        Success::Same => Answer::Same,
        Success::Under => Answer::Under,
        Success::Above => Answer::Above,
        Success::Neither => Answer::Neither,
        Success::Counts(nodes, rows) => Answer::Counts(nodes, rows),
        Success::End => Answer::End,
    }
}

// What the reply of a refused call tells.
fn refusal_answer(refusal: Refusal) -> Answer
    ensures { result ≡ answer_of (Err refusal) }
{
    match refusal {
        Refusal::Table(fault) => Answer::Refused(table_number(fault)),
        Refusal::Graph(fault, side) => Answer::RefusedGraph(graph_number(fault), side),
        Refusal::NoRoom => Answer::Refused(8),
        Refusal::Cycle => Answer::Refused(9),
        Refusal::Clash => Answer::Refused(10),
        Refusal::TooLarge => Answer::Refused(11),
        Refusal::NotBelow => Answer::Refused(12),
        Refusal::NoWantedType => Answer::Refused(13),
        Refusal::RowOutOfRange => Answer::Refused(14),
        Refusal::RowTwice => Answer::Refused(15),
        Refusal::NothingGathered => Answer::Refused(16),
        Refusal::TypeList => Answer::Refused(17),
        Refusal::ReadingOrder => Answer::Refused(19),
        Refusal::WrongVersion => Answer::Refused(20),
        Refusal::NoStoreRoom => Answer::Refused(21),
        Refusal::NoReasonRoom => Answer::Refused(22),
        Refusal::FeatureCount => Answer::Refused(23),
        Refusal::NotListed => Answer::Refused(24),
    }
}

// The number of a table's refusal.
fn table_number(fault: TableFault) -> usize
    ensures { result ≡ table_number fault }
{
    fault as usize
}

// The number of a graph's refusal.
fn graph_number(fault: GraphFault) -> usize
    ensures { result ≡ graph_number fault }
{
    fault as usize
}
