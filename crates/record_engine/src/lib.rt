// The engine's calls for programs in other languages: a static library. Each function takes its slices as a pointer and a length, and answers one
// number, the code of the reply. Most functions take a number of types, a table, one or two records, and an output or two. One goes through all
// small graphs, four are on the bytes of a gathering, three on the bytes of a store, two take rows as a slice of structs, one checks a table, and
// one gives the table of the house types. This crate knows the calls, the listing, the gathering, the store and the planning tables.

#![tactic(auto)]

ghost use Rattle.std.specs.Prelude.{◌≡◌, ◌<◌};
ghost use Rattle.encode.specs.Encode.{yielding};
ghost use Rattle.calls.specs.Calls.{checking, rewriting, ordering, generalizing, unifying, differing, differing_by};
ghost use Rattle.calls.specs.Appropriate.{rewriting_appropriate, generalizing_appropriate, unifying_appropriate};
ghost use Rattle.calls.specs.Explained.{explaining, explaining_by};
ghost use Rattle.listing.specs.Call.{stepping};
ghost use Rattle.store.specs.Calls.{dropping, fetching, putting};
ghost use Rattle.gathering.specs.Gathering.{begun, adding, comparing, finishing};
ghost use Rattle.planning.specs.Planning.{importing_rows, exporting};
ghost use Rattle.replies.specs.Replies.{told};
ghost use Rattle.record_engine.specs.Code.{code_of, counts_code, refusal_code, side_number};
ghost use Rattle.record_engine.specs.Coded.{coded, coded_both, yielding_both};
ghost use Rattle.record_engine.specs.CodedRows.{coded_rows, yielding_rows};
ghost use Rattle.record_engine.specs.House.{tabling};

use replies::answers::Answer;
use replies::{Refusal, Reply, Side, Success};
use rows::Row;

// A refusal's code is this plus the refusal's number, and 256 times the side that it tells. A length is its own code, and less.
const REFUSAL: u64 = 1 << 32;

// The codes of the order's four answers, and of the end of a listing.
const SAME: u64 = 1 << 33;

const UNDER: u64 = SAME + 1;

const ABOVE: u64 = SAME + 2;

const NEITHER: u64 = SAME + 3;

const END: u64 = SAME + 4;

// The code of counts is this plus the rows, and `NODE` times the nodes.
const COUNTS: u64 = 1 << 34;

const NODE: u64 = 1 << 16;

// Writes a record in written form. Answers the code of the reply.
#[unsafe(no_mangle)]
pub extern "C" fn record_rewrite(n: usize, table: &[u8], bytes: &[u8], out: &mut [u8]) -> u64
    ensures { yielding result out.new ≡ coded (rewriting n table.now bytes.now out.old) }
{
    measured(calls::rewriting::rewrite(n, table, bytes, out))
}

// Writes a record in written form, beside a list that gives for each feature the broadest type that may have it. Answers the code of the reply.
#[unsafe(no_mangle)]
pub extern "C" fn record_rewrite_appropriate(
    n: usize,
    table: &[u8],
    list: &[u8],
    bytes: &[u8],
    out: &mut [u8],
) -> u64
    ensures { yielding result out.new ≡ coded (rewriting_appropriate n table.now list.now bytes.now out.old) }
{
    measured(calls::rewriting::rewrite_appropriate(n, table, list, bytes, out))
}

// Answers the code of the order of two records, seen from the first.
#[unsafe(no_mangle)]
pub extern "C" fn record_order(n: usize, table: &[u8], first: &[u8], second: &[u8]) -> u64
    ensures { result ≡ code_of (ordering n table.now first.now second.now) }
{
    code(calls::ordering::order(n, table, first, second))
}

// Writes the common part of two records. Answers the code of the reply.
#[unsafe(no_mangle)]
pub extern "C" fn record_generalize(
    n: usize,
    table: &[u8],
    first: &[u8],
    second: &[u8],
    out: &mut [u8],
) -> u64
    ensures { yielding result out.new ≡ coded (generalizing n table.now first.now second.now out.old) }
{
    measured(calls::generalizing::generalize(n, table, first, second, out))
}

// Writes the common part of two records, beside a list that gives for each feature the broadest type that may have it. Answers the code of the
// reply.
#[unsafe(no_mangle)]
pub extern "C" fn record_generalize_appropriate(
    n: usize,
    table: &[u8],
    list: &[u8],
    first: &[u8],
    second: &[u8],
    out: &mut [u8],
) -> u64
    ensures { yielding result out.new ≡ coded (generalizing_appropriate n table.now list.now first.now second.now out.old) }
{
    measured(calls::generalizing::generalize_appropriate(n, table, list, first, second, out))
}

// Writes the combination of two records. Answers the code of the reply.
#[unsafe(no_mangle)]
pub extern "C" fn record_unify(
    n: usize,
    table: &[u8],
    first: &[u8],
    second: &[u8],
    out: &mut [u8],
) -> u64
    ensures { yielding result out.new ≡ coded (unifying n table.now first.now second.now out.old) }
{
    measured(calls::unifying::unify(n, table, first, second, out))
}

// Writes the combination of two records, beside a list that gives for each feature the broadest type that may have it. Answers the code of the
// reply.
#[unsafe(no_mangle)]
pub extern "C" fn record_unify_appropriate(
    n: usize,
    table: &[u8],
    list: &[u8],
    first: &[u8],
    second: &[u8],
    out: &mut [u8],
) -> u64
    ensures { yielding result out.new ≡ coded (unifying_appropriate n table.now list.now first.now second.now out.old) }
{
    measured(calls::unifying::unify_appropriate(n, table, list, first, second, out))
}

// Writes the difference of the first graph, g, and the second, s. Answers the code of the reply.
#[unsafe(no_mangle)]
pub extern "C" fn record_difference(
    n: usize,
    table: &[u8],
    first: &[u8],
    second: &[u8],
    out: &mut [u8],
) -> u64
    ensures { yielding result out.new ≡ coded (differing n table.now first.now second.now out.old) }
{
    measured(calls::differing::difference(n, table, first, second, out))
}

// Writes the difference, with links ordered by a list that has all 64 features, each once. Answers the code of the reply.
#[unsafe(no_mangle)]
pub extern "C" fn record_difference_by(
    n: usize,
    table: &[u8],
    list: &[u8],
    first: &[u8],
    second: &[u8],
    out: &mut [u8],
) -> u64
    ensures { yielding result out.new ≡ coded (differing_by n table.now list.now first.now second.now out.old) }
{
    measured(calls::differing::difference_by(n, table, list, first, second, out))
}

// Writes the difference, and into a second output the reason for each link of its record. Answers the code of the reply.
#[unsafe(no_mangle)]
pub extern "C" fn record_difference_explained(
    n: usize,
    table: &[u8],
    first: &[u8],
    second: &[u8],
    out: &mut [u8],
    reasons: &mut [u8],
) -> u64
    ensures { yielding_both result out.new reasons.new ≡
        coded_both (explaining n table.now first.now second.now out.old reasons.old) }
{
    measured(calls::differing::difference_explained(n, table, first, second, out, reasons))
}

// Writes the difference and the reasons, with links ordered by a list that has all 64 features, each once. Answers the code of the reply.
#[unsafe(no_mangle)]
pub extern "C" fn record_difference_explained_by(
    n: usize,
    table: &[u8],
    list: &[u8],
    first: &[u8],
    second: &[u8],
    out: &mut [u8],
    reasons: &mut [u8],
) -> u64
    ensures { yielding_both result out.new reasons.new ≡
        coded_both (explaining_by n table.now list.now first.now second.now out.old reasons.old) }
{
    measured(calls::differing::difference_explained_by(n, table, list, first, second, out, reasons))
}

// Writes the record after the given one in the list of all small graphs over a number of features; for no bytes, the first. Answers the code of
// the reply.
#[unsafe(no_mangle)]
pub extern "C" fn record_next(
    n: usize,
    table: &[u8],
    features: usize,
    bytes: &[u8],
    out: &mut [u8],
) -> u64
    ensures { yielding result out.new ≡ coded (stepping n table.now features bytes.now out.old) }
{
    code(listing::next(n, table, features, bytes, out))
}

// Begins a gathering over a table in lent bytes. Answers the code of the reply.
#[unsafe(no_mangle)]
pub extern "C" fn record_gathering_begin(n: usize, table: &[u8], state: &mut [u8]) -> u64
    ensures { yielding result state.new ≡ coded (begun n table.now state.old) }
{
    measured(gathering::begin(n, table, state))
}

// Adds a record to a gathering. Answers the code of the reply.
#[unsafe(no_mangle)]
pub extern "C" fn record_gathering_add(state: &mut [u8], bytes: &[u8]) -> u64
    ensures { yielding result state.new ≡ coded (adding state.old bytes.now) }
{
    measured(gathering::add(state, bytes))
}

// Answers the code of the order of a record to what is gathered.
#[unsafe(no_mangle)]
pub extern "C" fn record_gathering_order(state: &[u8], bytes: &[u8]) -> u64
    ensures { result ≡ code_of (comparing state.now bytes.now) }
{
    code(gathering::order(state, bytes))
}

// Writes what is gathered. Answers the code of the reply.
#[unsafe(no_mangle)]
pub extern "C" fn record_gathering_finish(state: &[u8], out: &mut [u8]) -> u64
    ensures { yielding result out.new ≡ coded (finishing state.now out.old) }
{
    measured(gathering::finish(state, out))
}

// Puts a program into a store under a version number that is absent. Answers the code of the reply.
#[unsafe(no_mangle)]
pub extern "C" fn record_store_put(
    n: usize,
    table: &[u8],
    buffer: &mut [u8],
    version: usize,
    bytes: &[u8],
) -> u64
    ensures { yielding result buffer.new ≡ coded (putting n table.now buffer.old version bytes.now) }
{
    measured(store::put(n, table, buffer, version, bytes))
}

// Writes the record of a version of a store. Answers the code of the reply.
#[unsafe(no_mangle)]
pub extern "C" fn record_store_read(
    n: usize,
    table: &[u8],
    buffer: &[u8],
    version: usize,
    out: &mut [u8],
) -> u64
    ensures { yielding result out.new ≡ coded (fetching n table.now buffer.now version out.old) }
{
    measured(store::read(n, table, buffer, version, out))
}

// Drops a version of a store. Answers the code of the reply.
#[unsafe(no_mangle)]
pub extern "C" fn record_store_drop(
    n: usize,
    table: &[u8],
    buffer: &mut [u8],
    version: usize,
) -> u64
    ensures { yielding result buffer.new ≡ coded (dropping n table.now buffer.old version) }
{
    measured(store::drop(n, table, buffer, version))
}

// Imports: writes the record of the graph that lent rows and node bytes state. Answers the code of the reply.
#[unsafe(no_mangle)]
pub extern "C" fn record_import(
    n: usize,
    table: &[u8],
    rows: &[Row],
    nodes: &[u8],
    out: &mut [u8],
) -> u64
    ensures { yielding result out.new ≡ coded (importing_rows n table.now rows.now nodes.now out.old) }
{
    measured(planning::importing::import(n, table, rows, nodes, out))
}

// Exports: fills lent rows and node bytes with those of a record's graph. Answers the code of the reply.
#[unsafe(no_mangle)]
pub extern "C" fn record_export(
    n: usize,
    table: &[u8],
    bytes: &[u8],
    rows: &mut [Row],
    nodes: &mut [u8],
) -> u64
    ensures { yielding_rows result rows.new nodes.new ≡
        coded_rows (exporting n table.now bytes.now rows.old nodes.old) }
{
    code(planning::exporting::export(n, table, bytes, rows, nodes))
}

// Answers 0 where the table is accepted, else the code of its refusal.
#[unsafe(no_mangle)]
pub extern "C" fn record_check_table(n: usize, table: &[u8]) -> u64
    ensures { result ≡ code_of (checking n table.now) }
{
    code(calls::checking::check(n, table))
}

// Writes the type table of the house types, for n = 64. Answers the code of the reply.
#[unsafe(no_mangle)]
pub extern "C" fn record_house_table(out: &mut [u8]) -> u64
    ensures { yielding result out.new ≡ coded (tabling out.old) }
{
    if house::fill_table(out) {
        code(Ok(Success::Length(512)))
    } else {
        code(Err(Refusal::NoRoom))
    }
}

// The code of the reply of a call that can only write a record.
fn measured(written: Result<usize, Refusal>) -> u64
    ensures { result ≡ code_of (told written) }
{
    code(replies::told_reply(written))
}

// The code of a reply.
fn code(reply: Reply) -> u64
    ensures { result ≡ code_of reply }
{
    let answer = replies::answers::answer_of(reply);
    match answer {
        Answer::Length(length) => length as u64,
        Answer::Same => SAME,
        Answer::Under => UNDER,
        Answer::Above => ABOVE,
        Answer::Neither => NEITHER,
        Answer::Counts(nodes, rows) => counts(nodes as u64, rows as u64),
        Answer::End => END,
        Answer::Refused(number) => refusal(number as u64, 0),
        Answer::RefusedGraph(number, side) => refusal(number as u64, side_number(side)),
    }
}

// The code of counts, each by its lowest 16 bits.
fn counts(nodes: u64, rows: u64) -> u64
    ensures { result ≡ counts_code nodes rows }
{
    COUNTS + NODE * (nodes % NODE) + rows % NODE
}

// The code of a refusal: its number in documents 01 and 02, and the side of the graph that it tells, 0 for none.
fn refusal(number: u64, side: u64) -> u64
    requires number_bound { number < 256 }
    requires side_bound { side < 256 }
    ensures { result ≡ refusal_code number side }
{
    REFUSAL + 256 * side + number
}

// The number of a side: 1 for the first graph, 2 for the second.
fn side_number(side: Side) -> u64
    ensures is { result ≡ side_number side }
    ensures small { result < 256 }
{
    side as u64
}
