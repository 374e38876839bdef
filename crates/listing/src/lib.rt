// Every small graph in the order of its record's bytes (document 02, Paper 14): the call gives the next record after a listed one, and the first
// record for no bytes. Seven numbers state a listed record (`numbers`). Each number is within a span that the numbers before it give (`spans`),
// and raising the numbers gives the next record (`raising`). This crate knows an accepted table, records and the list of `listed`; it computes
// on no graph.

#![tactic(auto)]

ghost use Rattle.std.specs.Prelude.{◌≡◌, ◌||◌, [], ℕ, ◌≤◌, ◌<◌, eqb, length, get_or};
ghost use Rattle.encode.specs.Encode.{fitted};
ghost use Rattle.replies.specs.Reply.{resulting, result_of};
ghost use Rattle.listed.specs.Listing.{record_of};
ghost use Rattle.listing.specs.Call.{continued, counted, stepped, stepping};
ghost use Rattle.listing.specs.Numbers.{number_list, Nodes};

use numbers::Numbers;
use replies::{Refusal, Reply, Side, Success};

pub mod numbers;
pub mod raising;
pub mod spans;

// Writes the record that the numbers state, where it fits.
fn write(numbers: Numbers, out: &mut [u8]) -> Reply
    requires { Nodes numbers × ((i : ℕ) → get_or (record_of (number_list numbers)) i 0 < 256) }
    ensures { resulting result out.new ≡ result_of (fitted (record_of (number_list numbers)) out.old) }
{
    let length = numbers.length();
    if out.len() < length {
        return Err(Refusal::NoRoom);
    }
    for (i, byte) in out[..length].iter_mut().enumerate() {
        *byte = numbers.byte(i) as u8;
    }
    Ok(Success::Length(length))
}

// Whether F is 1 or 2.
fn is_count(features: usize) -> bool
    ensures { result ≡ (eqb features 1 || eqb features 2) }
{
    features == 1 || features == 2
}

// Writes the first listed record.
fn first(features: usize, out: &mut [u8]) -> Reply
    ensures { (n : ℕ) → 2 ≤ n → n ≤ 64 → resulting result out.new ≡
        counted features (continued n features [] out.old) out.old }
{
    if !is_count(features) {
        return Err(Refusal::FeatureCount);
    }
    let numbers = raising::from_root_links(features, 1, 1);
    write(numbers, out)
}

// Writes the listed record after an accepted record, over an accepted table with n types.
fn go_on(n: usize, features: usize, bytes: &[u8], out: &mut [u8]) -> Reply
    requires { (2 ≤ n) × (n ≤ 64) × (0 < length bytes.now) }
    ensures { resulting result out.new ≡ counted features (continued n features bytes.now out.old) out.old }
{
    if !is_count(features) {
        return Err(Refusal::FeatureCount);
    }
    let numbers = Numbers::of(bytes);
    if !numbers.are_within(n, features) {
        return Err(Refusal::NotListed);
    }
    if !numbers.is_record(bytes) {
        return Err(Refusal::NotListed);
    }
    let Some(next) = numbers.raised(n, features) else {
        return Ok(Success::End);
    };
    write(next, out)
}

// The call over an accepted table with n types.
fn next_over(n: usize, features: usize, bytes: &[u8], out: &mut [u8]) -> Reply
    requires { (2 ≤ n) × (n ≤ 64) }
    ensures { resulting result out.new ≡ stepped n features bytes.now out.old }
{
    if bytes.len() == 0 {
        return first(features, out);
    }
    let mut graph = [0u16; layout::LONGEST];
    if let Err(fault) = record::reading::read(n, bytes, &mut graph) {
        return Err(Refusal::Graph(fault, Side::First));
    }
    go_on(n, features, bytes, out)
}

// Writes the listed record after the given one, or answers the end. For no bytes it writes the first listed record.
pub fn next(n: usize, table: &[u8], features: usize, bytes: &[u8], out: &mut [u8]) -> Reply
    ensures { resulting result out.new ≡ stepping n table.now features bytes.now out.old }
{
    acceptance::accept(n, table)?;
    next_over(n, features, bytes, out)
}
