// Puts a reply as the words of a line. Each function answers the place behind its words.

ghost use Rattle.std.specs.Prelude.{◌++◌, ◌+◌, ◌<◌, ◌≤◌, length};
ghost use Rattle.replies.specs.Reply.{Bounded};
ghost use Rattle.text.specs.Text.{Puts};
ghost use Rattle.request.specs.Line.{counts_text, ok_text, refused_text, reply_text, side_text};

use replies::answers::{Answer, answer_of};
use replies::{Reply, Side};
use text::{put_decimal, put_hexadecimal, put_word};

// Puts a record with its length.
fn put_record(count: usize, bytes: &[u8], out: &mut [u8]) -> usize
    requires count_bound { count ≤ 4854 }
    requires bytes_len_bound { length bytes.now ≤ 4854 }
    requires in_bounds { 9716 ≤ length out.old }
    ensures { Puts (ok_text count bytes.now) 0 out.old result out.new }
{
    let ok = put_word(b"ok ", 0, out);
    let number = put_decimal(count, ok, out);
    let space = put_word(b" ", number, out);
    put_hexadecimal(bytes, space, out)
}

// Puts the counts of nodes and rows, each by its last four digits.
fn put_counts(nodes: usize, rows: usize, out: &mut [u8]) -> usize
    requires { 9716 ≤ length out.old }
    ensures { Puts (counts_text nodes rows) 0 out.old result out.new }
{
    let counts = put_word(b"counts ", 0, out);
    let number = put_decimal(nodes % 10000, counts, out);
    let space = put_word(b" ", number, out);
    put_decimal(rows % 10000, space, out)
}

// Puts the number of a refusal.
fn put_refused(number: usize, out: &mut [u8]) -> usize
    requires number_bound { number < 256 }
    requires in_bounds { 9716 ≤ length out.old }
    ensures { Puts (refused_text number) 0 out.old result out.new }
{
    let refused = put_word(b"refused ", 0, out);
    put_decimal(number, refused, out)
}

// Puts which graph is refused.
fn put_side(side: Side, at: usize, out: &mut [u8]) -> usize
    requires { at + 7 ≤ length out.old }
    ensures { Puts (side_text side) at out.old result out.new }
{
    match side {
        Side::First => put_word(b" first", at, out),
        Side::Second => put_word(b" second", at, out),
    }
}

// Puts a refusal of a graph.
fn put_refused_graph(number: usize, side: Side, out: &mut [u8]) -> usize
    requires number_bound { number < 256 }
    requires in_bounds { 9716 ≤ length out.old }
    ensures { Puts (refused_text number ++ side_text side) 0 out.old result out.new }
{
    let refused = put_refused(number, out);
    put_side(side, refused, out)
}

// Puts the words of a reply. `output` is what the call left beside the reply.
pub fn put_reply(reply: Reply, output: &[u8], out: &mut [u8]) -> usize
    requires bounded { Bounded reply (length output.now) }
    requires output_len_bound { length output.now ≤ 4854 }
    requires in_bounds { 9716 ≤ length out.old }
    ensures { Puts (reply_text reply output.now) 0 out.old result out.new }
{
    let answer = answer_of(reply);
    match answer {
        Answer::Length(count) => put_record(count, &output[..count], out),
        Answer::Same => put_word(b"same", 0, out),
        Answer::Under => put_word(b"under", 0, out),
        Answer::Above => put_word(b"above", 0, out),
        Answer::Neither => put_word(b"neither", 0, out),
        Answer::Counts(nodes, rows) => put_counts(nodes, rows, out),
        Answer::End => put_word(b"end", 0, out),
        Answer::Refused(number) => put_refused(number, out),
        Answer::RefusedGraph(number, side) => put_refused_graph(number, side, out),
    }
}
