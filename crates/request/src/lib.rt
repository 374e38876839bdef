// Makes the line that `mapcalc` prints from the bytes of its input. This crate knows the calls and their replies, and reads and writes no file.

#![tactic(auto)]

pub mod parse;
pub mod reply;

ghost use Rattle.std.specs.Prelude.{◌≡◌, ◌≤◌, length, take};
ghost use Rattle.std.proofs.Math.Option.{some};
ghost use Rattle.replies.specs.Reply.{resulting};
ghost use Rattle.request.specs.Request.{requested};
ghost use Rattle.request.specs.Parse.{request_of};
ghost use Rattle.text.specs.Text.{Puts};
ghost use Rattle.request.specs.Line.{answering, line_of, printed};
ghost use Rattle.request.specs.Words.{words_for};

use parse::{Asked, Operation};
use replies::Reply;

// What is printed: the first `count` of the bytes. The longest line has 9,717. The buffer has a fixed size, since there is no heap.
#[derive(Clone, Copy)]
pub struct Printed {
    pub bytes: [u8; 9717],
    pub count: usize,
}

impl Printed {
    // The line that is printed.
    pub fn line(&self) -> &[u8]
        requires { self.now.count ≤ length self.now.bytes }
        ensures { result.now ≡ take self.now.count self.now.bytes }
    {
        &self.bytes[..self.count]
    }
}

impl Asked<'_> {
    // What the call that is asked for answers and leaves in the output. The operations are a closed list of document 01, so a match is plainer than
    // a closure or a trait object.
    fn answer(self, output: &mut [u8]) -> Reply
        ensures { resulting result output.new ≡ answering self.entry.operation self.entry.n self.entry.table.now self.entry.first.now self.entry.second.now output.old }
    {
        let Asked {
            operation,
            n,
            table,
            first,
            second,
        } = self;
        match operation {
            Operation::Generalize => replies::told_reply(calls::generalizing::generalize(
                n, table, first, second, output,
            )),
            Operation::Unify => {
                replies::told_reply(calls::unifying::unify(n, table, first, second, output))
            }
            Operation::Difference => {
                replies::told_reply(calls::differing::difference(n, table, first, second, output))
            }
            Operation::Order => calls::ordering::order(n, table, first, second),
        }
    }
}

// Puts the words that answer a request.
fn put_answer(asked: Asked, out: &mut [u8]) -> usize
    requires { 9716 ≤ length out.old }
    ensures { Puts (words_for (some (request_of asked.entry))) 0 out.old result out.new }
{
    let mut output = [0u8; 4854];
    let reply = asked.answer(&mut output);
    reply::put_reply(reply, &output, out)
}

// Puts the line without its line end.
fn put_words(input: &[u8], out: &mut [u8]) -> usize
    requires { 9716 ≤ length out.old }
    ensures { Puts (words_for (requested input.now)) 0 out.old result out.new }
{
    match parse::parse(input) {
        Ok(asked) => put_answer(asked, out),
        Err(_) => text::put_word(b"bad input", 0, out),
    }
}

// The line that answers the input.
pub fn line(input: &[u8]) -> Printed
    ensures { result ≡ printed (line_of input.now) }
{
    let mut bytes = [0u8; 9717];
    let end = put_words(input, &mut bytes);
    bytes[end] = 10;
    let count = end + 1;
    Printed { bytes, count }
}
