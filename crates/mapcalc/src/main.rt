// Reads what is asked for from standard input, and prints the one line that answers it. This program knows `request` alone. A line that cannot be
// written whole is told on standard error. The exit status says nothing.

#![tactic(auto)]

ghost use Rattle.std.specs.Prelude.{◌≤◌, length};

use std::io::Read;

// Reads until the buffer is full, the input ends or a read fails, and answers how many bytes are read. Memory is fixed: std's `read_to_end` fills a
// `Vec`, and its `read_exact` answers no count where the input ends early.
fn read_full(input: &mut impl Read, buffer: &mut [u8]) -> usize
    ensures { result ≤ length buffer.new }
{
    let mut count = 0;
    while count < buffer.len() {
        match input.read(&mut buffer[count..]) {
            Ok(0) => return count,
            Ok(more) => count += more,
            Err(_) => return count,
        }
    }
    count
}

fn main(rt: HostRuntime) {
    // One byte more than the longest input that is not bad.
    let mut input = [0u8; 18431];
    let count = read_full(&mut rt.stdin(), &mut input);
    let printed = request::line(&input[..count]);
    if rt.write_all(printed.line()).is_err() {
        let _ = rt.eprint("mapcalc: the line cannot be written\n");
    }
}
