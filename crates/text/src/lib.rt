// Numbers and words as text. Each function puts bytes into the output from `at` on and answers the next place. This crate knows bytes alone.
// `write!` of std would stand for none of them: it answers a `Result`, and the place behind the text would have to be kept beside the output.

#![tactic(auto)]

ghost use Rattle.std.specs.Prelude.{◌≡◌, ◌+◌, ◌<◌, ◌≤◌, length};
ghost use Rattle.text.specs.Text.{Puts, decimal, digit_of, hexadecimal};

// Puts a word.
pub fn put_word(word: &[u8], at: usize, out: &mut [u8]) -> usize
    requires { at + length word.now ≤ length out.old }
    ensures { Puts word.now at out.old result out.new }
{
    let end = at + word.len();
    out[at..end].copy_from_slice(word);
    end
}

// The digit of a number below 16.
fn digit(d: u8) -> u8
    requires { d < 16 }
    ensures { result ≡ digit_of d }
{
    if d < 10 { b'0' + d } else { b'a' - 10 + d }
}

// Puts bytes in hexadecimal, two digits for each.
pub fn put_hexadecimal(bytes: &[u8], at: usize, out: &mut [u8]) -> usize
    requires { at + length (hexadecimal bytes.now) ≤ length out.old }
    ensures { Puts (hexadecimal bytes.now) at out.old result out.new }
{
    let mut next = at;
    for &b in bytes {
        out[next] = digit(b / 16);
        out[next + 1] = digit(b % 16);
        next += 2;
    }
    next
}

// Puts a number in decimal.
pub fn put_decimal(n: usize, at: usize, out: &mut [u8]) -> usize
    requires { at + length (decimal n) ≤ length out.old }
    ensures { Puts (decimal n) at out.old result out.new }
{
    if n < 10 {
        out[at] = digit(n as u8);
        return at + 1;
    }
    let next = put_decimal(n / 10, at, out);
    out[next] = digit((n % 10) as u8);
    next + 1
}
