// Prints the meets of the house types, as a table of 64 lines with 64 numbers each. This program knows the house types and text, and no record. A
// table that cannot be written whole is told on standard error.

#![tactic(auto)]

ghost use Rattle.std.specs.Prelude.{◌≡◌, ◌<◌, ◌≤◌, length};
ghost use Rattle.house.specs.House.{meets};
ghost use Rattle.text.specs.Text.{Puts};
ghost use Rattle.house_types.specs.Text.{after as after_of, text_of};

use text::put_decimal;

// What stands behind entry k: a line end behind the last entry of a row, else a space.
fn after(k: usize) -> u8
    ensures { result ≡ after_of k }
{
    if k % 64 == 63 { b'\n' } else { b' ' }
}

// Puts the table at the start of the output, and answers its length.
fn put_meets(out: &mut [u8]) -> usize
    requires { 12288 ≤ length out.old }
    ensures room { result ≤ 12288 }
    ensures text { Puts (text_of meets) 0 out.old result out.new }
{
    let all = house::meets::all();
    let mut at = 0;
    for (k, &entry) in all.iter().enumerate() {
        let next = put_decimal(entry as usize, at, out);
        out[next] = after(k);
        at = next + 1;
    }
    at
}

fn main(rt: HostRuntime) {
    let mut text = [0u8; 12288];
    let end = put_meets(&mut text);
    if rt.write_all(&text[..end]).is_err() {
        let _ = rt.eprint("house_types: the table cannot be written\n");
    }
}
