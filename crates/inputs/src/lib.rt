// A program's input, read into a lent array.
#![tactic(auto)]

ghost use Rattle.std.specs.Prelude.{◌≤◌, length};

use std::io::Read;

// Reads until the text is full, the input ends or a read fails; how many bytes stand at the front of the text. How far a read goes only it tells:
// no iterator's method does this, and `read_exact` says nothing of an input that ends before.
pub fn read_full(input: &mut impl Read, text: &mut [u8]) -> usize
    ensures { result ≤ length text.new }
{
    let mut taken: usize = 0;
    while taken < text.len() {
        match input.read(&mut text[taken..]) {
            Ok(0) | Err(_) => return taken,
            Ok(n) => taken += n,
        }
    }
    taken
}
