// What the programs share: how standard input and a file are read, without an allocation.

#![tactic(auto)]

ghost use Rattle.std.specs.Prelude.{◌≡◌, ◌≤◌, length, replicate};

use std::io::Read;

// Room for the input of a program of cases. A function for each size, here and in `program`, `play`, `page` and `printed_cases`: one with
// the size as a parameter would be `[0; N]` too, and each caller would have to write the size into a type.
pub fn large_buffer() -> [u8; 65536]
    ensures { result ≡ replicate 65536 0 }
{
    [0; 65536]
}

// Reads until the buffer is full, the input ends or a read fails; how many bytes then stand at the front of the buffer. The loop is
// its own, since `read_exact` refuses an input that ends early and `read_to_end` allocates.
pub fn read_full(from: &mut impl Read, into: &mut [u8]) -> usize
    ensures { result ≤ length into.old }
{
    let mut count: usize = 0;
    while count < into.len() {
        match from.read(&mut into[count..]) {
            Ok(0) => return count,
            Ok(n) => count += n,
            Err(_) => return count,
        }
    }
    count
}
