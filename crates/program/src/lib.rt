// What the programs share: how the files of the current folder are read.

#![tactic(auto)]

ghost use Rattle.std.specs.Prelude.{◌≡◌, ◌+◌, ◌≤◌, length, replicate};
ghost use Rattle.printed.specs.Files.{most_bytes};

use printed::files::MOST_BYTES;
use std::fs::File;
use std::rt::Files;
use streams::read_full;

// One byte more than a file may have, so that a longer file is seen to be too long. Of its own size, as `large_buffer` of `streams` says.
pub fn file_buffer() -> [u8; MOST_BYTES + 1]
    ensures { result ≡ replicate (most_bytes + 1) 0 }
{
    [0; MOST_BYTES + 1]
}

// The front of a file, as much of it as the buffer holds. A file that can't be opened counts as empty, and so does one whose name is
// not UTF-8, since std opens no such name. The name stays bytes: a `&str` would ask of callers that it is UTF-8.
pub fn read_file(rt: &impl Files, name: &[u8], into: &mut [u8]) -> usize
    ensures { result ≤ length into.old }
{
    match str::from_utf8(name) {
        Ok(path) => read_path(rt, path, into),
        Err(_) => 0,
    }
}

fn read_path(rt: &impl Files, path: &str, into: &mut [u8]) -> usize
    ensures { result ≤ length into.old }
{
    match File::open(rt, path) {
        Ok(mut file) => read_full(&mut file, into),
        Err(_) => 0,
    }
}
