// Cases of the crate `ordering`, as a script on standard input: a command to a line, echoed with what came back. The script's own
// first lines say what each command does.

#![tactic(auto)]

mod pairs;
mod show;

use ordering::{Precedences, order};
use script::{Obeys, bytes_of, lines_of, named, next_byte, numbers_as, one_line, word};
use std::io;
use std::io::Write;
use streams::{large_buffer, read_full};

#[derive(Clone, Copy)]
enum Command {
    Far,
    Count,
    Order,
    Small,
    Pairs,
    MorePairs,
    Chain,
}

const COMMANDS: [(&[u8], Command); 7] = [
    (b"far", Command::Far),
    (b"count", Command::Count),
    (b"order", Command::Order),
    (b"small", Command::Small),
    (b"pairs", Command::Pairs),
    (b"more-pairs", Command::MorePairs),
    (b"chain", Command::Chain),
];

// What is kept between lines: the pairs that are handed over.
#[derive(Drop)]
struct Kept {
    pairs: Precedences,
}

impl Obeys for Kept {
    // Of the letters of numbers, `p` stands for one to 63, `w` for one of 32 bits.
    fn obey<W: Write>(&mut self, out: &mut W, line: &[u8]) -> Option<io::Result<()>> {
        let kept = &mut self.pairs;
        let end = next_byte(line, 0, b' ');
        match named(&COMMANDS, &line[..end])? {
            Command::Far => {
                let numbers = numbers_as(b"pww.....", line, end)?;
                let numbers = numbers.list();
                let place = word(numbers, 0) as usize;
                pairs::set(kept, place, word(numbers, 1), word(numbers, 2));
            }
            Command::Count => kept.count = word(numbers_as(b"w.......", line, end)?.list(), 0),
            Command::Order => {
                let accesses = word(numbers_as(b"w.......", line, end)?.list(), 0);
                return Some(show::ordered(out, &order(accesses, kept)));
            }
            Command::Small => {
                let bytes = bytes_of(line, end).ok()?;
                let (accesses, digits) = bytes.list().split_first()?;
                let given = order(*accesses as u32, &pairs::of_digits(digits));
                return Some(show::ordered(out, &given));
            }
            Command::Pairs => pairs::replace(kept, bytes_of(line, end).ok()?.list())?,
            Command::MorePairs => pairs::repeat(kept, bytes_of(line, end).ok()?.list())?,
            Command::Chain => pairs::chain(kept, bytes_of(line, end).ok()?.list())?,
        }
        Some(Ok(()))
    }
}

// The lines are gone through here, as in each program of cases, with a state of its own (`script::one_line`).
fn main(rt: HostRuntime) -> io::Result<()> {
    let mut text = large_buffer();
    let count = read_full(&mut rt.stdin(), &mut text);
    let mut out = rt.stdout();
    let mut kept = Kept {
        pairs: Precedences::default(),
    };
    for line in lines_of(&text[..count]) {
        one_line(&mut out, &mut kept, line)?;
    }
    Ok(())
}
