// A group's order from pairs "must come before": S-6 of document 02.

#![tactic(auto)]

ghost use Rattle.std.specs.Prelude.{ℕ, ◌≡◌, ◌≤◌, ◌<◌, true, IfOk, IfErr};
ghost use Rattle.number.specs.Reply.{refuse};
ghost use Rattle.number.specs.Refusal.{refusal_number};
ghost use Rattle.ordering.specs.Answer.{answer, all_listed, next, arranged};
ghost use Rattle.ordering.specs.Records.{precedences_of, ordered};
ghost use Rattle.ordering.specs.Internal.{NextIs, record_of, waits, Unready};

use number::refusal::Refusal;

// The most accesses that can be ordered.
pub const MOST_ACCESSES: usize = 32;

// The most pairs, repeated ones counted.
pub const MOST_PAIRS: usize = 64;

// A pair: the access `first` has to come before the access `second`. C hands pairs in, so it is laid out as in C.
#[repr(C)]
#[derive(Clone, Copy, PartialEq, Eq, Default)]
pub struct Precedence {
    pub first: u32,
    pub second: u32,
}

// As many pairs as the count says. Places beyond it mean nothing. An array with a count, and no slice, since C hands it in.
#[repr(C)]
#[derive(Clone, Copy, PartialEq, Eq, Default)]
pub struct Precedences {
    pub count: u32,
    pub pairs: [Precedence; MOST_PAIRS],
}

// What ordering answers: 0 and the order, which is the first `count` places; or the refusal number and no access. The other places
// mean nothing and are 0. A number with places beside it, and no `Result`, since C gets it.
#[repr(C)]
#[derive(Clone, Copy, PartialEq, Eq)]
pub struct Ordered {
    pub answer: u8,
    pub count: u8,
    pub accesses: [u8; MOST_ACCESSES],
}

// Accesses and the pairs that are asked of them, where 43 is not due: there are few enough, and each pair names two of them.
#[derive(Clone, Copy)]
struct Asked<'a> {
    accesses: usize,
    pairs: &'a [Precedence],
    ghost few: { accesses ≤ 32 },
    ghost within: { all_listed accesses pairs.now ≡ true },
}

impl<'a> Asked<'a> {
    fn new(accesses: u32, pairs: &'a Precedences) -> Result<Asked<'a>, Refusal>
        ensures ok { IfOk result (λ asked. answer accesses (precedences_of pairs.now) ≡ arranged asked.accesses asked.pairs.now) }
        ensures err { IfErr result (λ refusal. answer accesses (precedences_of pairs.now) ≡ refuse (refusal_number refusal)) }
    {
        let accesses = accesses as usize;
        let count = pairs.count as usize;
        if accesses > MOST_ACCESSES || count > MOST_PAIRS {
            return Err(Refusal::Unlisted);
        }
        let pairs = &pairs.pairs[..count];
        if !all_listed(accesses, pairs) {
            return Err(Refusal::Unlisted);
        }
        Ok(Asked { accesses, pairs })
    }

    // Marks the accesses that are not ready: those that are placed, and those that a waiting one has to come before. It looks at each
    // pair once, where asking access by access would look at every pair for each. An array of marks: a set of the library takes a heap.
    fn unready(&self, placed: &[bool; MOST_ACCESSES]) -> [bool; MOST_ACCESSES]
        ensures { Unready self.now.accesses self.now.pairs.now placed.now result }
    {
        let mut marks = *placed;
        for pair in self.pairs {
            if !placed[pair.first as usize] {
                marks[pair.second as usize] = true;
            }
        }
        marks
    }

    // The smallest access that is ready.
    fn next_ready(&self, placed: &[bool; MOST_ACCESSES]) -> Option<usize>
        ensures { NextIs self.now.accesses (next self.now.accesses self.now.pairs.now (waits self.now.accesses placed.now)) result }
    {
        let marks = self.unready(placed);
        marks[..self.accesses].iter().position(|marked| !*marked)
    }

    // Again and again the smallest access that is ready. Where some wait and none is ready, some of them wait for each other in a
    // circle.
    fn arrange(&self) -> Result<Ordered, Refusal>
        ensures { record_of result ≡ ordered (arranged self.now.accesses self.now.pairs.now) }
    {
        let mut placed = [false; MOST_ACCESSES];
        let mut accesses = [0; MOST_ACCESSES];
        for place in &mut accesses[..self.accesses] {
            let access = self.next_ready(&placed).ok_or(Refusal::Circle)?;
            placed[access] = true;
            *place = access as u8;
        }
        Ok(Ordered {
            answer: 0,
            count: self.accesses as u8,
            accesses,
        })
    }
}

// Does every pair name two of the accesses?
fn all_listed(accesses: usize, pairs: &[Precedence]) -> bool
    ensures { result ≡ all_listed accesses pairs.now }
{
    pairs.iter().all(|pair| (pair.first as usize) < accesses && (pair.second as usize) < accesses)
}

// The record of the order, or why there is none.
fn first_order(accesses: u32, pairs: &Precedences) -> Result<Ordered, Refusal>
    ensures { record_of result ≡ ordered (answer accesses (precedences_of pairs.now)) }
{
    Asked::new(accesses, pairs)?.arrange()
}

// The first order, compared by access number from the left, that respects all pairs: 43, then 44.
pub fn order(accesses: u32, pairs: &Precedences) -> Ordered
    ensures { result ≡ ordered (answer accesses (precedences_of pairs.now)) }
{
    match first_order(accesses, pairs) {
        Ok(ordered) => ordered,
        Err(refusal) => Ordered {
            answer: refusal.number(),
            count: 0,
            accesses: [0; MOST_ACCESSES],
        },
    }
}
