// Entries: the number that one is packed into, and the oldest that lacks something. Packing has functions with names, and no `From`,
// which would not say that a number is packed.
ghost use Rattle.std.specs.Prelude.{◌≡◌, ◌≤◌, length};
ghost use Rattle.queue.specs.Entry.{entry_of, unpacked, number_of};
ghost use Rattle.queue.specs.Contents.{entries_held};
ghost use Rattle.queue.specs.Internal.{entries_in, set_address, set_word, has, lacks_mark, FirstPlace};

use crate::Entry;

// What an entry may have, or be.
#[derive(Clone, Copy, PartialEq, Eq)]
pub(crate) enum Mark {
    Addressed,
    Filled,
    Finished,
}

// The entry that a number holds, from its lowest bits: the port in five, the three marks, `before` in eight, the address in
// sixteen, the word in the rest.
pub fn unpack(number: u64) -> Entry
    ensures { result ≡ unpacked number }
{
    Entry {
        port: (number % 32) as u8,
        before: (number / 256 % 256) as u8,
        addressed: number / 32 % 2 == 1,
        filled: number / 64 % 2 == 1,
        finished: number / 128 % 2 == 1,
        address: (number / 65536 % 65536) as u16,
        word: (number / 4294967296 % 4294967296) as u32,
    }
}

// The number that holds an entry. Of a port above 31, which no table has, it keeps the lowest five bits.
pub fn pack(entry: Entry) -> u64
    ensures { result ≡ number_of entry }
{
    let marks = 32 * entry.addressed as u64
        + 64 * entry.filled as u64
        + 128 * entry.finished as u64;
    let low = entry.port as u64 % 32 + marks + 256 * entry.before as u64;
    low + 65536 * entry.address as u64 + 4294967296 * entry.word as u64
}

impl Entry {
    // It has this address.
    pub(crate) fn set_address(&mut self, address: u16)
        ensures { self.new ≡ set_address address self.old }
    {
        self.addressed = true;
        self.address = address;
    }

    // It has this word: the value of a served load, a store's data.
    pub(crate) fn set_word(&mut self, word: u32)
        ensures { self.new ≡ set_word word self.old }
    {
        self.filled = true;
        self.word = word;
    }

    // Has it the mark?
    pub(crate) fn has(&self, mark: Mark) -> bool
        ensures { result ≡ has mark (entry_of self.now) }
    {
        match mark {
            Mark::Addressed => self.addressed,
            Mark::Filled => self.filled,
            Mark::Finished => self.finished,
        }
    }

    // Of the other side's entries, those that come before it: as many as it remembers.
    pub(crate) fn others_before<'a>(self, others: &'a [u64]) -> &'a [u64]
        requires { self.before ≤ length others.now }
        ensures { entries_in result.now ≡ entries_held self.before others.now }
    {
        &others[..self.before as usize]
    }

    // Is it an entry of the port, without the mark?
    fn lacks(&self, port: u32, mark: Mark) -> bool
        ensures { result ≡ lacks_mark mark port (entry_of self.now) }
    {
        self.port as u32 == port && !self.has(mark)
    }
}

// The place of the port's oldest entry without the mark, if there is one.
pub(crate) fn oldest_without(entries: &[u64], port: u32, mark: Mark) -> Option<usize>
    ensures { FirstPlace (lacks_mark mark port) (entries_in entries.now) result }
{
    entries
        .iter()
        .position(|&number| unpack(number).lacks(port, mark))
}
