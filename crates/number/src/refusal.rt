// The refusals of document 01, "Calls and their refusals" and "The printed run", and 41 to 44 of document 02: all that calls give, each
// with its number. Accepted is 0. specs/Refusal.antt has the same names.
ghost use Rattle.std.specs.Prelude.{◌≡◌};
ghost use Rattle.number.specs.Refusal.{refusal_number};
ghost use Rattle.number.specs.Reply.{number, reply};

use std::error::Error;
use std::fmt;

// Why a call is refused.
#[derive(Clone, Copy, Debug, PartialEq, Eq, Hash)]
pub enum Refusal {
    // the bytes end inside a number or before it
    Ended = 1,
    // a number's fifth byte is above 0F
    TooLarge = 2,
    // fields per access are not 2
    BadFields = 3,
    // the number of groups is not 1 to 16
    BadGroupCount = 4,
    // a group's counts: one is above 16
    BadCounts = 5,
    // a port is above 31
    BadPort = 6,
    // a port was seen before in the table
    PortSeen = 7,
    // an offset is wrong: a load's above the store count or below the load before, a store's disagreeing with the loads
    BadOffset = 8,
    // bytes are left over after a table
    LeftOver = 9,
    // a lent buffer is too short
    TooShort = 10,
    // the load depth is not 1 to 64
    BadLoadDepth = 11,
    // the store depth is not 1 to 64
    BadStoreDepth = 12,
    // the memory length is not 1 to 4,096
    BadMemoryLength = 13,
    // some group has more loads or stores than its depth
    GroupTooLarge = 14,
    // there is no such group
    NoGroup = 20,
    // there are too few free places on either side
    NoPlace = 21,
    // the port is not in the table
    NoPort = 22,
    // the address is not below the memory length
    BadAddress = 23,
    // no entry waits for the argument
    NoneWaits = 24,
    // the serial is not in the queue
    NoSerial = 25,
    // the load was served already, or the store written
    AlreadyDone = 26,
    // the load to be served, or the store to be written, has no address
    NoAddress = 27,
    // an earlier store has no address, and no nearer one has the load's
    EarlierStoreUnknown = 28,
    // the store to forward from, or the store to be written, has no data
    NoData = 29,
    // the lent memory has another length than at opening
    WrongMemory = 30,
    // an earlier unserved load has no address or the same one
    LoadConflict = 31,
    // an earlier unwritten store has no address or the same one
    StoreConflict = 32,
    // no untaken load of the port is queued
    NoneUntaken = 33,
    // the port's oldest untaken load is not served
    NotServed = 34,
    // an event's kind is above 6
    BadKind = 35,
    // a file has more than 16,384 bytes
    FileTooLong = 36,
    // the record is not one that the rules speak of
    Unsound = 40,
    // a page buffer has fewer than 1,394 bytes
    PageTooShort = 41,
    // S-4: a number of more than one byte has 00 as its last byte
    PaddedNumber = 42,
    // S-6: more than 32 accesses or 64 pairs, or a pair naming an access not listed
    Unlisted = 43,
    // S-6: a circle of pairs
    Circle = 44,
}

impl Refusal {
    // The number that the papers give it.
    pub fn number(self) -> u8
        ensures { result ≡ refusal_number self }
    {
        self as u8
    }
}

// The number of an answer: "accepted is 0", else the refusal's.
pub fn number_of<T>(answer: &Result<T, Refusal>) -> u8
    ensures { result ≡ number (reply answer.now) }
{
    match answer {
        Ok(_) => 0,
        Err(refusal) => refusal.number(),
    }
}

impl fmt::Display for Refusal {
    ghost use Rattle.std.specs.Prelude.{Some, ◌++◌, codes, decimal};

    ghost output = { λ e. Some (codes "refused with " ++ decimal (refusal_number e)) };

    fn fmt<W: fmt::Write>(&self, f: &mut fmt::Formatter<W>) -> fmt::Result {
        write!(f, "refused with {}", self.number())
    }
}

impl Error for Refusal {}
