// Reading events and traces: a trace is four leading numbers, then events to the end of its bytes. A place goes beside the bytes, as in
// `read_number`; where one reader goes on, it keeps both (`Reader`).
ghost use Rattle.std.specs.Prelude.{◌≡◌, drop};
ghost use Rattle.number.specs.Number.{read_in};
ghost use Rattle.trace.specs.Event.{read_header, header_reply, kind_reply, event_of, read_kind, event_reply, event_read_in, event_at, place_after, Steps, moved_to};

use crate::{Event, Header, Stepped};
use number::reading::read_number;
use number::refusal::Refusal;

// Reads the four leading numbers of a trace, and says where they end.
pub fn read_header(bytes: &[u8]) -> Result<(Header, usize), Refusal>
    ensures { header_reply result ≡ read_in bytes.now (read_header bytes.now) }
{
    let (load_depth, place) = read_number(bytes, 0)?;
    let (store_depth, place) = read_number(bytes, place)?;
    let (first, place) = read_number(bytes, place)?;
    let (memory_length, place) = read_number(bytes, place)?;
    let header = Header {
        load_depth,
        store_depth,
        first,
        memory_length,
    };
    Ok((header, place))
}

// The event of a kind and its numbers. No `TryFrom`: a kind above 6 is refused before its numbers are read, so none is left to refuse here.
pub(crate) fn event_of(kind: u32, first: u32, second: u32) -> Event
    ensures { result ≡ event_of kind first second }
{
    match kind {
        0 => Event::Activate { group: first },
        1 => Event::LoadAddress {
            port: first,
            address: second,
        },
        2 => Event::StoreAddress {
            port: first,
            address: second,
        },
        3 => Event::StoreData {
            port: first,
            word: second,
        },
        4 => Event::Serve { serial: first },
        5 => Event::Write { serial: first },
        _ => Event::Take { port: first },
    }
}

// Reads what follows an event's kind, and says where it ends. The kind is a number still: it says how many numbers follow.
fn read_kind(bytes: &[u8], kind: u32, at: usize) -> Result<(Event, usize), Refusal>
    ensures { kind_reply result ≡ event_read_in bytes.now (read_kind kind (drop at bytes.now)) }
{
    if 6 < kind {
        return Err(Refusal::BadKind);
    }
    let (first, place) = read_number(bytes, at)?;
    if kind < 1 || 3 < kind {
        return Ok((event_of(kind, first, 0), place));
    }
    let (second, place) = read_number(bytes, place)?;
    Ok((event_of(kind, first, second), place))
}

// Reads the event at a place, and says where it ends; `None` at the end of the bytes. A place past the end is the end.
pub fn read_event(bytes: &[u8], at: usize) -> Result<Option<(Event, usize)>, Refusal>
    ensures { event_reply result ≡ event_at bytes.now at }
{
    if bytes.len() <= at {
        return Ok(None);
    }
    let (kind, place) = read_number(bytes, at)?;
    let found = read_kind(bytes, kind, place)?;
    Ok(Some(found))
}

// One step of a reader that stands at a place: it moves past an event, and stays at the end or where it is refused.
pub fn step_at(bytes: &[u8], at: usize) -> Stepped
    ensures { Steps bytes.now at result }
{
    let read = read_event(bytes, at);
    let next = match read {
        Ok(Some((_, next))) => next,
        _ => at,
    };
    Stepped { read, next }
}

// A reader that stays attached to a lent trace.
#[derive(Drop)]
pub struct Reader<'a> {
    pub bytes: &'a [u8],
    pub at: usize,
}

impl<'a> Reader<'a> {
    // Yields one event, and moves past it; it stays at the end and where it is refused.
    pub fn step(&mut self) -> Result<Option<(Event, usize)>, Refusal>
        ensures yields { event_reply result ≡ event_at self.old.bytes.now self.old.at }
        ensures moves { self.new ≡ moved_to self.old (place_after self.old.at (event_at self.old.bytes.now self.old.at)) }
    {
        let stepped = step_at(self.bytes, self.at);
        self.at = stepped.next;
        stepped.read
    }
}
