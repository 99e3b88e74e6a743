// The commands other than `table`: their names, how many numbers each takes, and how large these may be.
use cases::Part;
use queue::Kind;

#[derive(Clone, Copy)]
pub(crate) enum Command {
    Call(Call),
    Each,
    Open,
    Memory,
    Counts,
    Count,
    Share,
    Show,
    Sound,
    Unpack,
    Pack,
    Set(Field),
    SetTable(Part),
    PutTable,
    TakeRecorded,
    Recorded,
    SetRecord,
    Page,
}

// A call on the queue.
#[derive(Clone, Copy)]
pub(crate) enum Call {
    Activate,
    LoadAddress,
    StoreAddress,
    StoreData,
    Take,
    Serve,
    Write,
    Ready(Kind),
}

// The calls of `each`, in their order.
pub(crate) const CALLS: [Call; 9] = [
    Call::Activate,
    Call::LoadAddress,
    Call::StoreAddress,
    Call::StoreData,
    Call::Take,
    Call::Serve,
    Call::Write,
    Call::Ready(Kind::Load),
    Call::Ready(Kind::Store),
];

// A field of the queue's record.
#[derive(Clone, Copy)]
pub(crate) enum Field {
    Depth(Kind),
    Count(Kind),
    Next(Kind),
    Words,
    Entry(Kind),
}

// What each name asks for.
pub(crate) const COMMANDS: [(&[u8], Command); 37] = [
    (b"activate", Command::Call(Call::Activate)),
    (b"load-address", Command::Call(Call::LoadAddress)),
    (b"store-address", Command::Call(Call::StoreAddress)),
    (b"store-data", Command::Call(Call::StoreData)),
    (b"take", Command::Call(Call::Take)),
    (b"serve", Command::Call(Call::Serve)),
    (b"write", Command::Call(Call::Write)),
    (b"ready-loads", Command::Call(Call::Ready(Kind::Load))),
    (b"ready-stores", Command::Call(Call::Ready(Kind::Store))),
    (b"each", Command::Each),
    (b"open", Command::Open),
    (b"memory", Command::Memory),
    (b"counts", Command::Counts),
    (b"count", Command::Count),
    (b"share", Command::Share),
    (b"show", Command::Show),
    (b"sound", Command::Sound),
    (b"unpack", Command::Unpack),
    (b"pack", Command::Pack),
    (b"set-load-depth", Command::Set(Field::Depth(Kind::Load))),
    (b"set-load-count", Command::Set(Field::Count(Kind::Load))),
    (b"set-load-next", Command::Set(Field::Next(Kind::Load))),
    (b"set-store-depth", Command::Set(Field::Depth(Kind::Store))),
    (b"set-store-count", Command::Set(Field::Count(Kind::Store))),
    (b"set-store-next", Command::Set(Field::Next(Kind::Store))),
    (b"set-words", Command::Set(Field::Words)),
    (b"set-load", Command::Set(Field::Entry(Kind::Load))),
    (b"set-store", Command::Set(Field::Entry(Kind::Store))),
    (b"set-groups", Command::SetTable(Part::Count)),
    (b"set-group", Command::SetTable(Part::Group)),
    (b"set-load-pair", Command::SetTable(Part::LoadPair)),
    (b"set-store-pair", Command::SetTable(Part::StorePair)),
    (b"put-table", Command::PutTable),
    (b"take-recorded", Command::TakeRecorded),
    (b"recorded", Command::Recorded),
    (b"set-record", Command::SetRecord),
    (b"page", Command::Page),
];

impl Command {
    // The numbers that it takes, eight letters: `.` none, `w` any, `o` any or none, `f` to 1, `g` to 15, `q` to 31, `p` to 63, `r` to
    // 80, `b` to 255, `h` to 65535.
    pub(crate) fn shape(self) -> &'static [u8; 8] {
        match self {
            Command::Call(call) => call.shape(),
            Command::Set(field) => field.shape(),
            Command::SetTable(Part::Count) => b"b.......",
            Command::SetTable(Part::Group) => b"gbbbb...",
            Command::SetTable(_) => b"qbb.....",
            Command::Each | Command::Share | Command::Show => b"........",
            Command::Sound | Command::PutTable => b"........",
            Command::Open => b"wwww....",
            Command::Memory => b"oooooooo",
            Command::Counts | Command::Unpack | Command::Recorded => b"ww......",
            Command::Count => b"f.......",
            Command::Pack => b"bbfhfwf.",
            Command::TakeRecorded => b"w.......",
            Command::SetRecord => b"qww.....",
            Command::Page => b"h.......",
        }
    }
}

impl Call {
    fn shape(self) -> &'static [u8; 8] {
        match self {
            Call::Activate | Call::Take | Call::Serve | Call::Write => b"w.......",
            Call::LoadAddress | Call::StoreAddress | Call::StoreData => b"ww......",
            Call::Ready(_) => b"r.......",
        }
    }
}

impl Field {
    fn shape(self) -> &'static [u8; 8] {
        match self {
            Field::Depth(_) | Field::Count(_) => b"b.......",
            Field::Next(_) => b"w.......",
            Field::Words => b"h.......",
            Field::Entry(_) => b"pqbfhfwf",
        }
    }
}
