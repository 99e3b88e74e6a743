// The commands other than `bytes`: their names, how many numbers each takes, and how large these may be.
use cases::Part;

#[derive(Clone, Copy)]
pub(crate) enum Command {
    Read(Read),
    Check,
    Length,
    Buffer,
    Fill,
    Set(Part),
    Write(Written),
}

// What is read in the bytes.
#[derive(Clone, Copy)]
pub(crate) enum Read {
    Number,
    Event,
    Header,
    Table,
}

// What is written to a buffer.
#[derive(Clone, Copy)]
pub(crate) enum Written {
    Number,
    Header,
    Event,
    Table,
}

// Of each name the numbers that it takes, eight letters for each: `.` none, `a` any, `w` to 4294967295, `k` to 6, `g` to 15, `q` to
// 31, `l` to 128, `b` to 255; and what it asks for.
pub(crate) const COMMANDS: [(&[u8], (&[u8; 8], Command)); 16] = [
    (b"read-number", (b"a.......", Command::Read(Read::Number))),
    (b"read-event", (b"a.......", Command::Read(Read::Event))),
    (b"read-header", (b"........", Command::Read(Read::Header))),
    (b"read-table", (b"........", Command::Read(Read::Table))),
    (b"check", (b"........", Command::Check)),
    (b"length", (b"w.......", Command::Length)),
    (b"buffer", (b"l.......", Command::Buffer)),
    (b"fill", (b"........", Command::Fill)),
    (b"set-groups", (b"b.......", Command::Set(Part::Count))),
    (b"set-group", (b"gbbbb...", Command::Set(Part::Group))),
    (
        b"set-load-pair",
        (b"qbb.....", Command::Set(Part::LoadPair)),
    ),
    (
        b"set-store-pair",
        (b"qbb.....", Command::Set(Part::StorePair)),
    ),
    (
        b"write-number",
        (b"lw......", Command::Write(Written::Number)),
    ),
    (
        b"write-header",
        (b"lwwww...", Command::Write(Written::Header)),
    ),
    (
        b"write-event",
        (b"lkww....", Command::Write(Written::Event)),
    ),
    (
        b"write-table",
        (b"l.......", Command::Write(Written::Table)),
    ),
];
