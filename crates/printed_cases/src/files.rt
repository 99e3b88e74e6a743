// Both files, and what a line's bytes add to one.
use arrayvec::ArrayVec;
use printed::files::MOST_BYTES;

// One byte more than a file may have.
const ROOM: usize = MOST_BYTES + 1;

pub(crate) type File = ArrayVec<u8, ROOM>;

#[derive(Drop, Default)]
pub(crate) struct Files {
    pub table: File,
    pub trace: File,
}

// Puts bytes behind those of a file, as many as there is room for. (The pairs of `ordering_cases` go otherwise: two bytes to each, and
// beyond the last place their count goes on.)
fn append(file: &mut File, bytes: &[u8]) {
    let count = bytes.len().min(file.remaining_capacity());
    let _ = file.try_extend_from_slice(&bytes[..count]);
}

// Puts bytes in place of those of a file.
pub(crate) fn replace(file: &mut File, bytes: &[u8]) {
    file.clear();
    append(file, bytes);
}

// Appends the bytes behind the first two as often as these two say, the higher one first; no more often than that changes the file.
pub(crate) fn repeat(file: &mut File, bytes: &[u8]) {
    let [high, low, rest @ ..] = bytes else {
        return;
    };
    for _ in 0..*high as usize * 256 + *low as usize {
        if file.is_full() || rest.is_empty() {
            return;
        }
        append(file, rest);
    }
}
