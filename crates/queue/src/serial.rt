// Serials: "0 follows 4294967295, so age is judged by distance from the oldest entry". Comparing serials by size breaks at 0. A side's next
// serial and count come as two numbers, as `oldest` and `age` take them: its depth says nothing of age.
ghost use Rattle.std.specs.Prelude.{◌≡◌};
ghost use Rattle.queue.specs.Contents.{age, oldest};

// The oldest entry's serial, where `count` entries run up to the next serial.
pub(crate) fn oldest_serial(next: u32, count: u8) -> u32
    ensures { result ≡ oldest next count }
{
    next.wrapping_sub(count as u32)
}

// The place, from the oldest, that a serial names. It is a place of the queue only if it is below the count.
pub(crate) fn place_of(next: u32, count: u8, serial: u32) -> u32
    ensures { result ≡ age (oldest next count) serial }
{
    let oldest = oldest_serial(next, count);
    serial.wrapping_sub(oldest)
}
