// Putting texts at a place of a buffer. Here, in `writing` and wherever bytes are put, the place goes in beside the buffer and the end comes
// out: one clause (`Puts`, `PutIfFits`) then says what a call put. A writer that keeps its place would have to be spoken of before and after,
// and callers hand in any place.
ghost use Rattle.number.specs.Number.{PutIfFits};

// Puts some bytes at a place, and says where they end. Where they do not fit, it puts nothing and says the place itself: no `Option`,
// since `PutIfFits` promises a place to every caller.
pub fn put_bytes(out: &mut [u8], at: usize, bytes: &[u8]) -> usize
    ensures { PutIfFits out.old at bytes.now result out.new }
{
    if out.len() < at || out.len() - at < bytes.len() {
        return at;
    }
    let end = at + bytes.len();
    out[at..end].copy_from_slice(bytes);
    end
}
