// Bytes in fixed memory: an array, and how many of its bytes, from its start, are in use.
ghost use Rattle.std.specs.Prelude.{◌≡◌};
ghost use Rattle.slices.specs.FixedBytes.{fixed_of, shown};

// The first `length` of the bytes; the others are not shown.
// No invariant that the length is in the room: callers' contracts speak of lengths that pass it too, as
// rows::fresh_row does for a name of any length, and cutter::cut for a cutter in any state.
#[derive(Clone, Copy)]
pub struct FixedBytes<const N: usize> {
    pub length: usize,
    pub bytes: [u8; N],
}

impl<const N: usize> FixedBytes<N> {
    // The bytes of `src`, with zeros behind them. What passes the room is dropped, and the length
    // says still how many there were. A function, not a From: what is dropped is lost.
    pub fn of(src: &[u8]) -> FixedBytes<N>
        ensures { result ≡ fixed_of N src.now }
    {
        let mut bytes = [0u8; N];
        crate::put(&mut bytes, 0, src);
        FixedBytes {
            length: src.len(),
            bytes,
        }
    }

    // The bytes that are in use; all of them where the length passes the room.
    pub fn as_slice(&self) -> &[u8]
        ensures { result.now ≡ shown self.now }
    {
        crate::first(&self.bytes, self.length)
    }
}
