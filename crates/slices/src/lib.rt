#![tactic(auto)]
// Bytes put into a lent buffer, byte slices compared, and two bytes read as a number.
ghost use Rattle.std.specs.Prelude.{◌≡◌, take};
ghost use Rattle.slices.specs.HighFirst.{pair_of};
ghost use Rattle.slices.specs.Put.{put_at};
ghost use Rattle.slices.specs.Same.{same_bytes};

mod fixed_bytes;

pub use fixed_bytes::FixedBytes;

// Puts `src` into `dst` from the place `at` on. All else in `dst` stays, and what would fall
// past its end is dropped.
pub fn put(dst: &mut [u8], at: usize, src: &[u8])
    ensures { dst.new ≡ put_at dst.old at src.now }
{
    let start = at.min(dst.len());
    let count = src.len().min(dst.len() - start);
    dst[start..start + count].copy_from_slice(&src[..count]);
}

// The first `count` bytes of a slice; all of it where it has no more.
// This public function stays, as `same` and `pair` do: each has a row of promises. The library does the work.
pub fn first(s: &[u8], count: usize) -> &[u8]
    ensures { result.now ≡ take count s.now }
{
    &s[..count.min(s.len())]
}

// Whether the two slices hold the same bytes.
pub fn same(a: &[u8], b: &[u8]) -> bool
    ensures { result ≡ same_bytes a.now b.now }
{
    a == b
}

// Two bytes as a number, high byte first.
pub fn pair(high: u8, low: u8) -> u16
    ensures { result ≡ pair_of high low }
{
    u16::from_be_bytes([high, low])
}
