// Copies into lent arrays, tests of numbers, and numbers in bytes, that several crates use. Between usize, which has 64 bits here, and u64,
// between which Rust has no From, `as` converts, here and in all crates above.
#![tactic(auto)]

pub mod number; // number.rt: big-endian numbers in bytes

ghost use Rattle.std.specs.Prelude.{◌≡◌, min};
ghost use Rattle.laws.specs.First.{outside};
ghost use Rattle.arrays.specs.Over.{over};

// The smaller of two.
pub fn least(a: usize, b: usize) -> usize
    ensures { result ≡ min a b }
{
    a.min(b)
}

// Writes src over the first elements of out, as far as there is room.
#[tactic(auto, unfolding(crate::specs::Over::over))]
fn put<T: Copy>(src: &[T], out: &mut [T])
    ensures { out.new ≡ over src.now out.old }
{
    let n = src.len().min(out.len());
    out[..n].copy_from_slice(&src[..n]);
}

// Writes src over the first words of out, as far as there is room.
pub fn put_words(src: &[u64], out: &mut [u64])
    ensures { out.new ≡ over src.now out.old }
{
    put(src, out);
}

// As put_words, of speeds. They are only copied, so that a NaN keeps its bits, of which the logic says nothing.
pub fn put_speeds(src: &[f64], out: &mut [f64])
    ensures { out.new ≡ over src.now out.old }
{
    put(src, out);
}

// Whether x is not one of least..most.
pub fn outside(least: u64, x: u64, most: u64) -> bool
    ensures { result ≡ outside least x most }
{
    !(least..=most).contains(&x)
}
