// Rows 7, 27 and 8, segment by segment, of a network in a file and of one in words alike.
ghost use Rattle.std.specs.Prelude.{◌≡◌, ◌<◌, ◌||◌, ℕ, Bool, false};
ghost use Rattle.laws.specs.Refusal.{refused};
ghost use Rattle.laws.specs.First.{any_of, first_of};
ghost use Rattle.format.specs.declared.Head.{Head};
ghost use Rattle.format.specs.declared.Segment.{Segment};
ghost use Rattle.format.specs.Network.{chain, segment_tests};
ghost use Rattle.format.proofs.Accepted.{HeadWithin};
ghost use Rattle.network.specs.Segments.{segment_row};

use crate::rows;
use format::{Head, Segment};
use laws::Refusal;

// The numbers of a network whose head is accepted: its head, its segments and the first entry of each curve. What else row 7 refuses is not
// the same for all: a file has bytes that must be zero, and words of version 1 can say what is not the chain.
pub trait Numbers {
    ghost head: { Self → Head };

    ghost segment: { Self → ℕ → Segment };

    ghost first_entry: { Self → ℕ → ℕ };

    ghost also_bad: { Self → ℕ → Bool };

    fn head(&self) -> Head
        ensures { result ≡ head self.now };

    // Segment i, counted from 0.
    fn segment(&self, i: u32) -> Segment
        requires { i < (head self.now).size }
        ensures { result ≡ segment self.now i };

    // The first entry of curve k, counted from 0. It fits 32 bits, so that row 8's product fits.
    fn first_entry(&self, k: u64) -> u64
        requires { k < (head self.now).curves }
        ensures { (result ≡ first_entry self.now k) × (result < 4294967296) };

    // Whether row 7 refuses segment i for what not all networks have.
    fn also_bad(&self, i: u32) -> bool
        requires { i < (head self.now).size }
        ensures { result ≡ also_bad self.now i };

    // Rows 3 and 4.
    ghost within: { (n : Self) → HeadWithin (head n) };

    // Version 1 means the chain.
    ghost chained: { (n : Self) (i : ℕ) → also_bad n i ≡ false → (head n).version ≡ 1 → (segment n i).following ≡ chain (head n).size i };
}

// Row 7, of segment i, which was read as s, but for its share.
fn fields_bad<N: Numbers>(net: &N, h: Head, i: u32, s: Segment) -> bool
    requires { i < (N.head net.now).size }
    ensures { result ≡ (any_of (segment_tests h i s) || N.also_bad net.now i) }
{
    rows::fields_bad(h, u64::from(i), s) | net.also_bad(i)
}

// Rows 7, 27 and 8, of segment i.
#[tactic(auto, using(crate::proofs::SegmentRows::following_stops))]
fn check_segment<N: Numbers>(net: &N, i: u32) -> Result<(), Refusal>
    requires { i < (N.head net.now).size }
    ensures { refused result ≡ segment_row (N.head net.now) (N.segment net.now) (N.first_entry net.now) (N.also_bad net.now) i }
{
    let h = net.head();
    let s = net.segment(i);
    if fields_bad(net, h, i, s) {
        return Err(Refusal::Record);
    }
    rows::check_following(h, i, s)?;
    if rows::too_fast(h, net.first_entry(s.curve), s) {
        return Err(Refusal::TooFast);
    }
    Ok(())
}

// Rows 7, 27 and 8, of all segments.
#[tactic(auto, using(laws::proofs::Refused::row_loop))]
pub fn check_segments<N: Numbers>(net: &N) -> Result<(), Refusal>
    ensures { refused result ≡ first_of (segment_row (N.head net.now) (N.segment net.now) (N.first_entry net.now) (N.also_bad net.now)) (N.head net.now).size }
{
    for i in 0..net.head().size as u32 {
        check_segment(net, i)?;
    }
    Ok(())
}
