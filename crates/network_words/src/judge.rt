// The rows of a network that is kept in words.
ghost use Rattle.std.specs.Prelude.{◌≡◌, ◌≤◌, slice_index};
ghost use Rattle.laws.specs.Refusal.{refused};
ghost use Rattle.laws.specs.First.{first_of};
ghost use Rattle.format.specs.Network.{curve_number, off_chain};
ghost use Rattle.format.specs.Words.{head_in, entry_in, segment_in};
ghost use Rattle.format.proofs.Accepted.{HeadWithin};
ghost use Rattle.format.proofs.Rows.{on_chain_following};
ghost use Rattle.network_words.specs.Differences.{Differences};
ghost use Rattle.network_words.specs.Rows.{head_row, curve_row, segment_row};

use crate::kept::Words;
use format::{Head, Segment};
use laws::Refusal;
use network::rows;
use network::segments::{self, Numbers};

// Rows 3 and 4.
#[tactic(auto, unfolding(crate::specs::Rows::head_row, laws::specs::First::row))]
pub(crate) fn check_head(h: Head) -> Result<(), Refusal>
    ensures { refused result ≡ head_row h }
{
    if rows::version_bad(h) {
        return Err(Refusal::Version);
    }
    if rows::head_bad(h) {
        return Err(Refusal::Head);
    }
    Ok(())
}

// The OR of the differences of neighbours of a curve, each modulo 2^64. No branch, so that the loop becomes one over vectors; over zip with the
// entries before it takes a sixth longer, over windows by two half as long again.
#[tactic(auto, using(crate::proofs::Differences::difference_loop))]
fn differences(curve: &[u64; 201]) -> u64
    ensures { Differences (slice_index curve.now) 200 result }
{
    let mut acc = 0;
    for (j, next) in curve[1..].iter().enumerate() {
        acc |= curve[j].wrapping_sub(*next);
    }
    acc
}

// Row 6, of one curve. Where no entry rises, each difference is at most the first entry, so below 2^18. Where one rises and each difference
// is below 2^18, it rose to near 2^64, and so is the last entry.
#[tactic(auto, using(crate::proofs::Differences::difference_tests))]
fn check_curve(curve: &[u64; 201]) -> Result<(), Refusal>
    ensures { refused result ≡ curve_number (slice_index curve.now) }
{
    if arrays::outside(1000, curve[0], 200000)
        || 262143 < differences(curve)
        || curve[0] < curve[200]
    {
        return Err(Refusal::Curve);
    }
    Ok(())
}

// Row 6, of the first curves, count of them.
#[tactic(auto, using(laws::proofs::Refused::row_loop))]
pub(crate) fn check_curves(net: &Words<'_>, count: usize) -> Result<(), Refusal>
    requires { count ≤ 8 }
    ensures { refused result ≡ first_of (curve_row net.now.words.now) count }
{
    for curve in net.curves(count) {
        check_curve(curve)?;
    }
    Ok(())
}

// A network in words, whose head and curves are accepted.
#[derive(Drop)]
pub(crate) struct Network<'a> {
    pub(crate) net: Words<'a>,
    pub(crate) head: Head,
    ghost read: { head ≡ head_in net.words.now },
    ghost within: { HeadWithin head },
    ghost curves: { first_of (curve_row net.words.now) head.curves ≡ 0 },
}

impl Numbers for Network<'_> {
    ghost head = { λ n. head_in n.net.words.now };

    ghost segment = { λ n. segment_in n.net.words.now };

    ghost first_entry = { λ n k. entry_in n.net.words.now k 0 };

    ghost also_bad = { λ n i. off_chain (head_in n.net.words.now) i (segment_in n.net.words.now i) };

    fn head(&self) -> Head {
        self.head
    }

    fn segment(&self, i: u32) -> Segment {
        self.net.segment(i as usize)
    }

    #[tactic(auto, using(crate::proofs::Rows::curve_starts))]
    fn first_entry(&self, k: u64) -> u64 {
        self.net.entry(k as usize, 0)
    }

    // In version 1 what follows a segment is the chain, and nothing else.
    fn also_bad(&self, i: u32) -> bool {
        let h = self.head;
        h.version == 1 && self.net.following(i as usize) != rows::chain(h.size, i)
    }

    ghost within = { λ n. rw n.read at n.within };

    ghost chained = { λ n i. on_chain_following (head_in n.net.words.now) i (segment_in n.net.words.now i) };
}

impl Network<'_> {
    // Rows 7, 27 and 8, of all segments.
    #[tactic(auto, unfolding(format::specs::Network::segment_number, network::specs::Segments::segment_row))]
    pub(crate) fn check_segments(&self) -> Result<(), Refusal>
        ensures { refused result ≡ first_of (segment_row self.now.net.words.now self.now.head) self.now.head.size }
    {
        segments::check_segments(self)
    }
}
