// Row 28, after rows 7, 27 and 8 of all segments: one with neither a segment before it nor an origin. Of a file and of words alike.
ghost use Rattle.std.specs.Prelude.{◌≡◌, ◌<◌, ◌≤◌, ℕ};
ghost use Rattle.laws.specs.Refusal.{refused};
ghost use Rattle.laws.specs.First.{first_of};
ghost use Rattle.format.specs.declared.Segment.{Segment};
ghost use Rattle.format.specs.Network.{has_before, origin_number};
ghost use Rattle.format.proofs.Accepted.{FollowingWithin};

use crate::rows;
use format::Following;
use laws::Refusal;

// The segments of a network, counted from 0, that rows 7 and 27 accept.
pub trait Segments {
    ghost size: { Self → ℕ };

    ghost segment: { Self → ℕ → Segment };

    // Its origin number, 0 where it has none.
    fn origin(&self, i: u32) -> u64
        requires { i < size self.now }
        ensures { result ≡ (segment self.now i).origin };

    // What follows it.
    fn following(&self, k: u32) -> Following
        requires { k < size self.now }
        ensures { result ≡ (segment self.now k).following };

    // By row 27 each goes on to higher ones.
    ghost onward: { (n : Self) (k : ℕ) → k < size n → FollowingWithin (size n) k (segment n k).following };
}

// Whether some segment goes on to segment i. It is one below i, looked for from i - 1 downwards, since most often the one just before goes
// on to it.
pub fn has_before<S: Segments>(net: &S, i: u32) -> bool
    requires { i < S.size net.now }
    ensures { result ≡ has_before (S.segment net.now) (S.size net.now) i }
{
    (0..i).rev().any(|k| rows::goes_to(net.following(k), i))
}

// Row 28, of the n segments. The chain, which version 1 means, passes it.
#[tactic(auto, using(laws::proofs::Refused::row_loop), unfolding(format::specs::Network::origin_number, laws::specs::First::row))]
pub fn check_origins<S: Segments>(net: &S, n: u32, version: u64) -> Result<(), Refusal>
    requires n_value { n ≡ S.size net.now }
    requires chain_passes { version ≡ 1 → first_of (origin_number (S.segment net.now) n) n ≡ 0 }
    ensures { refused result ≡ first_of (origin_number (S.segment net.now) n) n }
{
    if version == 1 {
        return Ok(());
    }
    for i in 0..n {
        check_origin(net, i)?;
    }
    Ok(())
}

#[tactic(auto, unfolding(format::specs::Network::origin_number, laws::specs::First::row))]
fn check_origin<S: Segments>(net: &S, i: u32) -> Result<(), Refusal>
    requires { i < S.size net.now }
    ensures { refused result ≡ origin_number (S.segment net.now) (S.size net.now) i }
{
    if net.origin(i) == 0 && !has_before(net, i) {
        return Err(Refusal::NothingEnters);
    }
    Ok(())
}
