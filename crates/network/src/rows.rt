// Rows 3, 4, 6, 7, 27 and 8 of a network's numbers, whether they stand in a file or in words. Of row 6 only eight entries are judged here. A
// whole curve is judged apart: a file's entries are four bytes each and those in words eight, and each has its own way without a branch.
ghost use Rattle.std.specs.Prelude.{◌≡◌, ◌<◌, ◌≤◌, ◌||◌, ◌&&◌, take, ltb, eqb};
ghost use Rattle.laws.specs.Refusal.{refused};
ghost use Rattle.laws.specs.First.{any_of, row, outside};
ghost use Rattle.format.specs.Network.{version_bad, head_bad, chain, segment_tests, share_tests, not_higher, followers_bad, too_fast, goes_to};
ghost use Rattle.format.proofs.Rows.{following_row};

use format::{Following, Head, Segment};
use laws::Refusal;

// What follows segment i, counted from 0, in version 1: the next of n, and none after the last.
#[tactic(auto, unfolding(format::specs::Network::chain))]
pub fn chain(n: u64, i: u32) -> Following
    ensures { result ≡ chain n i }
{
    let i = u64::from(i);
    Following {
        first: if i + 1 < n { i + 2 } else { 0 },
        second: 0,
        share: 1000,
    }
}

// Row 3.
pub fn version_bad(h: Head) -> bool
    ensures { result ≡ version_bad h }
{
    arrays::outside(1, h.version, 2)
}

// Row 4, of the fields.
#[tactic(auto, unfolding(format::specs::Network::head_bad, laws::specs::First::any_of, laws::specs::First::or_from))]
pub fn head_bad(h: Head) -> bool
    ensures { result ≡ head_bad h }
{
    arrays::outside(1, h.step, 60)
        | arrays::outside(1, h.size, 40)
        | arrays::outside(1, h.curves, 8)
        | arrays::outside(1, h.tau, 120)
        | (200 < h.nu)
        | arrays::outside(1, h.kappa, 200)
        | (1000 < h.delta)
}

// Row 6, of eight entries of a curve, b to i, each against the one before it.
#[tactic(auto, unfolding(laws::specs::First::row))]
pub fn eight_rising(
    a: u64,
    b: u64,
    c: u64,
    d: u64,
    e: u64,
    f: u64,
    g: u64,
    h: u64,
    i: u64,
) -> Result<(), Refusal>
    ensures { refused result ≡ row (ltb a b) 6 (row (ltb b c) 6 (row (ltb c d) 6 (row (ltb d e) 6 (row (ltb e f) 6 (row (ltb f g) 6 (row (ltb g h) 6 (row (ltb h i) 6 0))))))) }
{
    if (a < b) | (b < c) | (c < d) | (d < e) | (e < f) | (f < g) | (g < h) | (h < i) {
        return Err(Refusal::Curve);
    }
    Ok(())
}

// Row 7, of all fields of segment i but Q and the share.
#[tactic(auto, unfolding(laws::specs::First::any_of, laws::specs::First::or_from))]
fn other_fields_bad(h: Head, i: u64, s: Segment) -> bool
    ensures { result ≡ any_of (take 10 (segment_tests h i s)) }
{
    let f = s.following;
    arrays::outside(100, s.metres, 2000)
        | arrays::outside(1, s.lanes, 8)
        | (h.curves <= s.curve)
        | (s.critical < 1)
        | (s.jam <= s.critical)
        | arrays::outside(2, s.jam, 200)
        | (1 < s.origin)
        | ((i == 0) & (s.origin == 0))
        | (1000 < s.exit)
        | ((f.first == 0) & (f.second == 0) & (0 < s.exit))
}

// Row 7, of the most that an origin releases. A branch on the origin costs less than its two tests.
fn most_bad(s: Segment) -> bool
    ensures { result ≡ ((eqb s.origin 0 && ltb 0 s.most) || (eqb s.origin 1 && outside 1 s.most 300000)) }
{
    if s.origin == 0 {
        return 0 < s.most;
    }
    (s.origin == 1) & arrays::outside(1, s.most, 300000)
}

// Row 7, of the fields of segment i, counted from 0, but for the share. The one branch, on the first ten tests, costs less than one value of
// all: it is not taken in an accepted network.
#[tactic(auto, unfolding(laws::specs::First::any_of, laws::specs::First::or_from))]
pub fn fields_bad(h: Head, i: u64, s: Segment) -> bool
    ensures { result ≡ any_of (segment_tests h i s) }
{
    other_fields_bad(h, i, s) || most_bad(s)
}

// Row 7, of the share to the first following segment.
#[tactic(auto, unfolding(laws::specs::First::any_of, laws::specs::First::or_from))]
fn share_bad(s: Segment) -> bool
    ensures { result ≡ any_of (share_tests s) }
{
    let f = s.following;
    (1000 < f.share) | ((f.second == 0) & (f.share != 1000))
}

// Whether a segment of this following goes on to segment i, counted from 0.
pub fn goes_to(f: Following, i: u32) -> bool
    ensures { result ≡ goes_to i f }
{
    let number = u64::from(i) + 1;
    (f.first == number) | (f.second == number)
}

// Whether a following segment, by its number k, is not higher than segment i, counted from 0.
pub fn not_higher(i: u32, k: u64) -> bool
    ensures { result ≡ not_higher i k }
{
    (0 < k) & (k <= u64::from(i) + 1)
}

// Row 27, of what follows segment i, counted from 0.
#[tactic(auto, unfolding(format::specs::Network::followers_bad, laws::specs::First::any_of, laws::specs::First::or_from))]
fn followers_bad(h: Head, i: u32, f: Following) -> bool
    ensures { result ≡ followers_bad h i f }
{
    (not_higher(i, f.first) | not_higher(i, f.second))
        | ((h.size < f.first) | (h.size < f.second))
        | ((f.first == 0) & (0 < f.second))
        | ((0 < f.second) & (f.first == f.second))
}

// Rows 7 and 27, of what follows segment i, counted from 0. Neither refuses the chain, which is what version 1 means.
#[tactic(auto, using(format::proofs::Chain::chain_share, format::proofs::Chain::chain_followers), unfolding(format::proofs::Rows::following_row, laws::specs::First::row))]
pub fn check_following(h: Head, i: u32, s: Segment) -> Result<(), Refusal>
    requires { h.version ≡ 1 → s.following ≡ chain h.size i }
    ensures { refused result ≡ following_row h i s }
{
    if h.version == 1 {
        return Ok(());
    }
    if share_bad(s) {
        return Err(Refusal::Record);
    }
    if followers_bad(h, i, s.following) {
        return Err(Refusal::Followers);
    }
    Ok(())
}

// Row 8, where first is the first entry of the segment's curve.
pub fn too_fast(h: Head, first: u64, s: Segment) -> bool
    requires { (h.step ≤ 60) × (first < 4294967296) × (s.metres ≤ 2000) }
    ensures { result ≡ too_fast h first s }
{
    3600 * s.metres < first * h.step
}
