// A segment by the paper's number, 1..n.
ghost use Rattle.std.specs.Prelude.{◌≡◌, not, ◌-◌, ◌≤◌};
ghost use Rattle.laws.specs.First.{outside};
ghost use Rattle.format.specs.Network.{segment_of};
ghost use Rattle.format.specs.Words.{head_in, network_in};
ghost use Rattle.metanet.specs.Step.{ramp_at};
ghost use Rattle.book.specs.Arrangement.{network_at, size_at};

use format::Segment;
use network_words::kept::Judged;

// 17: segment outside 1..n.
#[tactic(auto, using(book::proofs::Network::size_kept))]
pub fn segment_missing(words: &[u64], i: u64) -> bool
    ensures { result ≡ outside 1 i (size_at words.now) }
{
    arrays::outside(1, i, network_words::kept_head(words).size)
}

// Segment i of the network in the words.
#[tactic(auto, using(crate::proofs::Segments::segment_first))]
pub fn segment_at(words: &[u64], i: u64) -> Segment
    requires { (1 ≤ i) × (i ≤ size_at words.now) × (i ≤ 40) }
    ensures { result ≡ segment_of (network_at words.now) (i - 1) }
{
    network_words::kept_segment(words, (i - 1) as u32)
}

// 19: segment i has no ramp, which is an origin with a segment before it.
#[tactic(auto, using(crate::proofs::Segments::ramp_kept))]
pub fn ramp_missing(net: &Judged<'_>, i: u64) -> bool
    requires { (1 ≤ i) × (i ≤ (head_in net.now.net.words.now).size) }
    ensures { result ≡ not (ramp_at (network_in net.now.net.words.now) (i - 1)) }
{
    !case_words::on_ramp(net, (i - 1) as usize)
}
