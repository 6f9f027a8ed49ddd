// The longest way out of each segment of a network that is kept in words: document 01's recursion in linear time.
#![tactic(auto)]

ghost use Rattle.std.specs.Prelude.{◌≡◌, ◌≤◌, length};
ghost use Rattle.laws.specs.Lists.{table};
ghost use Rattle.format.specs.Words.{head_in, segment_in};
ghost use Rattle.emptying.specs.LongestWay.{longest_way};
ghost use Rattle.ways.specs.Filled.{way_in, FilledFrom};

use network_words::kept::Judged;

// The way out of number k, by a table that has that of segment k − 1; 0 off the road.
#[tactic(auto, unfolding(crate::specs::Filled::way_in))]
fn way_at(ways: &[u64], k: u64) -> u64
    requires { k ≤ length ways.now }
    ensures { result ≡ way_in ways.now k }
{
    if k == 0 { 0 } else { ways[(k - 1) as usize] }
}

// Fills the table from segment i of n on, the last first: each number is taken from those of the segments that follow. It is a recursion,
// and no loop, since the definition is one (docs/DECISIONS.md): n minus the segment number falls.
#[tactic(auto, using(crate::proofs::Filling::one_more))]
fn fill_from(judged: &Judged<'_>, n: usize, i: usize, ways: &mut [u64])
    requires { (n ≡ (head_in judged.now.net.words.now).size) × (length ways.old ≡ n) × (i ≤ n) }
    ensures { FilledFrom judged.now.net.words.now n i ways.new }
{
    if i < n {
        fill_from(judged, n, i + 1, ways);
        let f = judged.net.following(i);
        let first = way_at(ways, f.first);
        let second = way_at(ways, f.second);
        ways[i] = 1 + first.max(second);
    }
}

// Of each segment of a judged network the number of segments on its longest way out, itself included, into as many words as there are
// segments.
#[tactic(auto, using(crate::proofs::Filling::all_filled))]
pub fn longest_ways(judged: &Judged<'_>, ways: &mut [u64])
    requires { length ways.old ≡ (head_in judged.now.net.words.now).size }
    ensures { ways.new ≡ table (longest_way (segment_in judged.now.net.words.now) (head_in judged.now.net.words.now).size) (head_in judged.now.net.words.now).size }
{
    let n = ways.len();
    fill_from(judged, n, 0, ways);
}
