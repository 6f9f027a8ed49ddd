// A network's words that are all there, and a network that rows 7 and 27 have judged: what holds of them stands in the types, and no call
// has to say it. An index's bound stays with the call: a struct for an index would be made anew at each.
ghost use Rattle.std.specs.Prelude.{◌≡◌, ◌<◌, ◌≤◌, ℕ, [], length, take, slice_index, slice_index_or};
ghost use Rattle.laws.specs.Refusal.{refused};
ghost use Rattle.format.specs.Network.{curve_number, has_before};
ghost use Rattle.format.specs.Words.{head_in, entry_in, segment_in};
ghost use Rattle.format.proofs.Accepted.{SegmentsKept};
ghost use Rattle.network_words.specs.Rows.{curve_row, origin_rows};

use crate::NETWORK_WORDS;
use format::{Following, Head, Segment};
use laws::Refusal;
use network::origins::{self, Segments};

// The words of a network, of any content.
#[derive(Clone, Copy)]
pub struct Words<'a> {
    pub words: &'a [u64],
    ghost long: { 2560 ≤ length words.now },
}

impl<'a> Words<'a> {
    // The network in the first words of a study.
    pub fn of(study: &'a [u64]) -> Words<'a>
        requires { 2560 ≤ length study.now }
        ensures { result.words.now ≡ take 2560 study.now }
    {
        Words {
            words: &study[..NETWORK_WORDS],
        }
    }
}

impl Words<'_> {
    pub fn head(&self) -> Head
        ensures { result ≡ head_in self.now.words.now }
    {
        crate::kept_head(self.words)
    }

    // The origin of segment i, counted from 0: 1, or 0 for none. Like its kin, it tests no length: every row of a run asks for all segments,
    // and a step reads them.
    #[tactic(auto, unfolding(format::specs::Words::segment_in))]
    pub fn origin(&self, i: usize) -> u64
        requires { i < 40 }
        ensures { result ≡ (segment_in self.now.words.now i).origin }
    {
        self.words[1624 + 16 * i + 5]
    }

    // What follows it.
    #[tactic(auto, unfolding(format::specs::Words::segment_in))]
    pub fn following(&self, i: usize) -> Following
        requires { i < 40 }
        ensures { result ≡ (segment_in self.now.words.now i).following }
    {
        let at = 1624 + 16 * i;
        Following {
            first: self.words[at + 8],
            second: self.words[at + 9],
            share: self.words[at + 10],
        }
    }

    // All its numbers.
    #[tactic(auto, unfolding(format::specs::Words::segment_in))]
    pub fn segment(&self, i: usize) -> Segment
        requires { i < 40 }
        ensures { result ≡ segment_in self.now.words.now i }
    {
        let at = 1624 + 16 * i;
        let following = self.following(i);
        Segment {
            metres: self.words[at],
            lanes: self.words[at + 1],
            curve: self.words[at + 2],
            critical: self.words[at + 3],
            jam: self.words[at + 4],
            origin: self.words[at + 5],
            exit: self.words[at + 6],
            most: self.words[at + 7],
            following,
        }
    }

    // Entry j of curve k.
    pub fn entry(&self, k: usize, j: usize) -> u64
        requires { (k < 8) × (j ≤ 200) }
        ensures { result ≡ entry_in self.now.words.now k j }
    {
        self.words[16 + 201 * k + j]
    }

    // The entries of the first curves, count of them.
    #[tactic(auto, using(crate::proofs::Curves::curves_in))]
    pub(crate) fn curves(&self, count: usize) -> &[[u64; 201]]
        requires { count ≤ 8 }
        ensures long { length result.now ≡ count }
        ensures each { (k : ℕ) → k < count → curve_number (slice_index (slice_index_or result.now k [])) ≡ curve_row self.now.words.now k }
    {
        let (curves, _) = self.words[16..1624].as_chunks::<201>();
        &curves[..count]
    }
}

// A network that rows 7 and 27 refuse nowhere.
#[derive(Clone, Copy)]
pub struct Judged<'a> {
    pub net: Words<'a>,
    ghost kept: { SegmentsKept net.words.now (head_in net.words.now) },
}

impl Judged<'_> {
    // Whether some segment goes on to segment i, counted from 0.
    pub fn has_before(&self, i: usize) -> bool
        requires { i < (head_in self.now.net.words.now).size }
        ensures { result ≡ has_before (segment_in self.now.net.words.now) (head_in self.now.net.words.now).size i }
    {
        origins::has_before(self, i as u32)
    }

    // Row 28, of all segments.
    #[tactic(auto, using(crate::proofs::Rows::chain_passes))]
    pub(crate) fn check_origins(&self) -> Result<(), Refusal>
        ensures { refused result ≡ origin_rows self.now.net.words.now }
    {
        let h = self.net.head();
        origins::check_origins(self, h.size as u32, h.version)
    }
}

impl Segments for Judged<'_> {
    ghost size = { λ n. (head_in n.net.words.now).size };

    ghost segment = { λ n. segment_in n.net.words.now };

    fn origin(&self, i: u32) -> u64 {
        self.net.origin(i as usize)
    }

    fn following(&self, k: u32) -> Following {
        self.net.following(k as usize)
    }

    ghost onward = { λ n. n.kept.onward };
}
