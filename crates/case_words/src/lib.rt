// A case in the lent words: a segment's state, and sums over all segments.
#![tactic(auto)]

ghost use Rattle.std.specs.Prelude.{◌≡◌, ◌+◌, ◌*◌, ◌<◌, ◌≤◌, ℕ, length};
ghost use Rattle.laws.specs.Real.{real};
ghost use Rattle.format.specs.Words.{head_in, entry_in, segment_in};
ghost use Rattle.metanet.specs.Step.{on_ramp};
ghost use Rattle.metanet.specs.Words.{sign_in, ramp_in, flows_in, state_in};
ghost use Rattle.laws.specs.Sums.{sum_of};
ghost use Rattle.metanet.proofs.Ready.{vehicles_at};
ghost use Rattle.case_words.specs.Sums.{figure_at, Summable};

use metanet::{Flows, Ramp, SegmentState, SignSetting};
use network_words::kept::Judged;

// The word of the run count; the mark of slot k stands k words after it.
pub const RUN_WORD: usize = network_words::NETWORK_WORDS;

// The word of the arrangement number, and that number.
pub const ARRANGEMENT_WORD: usize = RUN_WORD + 15;

pub const ARRANGEMENT: u64 = 4;

// The first word of the live case.
pub const FIRST_CASE: usize = RUN_WORD + 16;

// Where the cases of a study of n segments stand: case 0 is the live one, 1 to 6 are the slots. The bound of k stays with the call, as that
// of any index: a struct of both would be made anew at each.
#[derive(Clone, Copy)]
pub struct Cases {
    pub n: usize,
    ghost few: { n ≤ 40 },
}

impl Cases {
    // How many words a case has: 16 a state, and 8 for the totals.
    pub fn length(&self) -> usize
        ensures { result ≡ 16 * self.now.n + 8 }
    {
        16 * self.n + 8
    }

    // The first word of case k.
    pub fn word(&self, k: usize) -> usize
        requires { k ≤ 6 }
        ensures { result ≡ 2576 + k * (16 * self.now.n + 8) }
    {
        FIRST_CASE + k * self.length()
    }

    // The first word of its totals.
    pub fn totals(&self, k: usize) -> usize
        requires { k ≤ 6 }
        ensures { result ≡ 2576 + k * (16 * self.now.n + 8) + 16 * self.now.n }
    {
        self.word(k) + 16 * self.n
    }

    // Its first speed.
    pub fn speed(&self, k: usize) -> usize
        requires { k ≤ 6 }
        ensures { result ≡ k * self.now.n }
    {
        k * self.n
    }
}

// The words of a segment's state, which is read at their start.
#[derive(Clone, Copy)]
pub struct StateWords<'a> {
    pub words: &'a [u64],
    ghost long: { 16 ≤ length words.now },
}

impl StateWords<'_> {
    #[tactic(auto, unfolding(metanet::specs::Words::sign_in))]
    fn sign(&self) -> SignSetting
        ensures { result ≡ sign_in self.now.words.now }
    {
        SignSetting {
            limit: self.words[2],
            compliance: self.words[3],
        }
    }

    #[tactic(auto, unfolding(metanet::specs::Words::ramp_in))]
    pub fn ramp(&self) -> Ramp
        ensures { result ≡ ramp_in self.now.words.now }
    {
        Ramp {
            kind: self.words[4],
            rate: self.words[5],
            target: self.words[6],
            gain: self.words[7],
            least: self.words[8],
            interval: self.words[9],
            sum: self.words[12],
            summed: self.words[13],
        }
    }

    #[tactic(auto, unfolding(metanet::specs::Words::flows_in))]
    fn flows(&self) -> Flows
        ensures { result ≡ flows_in self.now.words.now }
    {
        Flows {
            outflow: self.words[10],
            remainder: self.words[14],
            release: self.words[11],
        }
    }

    // The whole state, at speed v.
    #[tactic(auto, unfolding(metanet::specs::Words::state_in))]
    pub fn state(&self, v: f64) -> SegmentState
        ensures { result ≡ state_in self.now.words.now v }
    {
        SegmentState {
            count: self.words[0],
            queue: self.words[1],
            sign: self.sign(),
            ramp: self.ramp(),
            flows: self.flows(),
            speed: v,
        }
    }
}

// Whether segment i, counted from 0, has a ramp, an origin with a segment before it: a release merges there, and it may be metered.
pub fn on_ramp(judged: &Judged<'_>, i: usize) -> bool
    requires { i < (head_in judged.now.net.words.now).size }
    ensures { let w = judged.now.net.words.now in result ≡ on_ramp (head_in w) (entry_in w) (segment_in w) i }
{
    judged.net.origin(i) == 1 && judged.has_before(i)
}

// The mv in segments and queues of a case whose counts and queues are at most 10^12 each.
pub fn vehicles_in(words: &[u64], at: usize, n: usize) -> u64
    requires n_bound { (n ≤ 40) × (at + 16 * n ≤ length words.now) }
    requires by_index { (i : ℕ) → i < n → vehicles_at words.now at i ≤ 2000000000000 }
    ensures { (result ≡ sum_of (vehicles_at words.now at) n) × (result ≤ 2000000000000 * n) }
{
    let mut sum = 0;
    for w in words[at..at + 16 * n].chunks_exact(16) {
        sum += w[0] + w[1];
    }
    sum
}

// The sum of figure o of the n states that start at word at. Counts and queues are summed apart for a report, and in one pass for the rows: a
// sum of either would be two passes, and one over a closure has to say what the closure gives.
pub fn column(words: &[u64], at: usize, o: usize, n: usize) -> u64
    requires { Summable words.now at o n }
    ensures { result ≡ sum_of (figure_at words.now at o) n }
{
    let mut sum = 0;
    for w in words[at..at + 16 * n].chunks_exact(16) {
        sum += w[o];
    }
    sum
}

// A whole number made binary64. Up to 2^53 a signed number serves, which the machine converts in one step.
pub fn whole(n: u64) -> f64
    requires { n ≤ 9007199254740992 }
    ensures { result ≡ real n }
{
    (n as i64) as f64
}
