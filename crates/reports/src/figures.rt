// The figures that a report gives.
ghost use Rattle.std.specs.Prelude.{◌≡◌, ◌-◌, ◌<◌, ◌≤◌, slice_index};
ghost use Rattle.metanet.specs.Step.{rate_of};
ghost use Rattle.metanet.specs.Sound.{mv_most};
ghost use Rattle.metanet.specs.Drain.{drain_time};
ghost use Rattle.book.specs.Arrangement.{case_word};
ghost use Rattle.book.specs.Question.{time_of};
ghost use Rattle.refusal.specs.Ready.{Reportable};
ghost use Rattle.reports.specs.Figures.{figures_at, state_figures, state_there, figures_there, Showable};

use book::{CaseFigures, SegmentFigures};
use case_words::{Cases, StateWords};
use format::Segment;
use metanet::{Ramp, SegmentState};
use network_words::kept::Words;

// R as reported: Q, which is most, where open. A step says so too, in a line of what it makes of the rate.
#[tactic(auto, unfolding(metanet::specs::Step::rate_of))]
fn rate_of(most: u64, ramp: Ramp) -> u64
    ensures { result ≡ rate_of most ramp }
{
    if ramp.kind == 0 { most } else { ramp.rate }
}

// The figures of the segment s in the state r.
#[tactic(auto, unfolding(crate::specs::Figures::state_figures))]
fn state_figures(s: Segment, r: SegmentState) -> SegmentFigures
    requires { Showable r.speed }
    ensures { result ≡ state_figures s r }
{
    let flows = r.flows;
    SegmentFigures {
        count: r.count,
        whole: std::num::truncating_f64_to_u64(r.speed),
        bits: f64::to_bits(r.speed),
        queue: r.queue,
        outflow: flows.outflow,
        release: flows.release,
        rate: rate_of(s.most, r.ramp),
    }
}

// Case k of a sound study in the lent arrays: the live one, or that of a filled slot.
#[derive(Clone, Copy)]
pub(crate) struct Case<'a> {
    pub(crate) words: &'a [u64],
    pub(crate) speeds: &'a [f64],
    pub(crate) k: u64,
    ghost reportable: { Reportable words.now speeds.now (slice_index words.now 1) k },
}

impl Case<'_> {
    // Where the cases of the study stand.
    #[tactic(auto, using(crate::proofs::Reporting::case_placed))]
    fn cases(&self) -> Cases
        ensures { result.n ≡ slice_index self.now.words.now 1 }
    {
        Cases {
            n: network_words::kept_size(self.words),
        }
    }

    // The figures of the case.
    #[tactic(auto, using(crate::proofs::Reporting::case_read), unfolding(crate::specs::Figures::figures_at))]
    pub(crate) fn figures(&self) -> CaseFigures
        ensures { let n = slice_index self.now.words.now 1 in result ≡ figures_at self.now.words.now (case_word n self.now.k) n }
    {
        let cases = self.cases();
        let at = cases.word(self.k as usize);
        let e = cases.totals(self.k as usize);
        CaseFigures {
            steps: self.words[e],
            segments: case_words::column(self.words, at, 0, cases.n),
            queues: case_words::column(self.words, at, 1, cases.n),
            arrivals: self.words[e + 1],
            exits: self.words[e + 2],
            time: self.words[e + 3],
        }
    }

    // The state of its segment i, counted from 0.
    #[tactic(auto, using(crate::proofs::Reporting::case_placed, laws::proofs::Lists::rest_is))]
    fn state(&self, i: usize) -> SegmentState
        requires { i < slice_index self.now.words.now 1 }
        ensures { result ≡ state_there self.now.words.now self.now.speeds.now self.now.k i }
    {
        let k = self.k as usize;
        let cases = self.cases();
        let own = StateWords {
            words: &self.words[cases.word(k) + 16 * i..],
        };
        own.state(self.speeds[cases.speed(k) + i])
    }

    // The figures of its segment i, from 1.
    #[tactic(auto, using(crate::proofs::Reporting::case_placed))]
    pub(crate) fn segment(&self, i: u64) -> SegmentFigures
        requires { (1 ≤ i) × (i ≤ slice_index self.now.words.now 1) }
        ensures { result ≡ figures_there self.now.words.now self.now.speeds.now self.now.k (i - 1) }
    {
        let i = (i - 1) as usize;
        state_figures(Words::of(self.words).segment(i), self.state(i))
    }
}

// How many steps a queue takes to drain at a rate, in mv and mv a step; None where it never does.
#[tactic(auto, unfolding(metanet::specs::Drain::drain_time))]
pub(crate) fn drain_time(rate: u64, queue: u64) -> Option<u64>
    requires { queue ≤ mv_most }
    ensures { time_of result ≡ drain_time rate queue }
{
    if queue == 0 {
        return Some(0);
    }
    Some(queue.checked_div(rate)? + 1)
}
