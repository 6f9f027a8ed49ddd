// A segment as a step sees it: its numbers, its state before the step, and where those of the segments after it stand.
ghost use Rattle.std.specs.Prelude.{◌≡◌, ◌-◌, ◌<◌, ◌≤◌, drop};
ghost use Rattle.format.proofs.Accepted.{HeadWithin, CurveWithin};
ghost use Rattle.format.specs.Words.{head_in, entry_in, segment_in};
ghost use Rattle.metanet.specs.Flow.{exit_part};
ghost use Rattle.metanet.specs.Speed.{area};
ghost use Rattle.metanet.specs.Words.{net_of, state_in};
ghost use Rattle.metanet.proofs.Ready.{SegmentOk, StateOk, RampOk, AheadOk, SegmentAt};

use crate::flow;
use case_words::StateWords;
use format::{Head, Segment};
use metanet::{Ramp, SegmentState};
use network_words::kept::Words;

// Segment i, counted from 0, of a network with this head: its own numbers, its area G in lane-metres, the words from its state on, and
// that state.
#[derive(Clone, Copy)]
pub struct Site<'a> {
    pub(crate) net: Words<'a>,
    pub(crate) head: Head,
    pub(crate) i: usize,
    pub own: Segment,
    pub(crate) lane_metres: u64,
    pub(crate) rest: StateWords<'a>,
    pub(crate) state: SegmentState,
    ghost head_is: { head ≡ head_in net.words.now },
    ghost own_is: { own ≡ segment_in net.words.now i },
    ghost state_is: { state ≡ state_in rest.words.now state.speed },
    ghost head_within: { HeadWithin head },
    ghost segment_ok: { SegmentOk head own (entry_in net.words.now own.curve 0) },
    ghost curve_within: { CurveWithin (entry_in net.words.now own.curve) },
    ghost area_is: { lane_metres ≡ area own },
    ghost area_low: { 0 < lane_metres },
    ghost area_high: { lane_metres ≤ 16000 },
    ghost state_ok: { StateOk own (entry_in net.words.now own.curve 0) state },
    ghost ahead_ok: { AheadOk net.words.now rest.words.now i own.following },
}

impl<'a> Site<'a> {
    // Segment i of the network in the first words of a study, whose head is h; its state starts at word a, and v is its speed.
    pub fn of(words: &'a [u64], h: Head, i: usize, a: usize, v: f64) -> Site<'a>
        requires placed { SegmentAt words.now i a v }
        requires h_value { h ≡ head_in (net_of words.now) }
        ensures net { result.net.words.now ≡ net_of words.now }
        ensures place { (result.i ≡ i) × (result.rest.words.now ≡ drop a words.now) }
        ensures speed { result.state.speed ≡ v }
    {
        let net = Words::of(words);
        let own = net.segment(i);
        let rest = StateWords { words: &words[a..] };
        let state = rest.state(v);
        let lane_metres = flow::area_of(own);
        Site {
            net,
            head: h,
            i,
            own,
            lane_metres,
            rest,
            state,
        }
    }
}

impl Site<'_> {
    // Entry j of its curve, m/h.
    pub(crate) fn entry(&self, j: usize) -> u64
        requires { j ≤ 200 }
        ensures { (result ≡ entry_in self.now.net.words.now self.now.own.curve j) × (result ≤ 200000) }
    {
        self.net.entry(self.own.curve as usize, j)
    }

    // Its ramp, read from the words again: what only ALINEA has is then read only where it is asked for.
    #[tactic(auto, unfolding(metanet::specs::Words::state_in))]
    pub(crate) fn ramp(&self) -> Ramp
        ensures value { result ≡ self.now.state.ramp }
        ensures ok { RampOk self.now.own.most result }
    {
        self.rest.ramp()
    }

    // What it passes on of an outflow.
    pub fn passed_on(&self, outflow: u64) -> u64
        requires { outflow ≤ 1000000000000 }
        ensures { result ≡ outflow - exit_part outflow self.now.own.exit }
    {
        outflow - flow::thousandths(outflow, self.own.exit)
    }
}
