// The state of a segment after a step.
ghost use Rattle.std.specs.Prelude.{◌≡◌, ◌+◌, ◌<◌, ◌≤◌, if◌then◌else◌, nat_eq};
ghost use Rattle.format.specs.Words.{entry_in};
ghost use Rattle.metanet.specs.Case.{alinea_kind};
ghost use Rattle.metanet.specs.Step.{moves, rate_now, ramp_now, new_state};
ghost use Rattle.metanet.proofs.Ready.{new_state_in};

use crate::entering;
use crate::site::Site;
use metanet::{Entry, Flows, Neighbours, Old, Ramp, SegmentState};

impl Site<'_> {
    // Whether its ramp moves its rate; t is the number of steps so far.
    #[tactic(auto, unfolding(metanet::specs::Step::moves))]
    fn is_moved(&self, t: u64) -> bool
        ensures { result ≡ moves self.now.state.ramp t }
    {
        let r = self.ramp();
        if r.kind == 2 {
            return (t % r.interval == 0) & (r.summed != 0);
        }
        false
    }

    // The rate that a step makes.
    #[tactic(auto, unfolding(metanet::specs::Step::rate_now, metanet::specs::Step::rate_of))]
    fn new_rate(&self, t: u64) -> u64
        ensures { result ≡ rate_now self.now.own self.now.state.ramp t }
    {
        if self.is_moved(t) {
            return self.alinea();
        }
        let r = self.ramp();
        if r.kind == 0 {
            return self.own.most;
        }
        r.rate
    }

    // S or m, as x, which an ALINEA ramp adds k to.
    fn added_up(&self, moved: bool, x: u64, k: u64) -> u64
        requires { (x ≤ 60000000000000) × (k ≤ 1000000000000) }
        ensures { result ≡ (if nat_eq self.now.state.ramp.kind alinea_kind then (if moved then 0 else x) + k else x) }
    {
        let r = self.ramp();
        if r.kind != 2 {
            return x;
        }
        if moved {
            return k;
        }
        x + k
    }

    // Its ramp after the step.
    #[tactic(auto, unfolding(metanet::specs::Step::ramp_now, metanet::specs::Step::added_up))]
    fn new_ramp(&self, t: u64) -> Ramp
        ensures { let r = self.now.state in result ≡ ramp_now self.now.own r.count r.ramp t }
    {
        let rate = self.new_rate(t);
        let r = self.ramp();
        let moved = self.is_moved(t);
        Ramp {
            rate,
            sum: self.added_up(moved, r.sum, self.state.count),
            summed: self.added_up(moved, r.summed, 1),
            ..r
        }
    }

    // The new state, from what is around the segment: d is its arrivals.
    fn state_amid(&self, t: u64, d: u64, on_ramp: bool, o: Neighbours) -> SegmentState
        requires { (d ≤ 1000000) × (o.passed ≤ 100000000000000) }
        ensures { let s = self.now in result ≡ new_state s.head s.own (entry_in s.net.words.now s.own.curve 0) s.state t d on_ramp o }
    {
        let r = self.state;
        let ramp = self.new_ramp(t);
        let waiting = r.queue + d;
        let release = waiting.min(ramp.rate).min(o.bound);
        let outflow = self.outflow();
        let old = Old {
            count: r.count,
            queue: r.queue,
            speed: r.speed,
            density: self.density(),
            before: o.before,
            after: o.after,
        };
        let v = self.new_speed(old, o.want, on_ramp, release);
        SegmentState {
            count: r.count + release + o.passed - outflow.whole,
            queue: waiting - release,
            sign: r.sign,
            ramp,
            flows: Flows {
                outflow: outflow.whole,
                remainder: outflow.remainder,
                release,
            },
            speed: v,
        }
    }

    // Its state after the step: d is its arrivals, e what enters it from other segments.
    #[tactic(auto, unfolding(metanet::proofs::Ready::new_state_in, metanet::proofs::Ready::neighbours_in))]
    pub fn new_state(&self, t: u64, d: u64, e: Entry) -> SegmentState
        requires { (d ≤ 1000000) × (e.passed ≤ 100000000000000) × (e.outflows ≤ 100000000000000) }
        ensures { let s = self.now in result ≡ new_state_in s.net.words.now s.rest.words.now s.state.speed d s.i t e }
    {
        let on_ramp = (self.own.origin == 1) & (e.segments != 0);
        let o = Neighbours {
            passed: e.passed,
            before: entering::entry_speed(e, self.state.speed),
            after: self.density_ahead(),
            want: self.desired_speed(),
            bound: self.origin_bound(e.segments == 0),
        };
        self.state_amid(t, d, on_ramp, o)
    }
}
