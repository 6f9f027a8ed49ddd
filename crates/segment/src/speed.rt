// The new speed of one segment: the bracketed binary64 expressions of document 01.
ghost use Rattle.std.specs.Prelude.{◌≡◌, ◌≤◌};
ghost use Rattle.laws.specs.Real.{real, ◌⊘◌};
ghost use Rattle.format.specs.Words.{entry_in};
ghost use Rattle.metanet.specs.Speed.{relaxation, convection, anticipation, merging, keep, new_speed, curve_speed, under_sign};
ghost use Rattle.metanet.specs.Step.{density, whole_speed};

use crate::site::Site;
use metanet::{Old, Sign};

// ρ: n mv on an area g.
pub(crate) fn density_of(g: u64, count: u64) -> f64
    requires { (g ≤ 16000) × (count ≤ 1000000000000) }
    ensures { result ≡ real count ⊘ real g }
{
    case_words::whole(count) / case_words::whole(g)
}

// x where 1,000 ≤ x ≤ f, f where it is above, and 1,000 otherwise; f is F, a number of the curve, bounded so that it is exact as binary64.
#[tactic(auto, unfolding(metanet::specs::Speed::keep))]
fn kept(f: u64, x: f64) -> f64
    requires { f ≤ 200000 }
    ensures { result ≡ keep f x }
{
    let low = case_words::whole(1000);
    let high = case_words::whole(f);
    if (low <= x) & (x <= high) {
        return x;
    }
    if high < x {
        return high;
    }
    low
}

// The desired speed under a sign.
pub(crate) fn under_sign(v: f64, sign: Sign) -> f64
    ensures { result ≡ under_sign v sign }
{
    match sign {
        Sign::Dark => v,
        Sign::Shown(s) => {
            if s < v {
                return s;
            }
            v
        }
    }
}

impl Site<'_> {
    // A: relaxation to the desired speed, m/h.
    fn relax(&self, want: f64, v: f64) -> f64
        ensures { result ≡ relaxation self.now.head want v }
    {
        let h = self.head;
        (case_words::whole(h.step) / case_words::whole(h.tau)) * (want - v)
    }

    // B: convection from upstream, m/h.
    fn convect(&self, o: Old) -> f64
        ensures { result ≡ convection self.now.head self.now.own o }
    {
        let metres = self.own.metres;
        ((case_words::whole(self.head.step) / case_words::whole(3600 * metres)) * o.speed)
            * (o.before - o.speed)
    }

    // D: anticipation of the density ahead, m/h.
    fn anticipate(&self, o: Old) -> f64
        ensures { result ≡ anticipation self.now.head self.now.own o }
    {
        let h = self.head;
        ((case_words::whole(h.nu * 1000000 * h.step) / case_words::whole(h.tau * self.own.metres))
            * (o.after - o.density))
            / (o.density + case_words::whole(h.kappa))
    }

    // E: merging of a release, m/h.
    fn merge(&self, o: Old, release: u64) -> f64
        requires { release ≤ 300000 }
        ensures { result ≡ merging self.now.head self.now.own o release }
    {
        let h = self.head;
        ((case_words::whole(h.delta * release) / case_words::whole(1000 * self.lane_metres))
            * o.speed)
            / (o.density + case_words::whole(h.kappa))
    }

    // ρ: its density.
    #[tactic(auto, unfolding(metanet::specs::Step::density))]
    pub(crate) fn density(&self) -> f64
        ensures { result ≡ density self.now.own self.now.state }
    {
        density_of(self.lane_metres, self.state.count)
    }

    // s: the whole part of v.
    pub(crate) fn whole_speed(&self) -> u64
        ensures { (result ≡ whole_speed self.now.state) × (result ≤ 200000) }
    {
        std::num::truncating_f64_to_u64(self.state.speed)
    }

    // The speed that its curve gives.
    pub(crate) fn curve_speed(&self) -> f64
        ensures { let s = self.now in result ≡ curve_speed (entry_in s.net.words.now s.own.curve) s.state.count s.lane_metres }
    {
        let g = self.lane_metres;
        let n = self.state.count;
        let j = (n / g) as usize;
        if 200 <= j {
            return case_words::whole(self.entry(200));
        }
        let high = self.entry(j);
        let low = self.entry(j + 1);
        case_words::whole(high) - case_words::whole((high - low) * (n % g)) / case_words::whole(g)
    }

    // The new speed; on_ramp says whether the release merges.
    #[tactic(auto, unfolding(metanet::specs::Speed::new_speed))]
    pub(crate) fn new_speed(&self, o: Old, want: f64, on_ramp: bool, release: u64) -> f64
        requires { release ≤ 300000 }
        ensures { result ≡ new_speed self.now.head self.now.own (entry_in self.now.net.words.now self.now.own.curve 0) o want on_ramp release }
    {
        let a = self.relax(want, o.speed);
        let b = self.convect(o);
        let d = self.anticipate(o);
        let x = ((o.speed + a) + b) - d;
        let free = self.entry(0);
        if on_ramp {
            return kept(free, x - self.merge(o, release));
        }
        kept(free, x)
    }
}
