// What is ahead of a segment and what its drivers want: the density ahead, the desired speed.
ghost use Rattle.std.specs.Prelude.{◌≡◌};
ghost use Rattle.format.specs.Words.{entry_in};
ghost use Rattle.metanet.specs.Step.{sign_of, desired_speed};
ghost use Rattle.metanet.proofs.Ready.{NextOk, next_in, after_in};

use crate::site::Site;
use crate::{entering, flow, speed};
use metanet::Sign;

impl Site<'_> {
    // Its sign: dark, or with the speed that it shows.
    #[tactic(auto, unfolding(metanet::specs::Step::sign_of))]
    fn sign(&self) -> Sign
        ensures { result ≡ sign_of self.now.state.sign }
    {
        let r = self.state.sign;
        if r.limit == 0 {
            return Sign::Dark;
        }
        Sign::Shown(case_words::whole(self.sign_speed()))
    }

    // The desired speed V, m/h.
    #[tactic(auto, unfolding(metanet::specs::Step::desired_speed))]
    pub(crate) fn desired_speed(&self) -> f64
        ensures { result ≡ desired_speed (entry_in self.now.net.words.now self.now.own.curve) self.now.own self.now.state }
    {
        speed::under_sign(self.curve_speed(), self.sign())
    }

    // The density of number k, which follows it.
    fn density_after(&self, k: u64) -> f64
        requires { NextOk self.now.net.words.now self.now.rest.words.now self.now.i k }
        ensures { result ≡ next_in self.now.net.words.now self.now.rest.words.now self.now.i k }
    {
        let j = (k - 1) as usize;
        let count = self.rest.words[16 * (j - self.i)];
        speed::density_of(flow::area_of(self.net.segment(j)), count)
    }

    // ρ': the density of what follows it, or the boundary's where nothing does.
    #[tactic(auto, unfolding(metanet::proofs::Ready::after_in, metanet::specs::Junction::density_ahead, metanet::specs::Step::density))]
    pub(crate) fn density_ahead(&self) -> f64
        ensures { let s = self.now in result ≡ after_in s.net.words.now s.rest.words.now s.i s.own s.state.count }
    {
        let s = self.own;
        let f = s.following;
        if f.first == 0 {
            if self.state.count < s.critical * self.lane_metres {
                return self.density();
            }
            return case_words::whole(s.critical);
        }
        let x = self.density_after(f.first);
        if f.second == 0 {
            return x;
        }
        entering::two_after(x, self.density_after(f.second))
    }
}
