// What bounds an origin beside its queue and its rate: a mainstream one the speed, a ramp the room in the segment.
ghost use Rattle.std.specs.Prelude.{◌≡◌, ◌≤◌};
ghost use Rattle.format.specs.Words.{entry_in};
ghost use Rattle.metanet.specs.Flow.{limiting_speed, limiting_density, speed_bound};
ghost use Rattle.metanet.specs.Step.{whole_speed, origin_bound};

use crate::site::Site;

impl Site<'_> {
    // y: the lesser of its speed and that of a shown sign, m/h.
    #[tactic(auto, unfolding(metanet::specs::Flow::limiting_speed))]
    fn limiting_speed(&self) -> u64
        ensures { let r = self.now.state in result ≡ limiting_speed (whole_speed r) r.sign }
    {
        let s = self.whole_speed();
        let sign = self.state.sign;
        if sign.limit == 0 {
            return s;
        }
        s.min(self.sign_speed())
    }

    // g: the greatest density up to J whose entry is at least y, where that of C is. Entries never rise, so it is found by halves among
    // those past C; how often that turns depends on how many these are, and not on y.
    fn limiting_density(&self, y: u64) -> u64
        requires { y ≤ entry_in self.now.net.words.now self.now.own.curve self.now.own.critical }
        ensures { (result ≡ limiting_density (entry_in self.now.net.words.now self.now.own.curve) self.now.own.jam y) × (result ≤ 200) }
    {
        let s = self.own;
        let zero = 16 + 201 * (s.curve as usize);
        let past = &self.net.words[zero + s.critical as usize + 1..zero + s.jam as usize + 1];
        s.critical + past.partition_point(|e| y <= *e) as u64
    }

    // The most mv that a mainstream origin lets in at y m/h.
    fn speed_bound(&self, y: u64) -> u64
        ensures { result ≡ speed_bound self.now.head (entry_in self.now.net.words.now self.now.own.curve) self.now.own y }
    {
        let s = self.own;
        if y < self.entry(s.critical as usize) {
            let g = self.limiting_density(y);
            return s.lanes * y * g * self.head.step / 3600;
        }
        s.most
    }

    // The most mv that its origin lets in.
    #[tactic(auto, unfolding(metanet::specs::Step::origin_bound))]
    pub(crate) fn origin_bound(&self, mainstream: bool) -> u64
        ensures { let s = self.now in result ≡ origin_bound mainstream s.head (entry_in s.net.words.now s.own.curve) s.own s.state }
    {
        if mainstream {
            return self.speed_bound(self.limiting_speed());
        }
        self.jam_bound()
    }
}
