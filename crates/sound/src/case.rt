// Whether a case is sound.
ghost use Rattle.std.specs.Prelude.{◌≡◌, ◌||◌, ◌+◌, ◌*◌, ◌<◌, ◌≤◌};
ghost use Rattle.laws.specs.First.{first_of};
ghost use Rattle.laws.specs.Refusal.{refused};
ghost use Rattle.format.specs.Words.{head_in};
ghost use Rattle.metanet.specs.Words.{net_of};
ghost use Rattle.metanet.proofs.Ready.{CaseAt};
ghost use Rattle.metanet.specs.Sound.{sign_bad, has_alinea, open_bad, fixed_bad, alinea_bad, setting_bad, flows_bad, speed_bad, average_bad, state_bad};
ghost use Rattle.metanet.proofs.InWords.{state_number_in, case_number_in, mean_number_in};
ghost use Rattle.sound.specs.InWords.{on_ramp_in, totals_number_in};

use crate::ranges;
use case_words::StateWords;
use format::Segment;
use laws::Refusal;
use metanet::{Flows, Ramp, SegmentState, Setting, SignSetting};
use network_words::kept::{Judged, Words};

// The most mv of any figure: 10^12.
const MV_MOST: u64 = 1000000000000;

#[tactic(auto, unfolding(metanet::specs::Sound::sign_bad))]
fn sign_bad(r: SignSetting) -> bool
    ensures { result ≡ sign_bad r }
{
    if r.limit == 0 {
        return 0 < r.compliance;
    }
    ranges::limit_bad(r.limit) | (1000 < r.compliance)
}

// Whether any figure that only ALINEA has is there.
#[tactic(auto, unfolding(laws::specs::First::any_of, metanet::specs::Sound::has_alinea))]
fn has_alinea(r: Ramp) -> bool
    ensures { result ≡ has_alinea r }
{
    (0 < r.target) | (0 < r.gain) | (0 < r.least) | (0 < r.interval) | (0 < r.sum) | (0 < r.summed)
}

#[tactic(auto, unfolding(metanet::specs::Sound::open_bad))]
fn open_bad(most: u64, r: Ramp) -> bool
    ensures { result ≡ open_bad most r }
{
    has_alinea(r) | (r.rate != most)
}

#[tactic(auto, unfolding(metanet::specs::Sound::fixed_bad))]
fn fixed_bad(most: u64, r: Ramp) -> bool
    ensures { result ≡ fixed_bad most r }
{
    has_alinea(r) | ranges::setting_bad(most, Setting::Fixed(r.rate))
}

#[tactic(auto, unfolding(laws::specs::First::any_of, metanet::specs::Sound::alinea_bad))]
fn alinea_bad(most: u64, r: Ramp) -> bool
    ensures { result ≡ alinea_bad most r }
{
    let setting = Setting::Alinea {
        target: r.target,
        gain: r.gain,
        least: r.least,
        interval: r.interval,
    };
    ranges::setting_bad(most, setting) | arrays::outside(r.least, r.rate, most)
}

// S and m.
#[tactic(auto, unfolding(metanet::specs::Sound::average_bad))]
fn average_bad(sum: u64, summed: u64) -> bool
    ensures { result ≡ average_bad sum summed }
{
    (60 * MV_MOST < sum) | (60 < summed)
}

// Of segment s.
#[tactic(auto, unfolding(laws::specs::First::any_of, metanet::specs::Sound::flows_bad))]
fn flows_bad(s: Segment, r: Flows) -> bool
    requires { s.metres ≤ 2000 }
    ensures { result ≡ flows_bad s r }
{
    (MV_MOST < r.outflow) | (MV_MOST < r.release) | (3600 * s.metres <= r.remainder)
}

// NaN is in no range.
#[tactic(auto, unfolding(metanet::specs::Sound::speed_bad))]
fn speed_bad(f: u64, v: f64) -> bool
    requires { f ≤ 200000 }
    ensures { result ≡ speed_bad f v }
{
    !((case_words::whole(1000) <= v) & (v <= case_words::whole(f)))
}

// The ramp of segment i of a network: its setting, or S or m; most is the segment's Q. Whether it may be metered is looked for only where it
// is, since every call judges all; most are open. An open or fixed ramp has none of S and m, so that only those of ALINEA can pass their bounds.
#[tactic(auto, using(crate::proofs::Steps::plain_ramps), unfolding(metanet::specs::Sound::setting_bad))]
fn ramp_bad(net: &Judged<'_>, i: usize, most: u64, r: Ramp) -> bool
    requires { i < (head_in net.now.net.words.now).size }
    ensures { result ≡ (setting_bad (on_ramp_in net.now.net.words.now i) most r || average_bad r.sum r.summed) }
{
    if r.kind == 0 {
        return open_bad(most, r);
    }
    if !case_words::on_ramp(net, i) {
        return true;
    }
    match r.kind {
        1 => fixed_bad(most, r),
        2 => alinea_bad(most, r) | average_bad(r.sum, r.summed),
        _ => true,
    }
}

// The state r of segment i, which is s; f is F.
#[tactic(auto, unfolding(laws::specs::First::any_of, metanet::specs::Sound::state_bad))]
fn state_bad(net: &Judged<'_>, i: usize, s: Segment, f: u64, r: SegmentState) -> bool
    requires { (i < (head_in net.now.net.words.now).size) × (s.metres ≤ 2000) × (f ≤ 200000) }
    ensures { result ≡ state_bad (on_ramp_in net.now.net.words.now i) s f r }
{
    (MV_MOST < r.count)
        | (MV_MOST < r.queue)
        | flows_bad(s, r.flows)
        | sign_bad(r.sign)
        | speed_bad(f, r.speed)
        | ramp_bad(net, i, s.most, r.ramp)
}

// A case of n segments in the lent arrays, on the network in the first words: its states start at word at, its speeds at speed from.
#[derive(Clone, Copy)]
pub(crate) struct Case<'a> {
    pub(crate) words: &'a [u64],
    pub(crate) speeds: &'a [f64],
    pub(crate) at: usize,
    pub(crate) from: usize,
    pub(crate) n: usize,
    ghost placed: { CaseAt words.now speeds.now at from n },
}

impl<'a> Case<'a> {
    // Its network.
    #[tactic(auto, using(crate::proofs::Steps::network_kept))]
    fn network(&self) -> Judged<'a>
        ensures { result.net.words.now ≡ net_of self.now.words.now }
    {
        Judged {
            net: Words::of(self.words),
        }
    }
}

impl Case<'_> {
    // 12 where state i is not sound.
    #[tactic(auto, using(crate::proofs::Steps::state_reads), unfolding(laws::specs::First::row, metanet::specs::Sound::state_number))]
    fn check_state(&self, i: usize) -> Result<(), Refusal>
        requires { i < self.now.n }
        ensures { let c = self.now in refused result ≡ state_number_in c.words.now c.speeds.now c.at c.from c.n i }
    {
        let net = self.network();
        let s = net.net.segment(i);
        let f = net.net.entry(s.curve as usize, 0);
        let state = StateWords {
            words: &self.words[self.at + 16 * i..],
        };
        let r = state.state(self.speeds[self.from + i]);
        if state_bad(&net, i, s, f, r) {
            return Err(Refusal::NotSound);
        }
        Ok(())
    }

    // 12 where some state is not. By number, as the network's segments are.
    #[tactic(auto, using(laws::proofs::Refused::row_loop))]
    fn check_states(&self) -> Result<(), Refusal>
        ensures { let c = self.now in refused result ≡ first_of (state_number_in c.words.now c.speeds.now c.at c.from c.n) c.n }
    {
        for i in 0..self.n {
            self.check_state(i)?;
        }
        Ok(())
    }

    // 12 where S or m of state i passes its bound.
    #[tactic(auto, unfolding(laws::specs::First::row))]
    fn check_mean(&self, i: usize) -> Result<(), Refusal>
        requires { i < self.now.n }
        ensures { refused result ≡ mean_number_in self.now.words.now self.now.at i }
    {
        let a = self.at + 16 * i;
        if average_bad(self.words[a + 12], self.words[a + 13]) {
            return Err(Refusal::NotSound);
        }
        Ok(())
    }

    // 12 where one does. By number, as check_states: mean_number_in names state i, and a part of 16 words would first have to be shown to be it.
    #[tactic(auto, using(laws::proofs::Refused::row_loop))]
    pub(crate) fn check_means(&self) -> Result<(), Refusal>
        ensures { let c = self.now in refused result ≡ first_of (mean_number_in c.words.now c.at) c.n }
    {
        for i in 0..self.n {
            self.check_mean(i)?;
        }
        Ok(())
    }

    // 12 where a total passes its bound: vehicles, the mv in segments and queues, or one that is kept.
    #[tactic(auto, unfolding(laws::specs::First::row, laws::specs::First::any_of, metanet::specs::Sound::totals_bad))]
    pub(crate) fn check_totals(&self, vehicles: u64) -> Result<(), Refusal>
        ensures { let c = self.now in refused result ≡ totals_number_in c.words.now (c.at + 16 * c.n) vehicles }
    {
        let e = self.at + 16 * self.n;
        let steps = self.words[e];
        let arrivals = self.words[e + 1];
        let exits = self.words[e + 2];
        let time = self.words[e + 3];
        let bad = (MV_MOST < vehicles)
            | (MV_MOST < arrivals)
            | (MV_MOST < exits)
            | (1000000000000000000 < time)
            | (20000 < steps);
        if bad {
            return Err(Refusal::NotSound);
        }
        Ok(())
    }

    // 12 where the case is not sound.
    pub(crate) fn check(&self) -> Result<(), Refusal>
        ensures { let c = self.now in refused result ≡ case_number_in c.words.now c.speeds.now c.at c.from c.n }
    {
        self.check_states()?;
        let vehicles = case_words::vehicles_in(self.words, self.at, self.n);
        self.check_totals(vehicles)
    }
}
