// Rates and flows of one segment, in mv.
ghost use Rattle.std.specs.Prelude.{◌≡◌, ◌*◌, ◌/◌, ◌<◌, ◌≤◌, min};
ghost use Rattle.metanet.specs.Flow.{jam_bound, sign_speed, alinea_rate};
ghost use Rattle.metanet.specs.Speed.{area};
ghost use Rattle.metanet.specs.Step.{outflow_now, remainder_now};
ghost use Rattle.metanet.proofs.Ready.{AreaOk};

use crate::site::Site;
use format::Segment;

// What a step lets out of a segment, in mv, and the new remainder b.
#[derive(Clone, Copy)]
pub(crate) struct Outflow {
    pub(crate) whole: u64,
    pub(crate) remainder: u64,
}

// G, in lane-metres.
pub(crate) fn area_of(s: Segment) -> u64
    requires { AreaOk s }
    ensures { (result ≡ area s) × (0 < result) × (result ≤ 16000) }
{
    s.metres * s.lanes
}

// The lesser of two. The test is a number, 0 or 1, and no branch, which the library's min does not promise.
fn lesser(a: u64, b: u64) -> u64
    ensures { result ≡ min a b }
{
    let less = u64::from(a < b);
    less * a + (1 - less) * b
}

// The whole part of most × room ÷ range. A division by range is compiled with a branch on how long its operands are, so nothing of room
// is divided by it: scaled is what one mv of room counts for, in parts of 2²², rounded down. The result is low or one more; the last test,
// a number again, says which.
fn portion(most: u64, room: u64, range: u64) -> u64
    requires { (most ≤ 300000) × (room ≤ 3200000) × (0 < range) × (range ≤ 3200000) }
    ensures { result ≡ most * room / range }
{
    let scaled = most * 4194304 / range;
    let low = scaled * room / 4194304;
    low + u64::from((low + 1) * range <= most * room)
}

// What of x a share in thousandths is, rounded down: of an outflow what leaves by the off-ramp, of the rest what goes to the first.
pub fn thousandths(x: u64, share: u64) -> u64
    requires { (x ≤ 1000000000000) × (share ≤ 1000) }
    ensures { (result ≡ x * share / 1000) × (result ≤ x) }
{
    x * share / 1000
}

impl Site<'_> {
    // The speed that its sign shows, m/h.
    pub(crate) fn sign_speed(&self) -> u64
        ensures { (result ≡ sign_speed self.now.state.sign) × (result ≤ 300000) }
    {
        let r = self.state.sign;
        r.limit * (500 + r.compliance)
    }

    // The most that it lets in from its origin: 0 from the jam density on, and at once where there is no origin. Nothing branches on N:
    // its room is J × G less the lesser of J × G and N.
    pub(crate) fn jam_bound(&self) -> u64
        ensures { let s = self.now in result ≡ jam_bound s.own.most s.own.jam s.own.critical s.lane_metres s.state.count }
    {
        let s = self.own;
        if s.most == 0 {
            return 0;
        }
        let full = s.jam * self.lane_metres;
        portion(
            s.most,
            full - lesser(full, self.state.count),
            (s.jam - s.critical) * self.lane_metres,
        )
    }

    // ALINEA's new rate, where at least one step is summed; the quotient goes towards zero on either side of the target.
    pub(crate) fn alinea(&self) -> u64
        requires { 0 < self.now.state.ramp.summed }
        ensures { result ≡ alinea_rate self.now.state.ramp self.now.own.most self.now.lane_metres }
    {
        let r = self.ramp();
        let most = self.own.most;
        let wanted = r.summed * r.target * self.lane_metres;
        let over = r.summed * self.lane_metres;
        if r.sum <= wanted {
            let up = r.gain * (wanted - r.sum) / over;
            return (r.rate + up).clamp(r.least, most);
        }
        let down = r.gain * (r.sum - wanted) / over;
        r.rate.saturating_sub(down).clamp(r.least, most)
    }

    // What a step lets out of it, no more than it has, and the new remainder: one division gives both.
    pub(crate) fn outflow(&self) -> Outflow
        ensures whole { let s = self.now in (result.whole ≡ outflow_now s.head s.own s.state) × (result.whole ≤ s.state.count) }
        ensures remainder { let s = self.now in result.remainder ≡ remainder_now s.head s.own s.state }
    {
        let product = self.state.count * self.whole_speed() * self.head.step
            + self.state.flows.remainder;
        let parts = 3600 * self.own.metres;
        Outflow {
            whole: product / parts,
            remainder: product % parts,
        }
    }
}
