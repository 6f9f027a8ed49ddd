// What a sign and a setting put into a segment's state of 16 words. They are lent as a slice: as an array they would come in an Option, with an
// arm that is never reached.
ghost use Rattle.std.specs.Prelude.{◌≡◌, false, length};
ghost use Rattle.metanet.specs.Change.{compliance_bad, sign_for, ramp_for};
ghost use Rattle.metanet.specs.Case.{plain_ramp};
ghost use Rattle.metanet.proofs.InWords.{signed_words, metered_words};

use metanet::{Ramp, Setting, SignSetting};

// The sign with a limit and a compliance of −500..500, to which 500 is added; a dark one keeps no compliance.
fn sign_for(limit: u64, compliance: i64) -> SignSetting
    requires { compliance_bad compliance ≡ false }
    ensures { result ≡ sign_for limit compliance }
{
    let compliance = if limit == 0 {
        0
    } else {
        (compliance + 500) as u64
    };
    SignSetting { limit, compliance }
}

// Writes the sign over the state that it is lent.
#[tactic(auto, unfolding(metanet::proofs::InWords::signed_words))]
pub(crate) fn put_sign(state: &mut [u64], limit: u64, compliance: i64)
    requires { (length state.old ≡ 16) × (compliance_bad compliance ≡ false) }
    ensures { state.new ≡ signed_words limit compliance state.old }
{
    let sign = sign_for(limit, compliance);
    state[2] = sign.limit;
    state[3] = sign.compliance;
}

// A ramp without the figures that only ALINEA has.
fn plain_ramp(kind: u64, rate: u64) -> Ramp
    ensures { result ≡ plain_ramp kind rate }
{
    Ramp {
        kind,
        rate,
        target: 0,
        gain: 0,
        least: 0,
        interval: 0,
        sum: 0,
        summed: 0,
    }
}

// R of an open segment is its Q, and ALINEA begins at R = Q, with nothing summed; most is Q.
fn ramp_for(most: u64, setting: Setting) -> Ramp
    ensures { result ≡ ramp_for most setting }
{
    match setting {
        Setting::Open => plain_ramp(0, most),
        Setting::Fixed(rate) => plain_ramp(1, rate),
        Setting::Alinea {
            target,
            gain,
            least,
            interval,
        } => Ramp {
            target,
            gain,
            least,
            interval,
            ..plain_ramp(2, most)
        },
    }
}

// Writes the ramp over it; most is the segment's Q.
#[tactic(auto, unfolding(metanet::proofs::InWords::metered_words))]
pub(crate) fn put_setting(state: &mut [u64], most: u64, setting: Setting)
    requires { length state.old ≡ 16 }
    ensures { state.new ≡ metered_words most setting state.old }
{
    let ramp = ramp_for(most, setting);
    state[4] = ramp.kind;
    state[5] = ramp.rate;
    state[6] = ramp.target;
    state[7] = ramp.gain;
    state[8] = ramp.least;
    state[9] = ramp.interval;
    state[12] = ramp.sum;
    state[13] = ramp.summed;
}
