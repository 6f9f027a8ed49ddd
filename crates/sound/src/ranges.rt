// The ranges of a sign and of a ramp's setting, of what a call brings as of what a case holds.
ghost use Rattle.std.specs.Prelude.{◌≡◌};
ghost use Rattle.laws.specs.First.{outside};
ghost use Rattle.metanet.specs.Change.{setting_refused};

use metanet::Setting;

// Whether no sign that is lit shows this limit, in km/h.
pub fn limit_bad(limit: u64) -> bool
    ensures { result ≡ outside 20 limit 200 }
{
    arrays::outside(20, limit, 200)
}

// Whether a figure of the setting is outside its range, where the segment's Q is most.
#[tactic(auto, unfolding(laws::specs::First::any_of))]
pub fn setting_bad(most: u64, setting: Setting) -> bool
    ensures { result ≡ setting_refused most setting }
{
    match setting {
        Setting::Open => false,
        Setting::Fixed(rate) => most < rate,
        Setting::Alinea {
            target,
            gain,
            least,
            interval,
        } => {
            arrays::outside(1, target, 199)
                | arrays::outside(1, gain, 60000)
                | (most < least)
                | arrays::outside(1, interval, 60)
        }
    }
}
