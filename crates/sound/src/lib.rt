// Whether a case and a study are sound. Words and speeds are two parameters: the two arrays that C lends.
#![tactic(auto)]

pub mod ranges; // ranges.rt: the ranges of a sign and of a ramp's setting
mod case; // case.rt: a case
mod study; // study.rt: a study
pub mod live; // live.rt: the live case before a row of a run

ghost use Rattle.std.specs.Prelude.{◌≡◌, ◌||◌, ◌≤◌, ltb, length, not};
ghost use Rattle.laws.specs.First.{row};
ghost use Rattle.laws.specs.Refusal.{refused};
ghost use Rattle.book.specs.Arrangement.{words_for, speeds_for};
ghost use Rattle.book.specs.Sound.{sound};

use case_words::Cases;
use laws::Refusal;

// Cases 1 to 6. Case 0 is the live one.
pub const SLOTS: usize = 6;

// Whether the arrays hold a sound study. Nothing is presumed of them.
pub fn sound(words: &[u64], speeds: &[f64]) -> bool
    ensures { result ≡ sound words.now speeds.now }
{
    study::check(words, speeds).is_ok()
}

// 12 where the arrays do not hold a sound study.
#[tactic(auto, unfolding(laws::specs::First::row))]
pub fn check(words: &[u64], speeds: &[f64]) -> Result<(), Refusal>
    ensures { refused result ≡ row (not (sound words.now speeds.now)) 12 0 }
{
    if !sound(words, speeds) {
        return Err(Refusal::NotSound);
    }
    Ok(())
}

// Whether the arrays are too short for the live case and the six slots, which stand behind one another.
pub fn too_short(words: &[u64], speeds: &[f64], cases: Cases) -> bool
    ensures { result ≡ (ltb (length words.now) (words_for cases.n) || ltb (length speeds.now) (speeds_for cases.n)) }
{
    (words.len() < cases.word(SLOTS) + cases.length())
        | (speeds.len() < cases.speed(SLOTS) + cases.n)
}
