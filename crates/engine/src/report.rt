// Figures put into lent words.
ghost use Rattle.std.specs.Prelude.{◌≡◌, ◌≤◌, List, [], ◌∷◌, ℕ};
ghost use Rattle.laws.specs.Refusal.{refused, stopped_by};
ghost use Rattle.metanet.specs.Drain.{time_figures};
ghost use Rattle.book.specs.Question.{figures, says, time_of};
ghost use Rattle.places.specs.Told.{told_place};
ghost use Rattle.engine.specs.Study.{place_figures, told_number, told_words};

use book::{CaseFigures, Ran, SegmentFigures};
use laws::Refusal;
use places::Place;

// What a call answers, as N words.
pub(crate) trait Figures<const N: usize> {
    ghost figures: { Self → List ℕ };

    fn figures(self) -> [u64; N]
        ensures { result ≡ figures self };
}

impl Figures<6> for CaseFigures {
    ghost figures = { λ f. f.steps ∷ f.segments ∷ f.queues ∷ f.arrivals ∷ f.exits ∷ f.time ∷ [] };

    fn figures(self) -> [u64; 6] {
        [
            self.steps,
            self.segments,
            self.queues,
            self.arrivals,
            self.exits,
            self.time,
        ]
    }
}

impl Figures<7> for SegmentFigures {
    ghost figures = { λ f. f.count ∷ f.whole ∷ f.bits ∷ f.queue ∷ f.outflow ∷ f.release ∷ f.rate ∷ [] };

    fn figures(self) -> [u64; 7] {
        [
            self.count,
            self.whole,
            self.bits,
            self.queue,
            self.outflow,
            self.release,
            self.rate,
        ]
    }
}

// How many steps a queue takes to drain, if it ever does.
impl Figures<2> for Option<u64> {
    ghost figures = { λ t. time_figures (time_of t) };

    fn figures(self) -> [u64; 2] {
        match self {
            None => [1, 0],
            Some(steps) => [0, steps],
        }
    }
}

// A count.
impl Figures<1> for u64 {
    ghost figures = { λ n. n ∷ [] };

    fn figures(self) -> [u64; 1] {
        [self]
    }
}

impl Figures<2> for Ran {
    ghost figures = { λ ran. ran.taken ∷ stopped_by ran.stopped ∷ [] };

    fn figures(self) -> [u64; 2] {
        [self.taken, self.stopped.map_or(0, u64::from)]
    }
}

// The bytes at which something stands: its offset and its length.
impl Figures<2> for [u64; 2] {
    ghost figures = { λ place. place };

    fn figures(self) -> [u64; 2] {
        self
    }
}

// Where a network file is wrong; zeros where it is accepted.
impl Figures<4> for Option<Place> {
    ghost figures = { λ p. place_figures (told_place p) };

    fn figures(self) -> [u64; 4] {
        match self {
            None => [0; 4],
            Some(p) => [u64::from(p.refusal), u64::from(p.part), p.rule, p.offset],
        }
    }
}

// Puts what a call answers over the first words of out; later words stay. NoRoom where out is too short: like any other refusal, that
// leaves out as it came. No answer has more than seven words, and an array of N words has to fit into memory.
#[tactic(auto, using(crate::proofs::Calling::telling), unfolding(laws::specs::First::row, crate::specs::Study::told_number, crate::specs::Study::told_words))]
pub(crate) fn put<const N: usize, T: Figures<N>>(
    answer: Result<T, Refusal>,
    out: &mut [u64],
) -> Result<(), Refusal>
    requires { N ≤ 7 }
    ensures value { refused result ≡ told_number (says (λ x. figures (T.figures x)) answer) out.old }
    ensures out_after { out.new ≡ told_words (says (λ x. figures (T.figures x)) answer) out.old }
{
    let figures = answer?.figures();
    if out.len() < N {
        return Err(Refusal::NoRoom);
    }
    out[..N].copy_from_slice(&figures);
    Ok(())
}
