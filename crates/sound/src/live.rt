// What a step of the live case may break, and a row of a run has judged anew.
ghost use Rattle.std.specs.Prelude.{◌≡◌};
ghost use Rattle.laws.specs.Refusal.{refused};
ghost use Rattle.laws.specs.Sums.{sum_of};
ghost use Rattle.metanet.proofs.Ready.{vehicles_at};
ghost use Rattle.book.proofs.Laid.{Laid};
ghost use Rattle.book.proofs.Rows.{live_number};

use crate::case::Case;
use laws::Refusal;

// A study of n segments in the lent arrays, whose network and lengths are judged; vehicles is the mv in segments and queues of its live case.
#[derive(Clone, Copy)]
pub struct Live<'a> {
    pub words: &'a [u64],
    pub speeds: &'a [f64],
    pub n: usize,
    pub vehicles: u64,
    ghost laid: { Laid words.now speeds.now n },
    ghost summed: { vehicles ≡ sum_of (vehicles_at words.now 2576) n },
}

impl Live<'_> {
    // 12 where S or m of a ramp, or the totals, of the live case pass their bounds.
    #[tactic(auto, using(crate::proofs::Steps::then_next))]
    pub fn check(&self) -> Result<(), Refusal>
        ensures { refused result ≡ live_number self.now.words.now self.now.n }
    {
        let case = Case {
            words: self.words,
            speeds: self.speeds,
            at: case_words::FIRST_CASE,
            from: 0,
            n: self.n,
        };
        case.check_means()?;
        case.check_totals(self.vehicles)
    }
}
