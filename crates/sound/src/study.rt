// Whether a study is sound.
ghost use Rattle.std.specs.Prelude.{◌≡◌, ◌+◌, ◌<◌, ◌≤◌};
ghost use Rattle.laws.specs.First.{first_of};
ghost use Rattle.laws.specs.Refusal.{refused};
ghost use Rattle.book.specs.Sound.{case_number_at, slot_number, cases_number, sound_number};
ghost use Rattle.book.proofs.Laid.{Laid};

use crate::SLOTS;
use crate::case::Case;
use case_words::Cases;
use laws::Refusal;

// A study in the lent arrays, whose network and lengths are judged.
#[derive(Clone, Copy)]
struct Study<'a> {
    words: &'a [u64],
    speeds: &'a [f64],
    cases: Cases,
    ghost laid: { Laid words.now speeds.now cases.n },
}

impl Study<'_> {
    // 12 where case k is not sound.
    #[tactic(auto, using(crate::proofs::Steps::case_steps))]
    fn check_case(&self, k: usize) -> Result<(), Refusal>
        requires { k ≤ SLOTS }
        ensures { refused result ≡ case_number_at self.now.words.now self.now.speeds.now k }
    {
        let case = Case {
            words: self.words,
            speeds: self.speeds,
            at: self.cases.word(k),
            from: self.cases.speed(k),
            n: self.cases.n,
        };
        case.check()
    }

    // 12 where slot k is not: its mark is 0, or 1 with a sound case.
    #[tactic(auto, unfolding(laws::specs::First::row, book::specs::Sound::slot_number))]
    fn check_slot(&self, k: usize) -> Result<(), Refusal>
        requires { k ≤ SLOTS }
        ensures { refused result ≡ slot_number self.now.words.now self.now.speeds.now k }
    {
        match self.words[case_words::RUN_WORD + k] {
            0 => Ok(()),
            1 => self.check_case(k),
            _ => Err(Refusal::NotSound),
        }
    }

    // Slots are numbered from 1, and first_of, by which the definition goes, counts from 0.
    #[tactic(auto, using(laws::proofs::Refused::row_loop))]
    fn check_slots(&self) -> Result<(), Refusal>
        ensures { refused result ≡ first_of (λ k. slot_number self.now.words.now self.now.speeds.now (k + 1)) SLOTS }
    {
        for k in 0..SLOTS {
            self.check_slot(k + 1)?;
        }
        Ok(())
    }

    // 12 of the run count, the arrangement number, the live case or a slot.
    #[tactic(auto, using(crate::proofs::Steps::then_next), unfolding(laws::specs::First::row, book::specs::Sound::cases_number))]
    fn check_cases(&self) -> Result<(), Refusal>
        ensures { refused result ≡ cases_number self.now.words.now self.now.speeds.now }
    {
        if (1000000 < self.words[case_words::RUN_WORD])
            | (self.words[case_words::ARRANGEMENT_WORD] != case_words::ARRANGEMENT)
        {
            return Err(Refusal::NotSound);
        }
        self.check_case(0)?;
        self.check_slots()
    }
}

// 12 where the arrays do not hold a sound study. Nothing is presumed of them. Whatever refuses the network, here it is 12.
#[tactic(auto, using(crate::proofs::Steps::study_steps))]
pub(crate) fn check(words: &[u64], speeds: &[f64]) -> Result<(), Refusal>
    ensures { refused result ≡ sound_number words.now speeds.now }
{
    if words.len() < network_words::NETWORK_WORDS {
        return Err(Refusal::NotSound);
    }
    let net = &words[..network_words::NETWORK_WORDS];
    network_words::check(net).or(Err(Refusal::NotSound))?;
    let cases = Cases {
        n: network_words::kept_size(words),
    };
    if crate::too_short(words, speeds, cases) {
        return Err(Refusal::NotSound);
    }
    let study = Study {
        words,
        speeds,
        cases,
    };
    study.check_cases()
}
