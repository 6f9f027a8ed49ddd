// Rows of arrivals taken as steps of the live case. Words and speeds stay two parameters: they are the two arrays that C lends. A struct that
// lends both would have to promise of each step that it lends the same two still: two clauses for the one that it saves.
ghost use Rattle.std.specs.Prelude.{◌≡◌, length, Ok};
ghost use Rattle.laws.specs.Sums.{sum_of};
ghost use Rattle.laws.specs.Refusal.{refused};
ghost use Rattle.survey_file.specs.File.{rows_in};
ghost use Rattle.survey_file.proofs.Accepted.{AcceptedSurvey};
ghost use Rattle.metanet.specs.Line.{stepped};
ghost use Rattle.metanet.proofs.Ready.{vehicles_at};
ghost use Rattle.book.specs.Calls.{item};
ghost use Rattle.book.specs.Perform.{lent, refusal_at, stored, perform, Gives};
ghost use Rattle.book.specs.Run.{run_rows, ran_says};
ghost use Rattle.book.proofs.Rows.{RowReady};
ghost use Rattle.study.specs.Rows.{RowTaken};

use book::Ran;
use case_words::{FIRST_CASE, RUN_WORD};
use laws::Refusal;
use refusal::calls;
use sound::live::Live;

// The step of the live case, which nothing refuses; vehicles is its mv. It has as many segments as there are arrivals.
#[tactic(auto, using(crate::proofs::Stepping::accepted_step))]
pub(crate) fn accepted_step(words: &mut [u64], speeds: &mut [f64], arrivals: &[u32], vehicles: u64)
    requires taken { refusal_at (item (stepped arrivals.now)) (lent words.old speeds.old) ≡ 0 }
    requires summed { vehicles ≡ sum_of (vehicles_at words.old 2576) (length arrivals.now) }
    ensures words_after { words.new ≡ (stored (item (stepped arrivals.now)) (lent words.old speeds.old)).words }
    ensures speeds_after { speeds.new ≡ (stored (item (stepped arrivals.now)) (lent words.old speeds.old)).speeds }
{
    let runs = words[RUN_WORD];
    let n = arrivals.len();
    model::step(words, speeds, arrivals, FIRST_CASE, 0, n, vehicles);
    words[RUN_WORD] = runs + 1;
}

// A row as a step, on a study that is sound but perhaps for S, m and the totals of its live case.
#[tactic(auto, using(crate::proofs::Stepping::row_step))]
fn step_row(words: &mut [u64], speeds: &mut [f64], arrivals: &[u32]) -> Result<(), Refusal>
    requires { RowReady words.old speeds.old (length arrivals.now) }
    ensures { RowTaken words.old speeds.old arrivals.now (refused result) words.new speeds.new }
{
    let n = arrivals.len();
    let vehicles = case_words::vehicles_in(words, FIRST_CASE, n);
    let live = Live {
        words,
        speeds,
        n,
        vehicles,
    };
    calls::check_row(&live, arrivals)?;
    accepted_step(words, speeds, arrivals, vehicles);
    Ok(())
}

// The rows of a file of n segments, up to the first that is refused.
#[tactic(auto, using(crate::proofs::Running::row_loop))]
pub(crate) fn run_rows(words: &mut [u64], speeds: &mut [f64], file: &[u8], n: usize) -> Ran
    requires row_ready { RowReady words.old speeds.old n }
    requires accepted_survey { AcceptedSurvey n file.now }
    ensures { Gives (run_rows perform 0 (rows_in file.now) (lent words.old speeds.old)) (ran_says (Ok result)) words.new speeds.new }
{
    let rows = survey::row_count(file);
    // fixed memory: a network has at most 40 segments
    let mut row = [0; 40];
    for k in 0..rows {
        survey::row(file, n, k as usize, &mut row);
        let stopped = step_row(words, speeds, &row[..n]).err();
        // a name for the test: an edit turns it alone, and the proof keeps its names
        let ends = stopped.is_some();
        if ends {
            return Ran { taken: k, stopped };
        }
    }
    Ran {
        taken: rows,
        stopped: None,
    }
}
