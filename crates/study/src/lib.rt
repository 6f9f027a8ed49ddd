// A study in the lent words and speeds: its network, run count and marks, its live case and six slots.
#![tactic(auto)]

mod change; // change.rt: what a sign and a setting put into a state
mod copy; // copy.rt: a case copied to the place of another
mod rows; // rows.rt: a row of arrivals taken as a step, and the rows of a survey file

ghost use Rattle.std.specs.Prelude.{◌≡◌, ◌≤◌};
ghost use Rattle.metanet.specs.Line.{signed, metered, stepped};
ghost use Rattle.book.specs.Calls.{item, hold, recall, drop_slot};
ghost use Rattle.book.specs.Question.{verdict_says};
ghost use Rattle.book.specs.Perform.{Performs};
ghost use Rattle.book.specs.Run.{PerformsRun, ran_says};
ghost use Rattle.refusal.proofs.Settings.{state_word};

use book::Ran;
use case_words::{Cases, FIRST_CASE, RUN_WORD};
use laws::Refusal;
use metanet::Setting;
use refusal::calls;

// The first word of the state of segment i, counted from 1, in the live case.
fn state_word(i: u64) -> usize
    requires { (1 ≤ i) × (i ≤ 40) }
    ensures { result ≡ state_word i }
{
    FIRST_CASE + 16 * (i - 1) as usize
}

// Sets the sign of segment i, from 1: a limit in km/h, 0 where it is dark, with compliance in thousandths.
#[tactic(auto, using(crate::proofs::Answered::sign_call))]
pub fn sign(
    words: &mut [u64],
    speeds: &[f64],
    i: u64,
    limit: u64,
    compliance: i64,
) -> Result<(), Refusal>
    ensures { Performs (item (signed i limit compliance)) words.old speeds.now (verdict_says result) words.new speeds.now }
{
    calls::check_sign(words, speeds, i, limit, compliance)?;
    let at = state_word(i);
    change::put_sign(&mut words[at..at + 16], limit, compliance);
    Ok(())
}

// Sets the ramp of segment i, from 1.
#[tactic(auto, using(crate::proofs::Answered::meter_call))]
pub fn meter(words: &mut [u64], speeds: &[f64], i: u64, setting: Setting) -> Result<(), Refusal>
    ensures { Performs (item (metered i setting)) words.old speeds.now (verdict_says result) words.new speeds.now }
{
    calls::check_meter(words, speeds, i, setting)?;
    let most = refusal::segment::segment_at(words, i).most;
    let at = state_word(i);
    change::put_setting(&mut words[at..at + 16], most, setting);
    Ok(())
}

// One step of the live case, with the arrivals of each segment in mv.
#[tactic(auto, using(crate::proofs::Stepping::step_call))]
pub fn step(words: &mut [u64], speeds: &mut [f64], arrivals: &[u32]) -> Result<(), Refusal>
    ensures { Performs (item (stepped arrivals.now)) words.old speeds.old (verdict_says result) words.new speeds.new }
{
    calls::check_step(words, speeds, arrivals)?;
    let vehicles = case_words::vehicles_in(words, FIRST_CASE, arrivals.len());
    rows::accepted_step(words, speeds, arrivals, vehicles);
    Ok(())
}

// A step of the live case for each row of a survey file, up to the first row that is refused.
#[tactic(auto, using(crate::proofs::Running::run_call))]
pub fn run(words: &mut [u64], speeds: &mut [f64], file: &[u8]) -> Result<Ran, Refusal>
    ensures { PerformsRun file.now words.old speeds.old (ran_says result) words.new speeds.new }
{
    calls::check_run(words, speeds, file)?;
    let n = network_words::kept_size(words);
    Ok(rows::run_rows(words, speeds, file, n))
}

// The live case into slot k, which is then filled.
#[tactic(auto, using(crate::proofs::Answered::hold_call))]
pub fn hold(words: &mut [u64], speeds: &mut [f64], k: u64) -> Result<(), Refusal>
    ensures { Performs (hold k) words.old speeds.old (verdict_says result) words.new speeds.new }
{
    calls::check_hold(words, speeds, k)?;
    let n = network_words::kept_size(words);
    let slot = k as usize;
    copy::copy_case(words, speeds, Cases { n }, 0, slot);
    words[RUN_WORD + slot] = 1;
    Ok(())
}

// Slot k's case over the live one; the slot stays filled.
#[tactic(auto, using(crate::proofs::Answered::recall_call))]
pub fn recall(words: &mut [u64], speeds: &mut [f64], k: u64) -> Result<(), Refusal>
    ensures { Performs (recall k) words.old speeds.old (verdict_says result) words.new speeds.new }
{
    calls::check_recall(words, speeds, k)?;
    let n = network_words::kept_size(words);
    copy::copy_case(words, speeds, Cases { n }, k as usize, 0);
    Ok(())
}

// Changes only slot k's filled mark.
#[tactic(auto, using(crate::proofs::Answered::drop_call))]
pub fn drop_slot(words: &mut [u64], speeds: &[f64], k: u64) -> Result<(), Refusal>
    ensures { Performs (drop_slot k) words.old speeds.now (verdict_says result) words.new speeds.now }
{
    calls::check_recall(words, speeds, k)?;
    words[RUN_WORD + k as usize] = 0;
    Ok(())
}
