// What refuses a call: 12 where the study is not sound, then the rows of its part of the table in their order. Words and speeds stay two
// parameters: they are the two arrays that C lends, and each contract names both.
#![tactic(auto, using(crate::proofs::Rows::asked))]

ghost use Rattle.std.specs.Prelude.{◌≡◌, ◌||◌, ◌+◌, ◌*◌, ◌<◌, ◌≤◌, eqb, length, get_or};
ghost use Rattle.laws.specs.Refusal.{refused};
ghost use Rattle.metanet.specs.Change.{sign_refused};
ghost use Rattle.metanet.specs.Line.{signed, metered, stepped};
ghost use Rattle.book.specs.Arrangement.{filled_at};
ghost use Rattle.book.specs.Question.{totals, segment, drain, of_case};
ghost use Rattle.book.specs.Calls.{item, hold, recall, question};
ghost use Rattle.book.specs.Perform.{lent, refusal_at};
ghost use Rattle.book.specs.Run.{run_refusal};
ghost use Rattle.book.proofs.Rows.{RowReady};
ghost use Rattle.refusal.specs.Ready.{next_step_number};

use crate::{arrivals, refuse_if, segment};
use case_words::Cases;
use laws::Refusal;
use metanet::Setting;
use network_words::kept::{Judged, Words};
use sound::live::Live;
use sound::ranges;

// Slots 1 to 6, as calls name them.
const SLOTS: u64 = sound::SLOTS as u64;

// 18.
fn sign_bad(limit: u64, compliance: i64) -> bool
    ensures { result ≡ sign_refused limit compliance }
{
    ((limit != 0) & ranges::limit_bad(limit)) | !(-500..=500).contains(&compliance)
}

// Sign: 12, 17, 18.
#[tactic(auto, using(crate::proofs::Rows::in_order, crate::proofs::Table::sign_rows))]
pub fn check_sign(
    words: &[u64],
    speeds: &[f64],
    i: u64,
    limit: u64,
    compliance: i64,
) -> Result<(), Refusal>
    ensures { refused result ≡ refusal_at (item (signed i limit compliance)) (lent words.now speeds.now) }
{
    sound::check(words, speeds)?;
    refuse_if(segment::segment_missing(words, i), Refusal::NoSegment)?;
    refuse_if(sign_bad(limit, compliance), Refusal::Sign)
}

// Meter: 12, 17, 19, 20.
pub fn check_meter(words: &[u64], speeds: &[f64], i: u64, setting: Setting) -> Result<(), Refusal>
    ensures { refused result ≡ refusal_at (item (metered i setting)) (lent words.now speeds.now) }
{
    sound::check(words, speeds)?;
    refuse_if(segment::segment_missing(words, i), Refusal::NoSegment)?;
    let net = Judged {
        net: Words::of(words),
    };
    refuse_if(segment::ramp_missing(&net, i), Refusal::NoRamp)?;
    let s = segment::segment_at(words, i);
    refuse_if(ranges::setting_bad(s.most, setting), Refusal::Setting)
}

// How many steps the line of the live case has.
fn steps_taken(words: &[u64], cases: Cases) -> u64
    requires { 2576 + 16 * cases.n < length words.now }
    ensures { result ≡ get_or words.now (2576 + 16 * cases.n) 0 }
{
    words[cases.totals(0)]
}

// The last rows of a step, with as many arrivals as segments: 15, 16. The list is the one that C lends; that it is short stands with each
// function that goes over it, as an index's bound does.
#[tactic(auto, using(crate::proofs::Rows::in_order), unfolding(crate::specs::Ready::next_step_number))]
fn check_next_step(words: &[u64], arrivals: &[u32]) -> Result<(), Refusal>
    requires size { length arrivals.now ≤ 40 }
    requires room { 2576 + 16 * length arrivals.now < length words.now }
    ensures { refused result ≡ next_step_number words.now arrivals.now (length arrivals.now) }
{
    let cases = Cases { n: arrivals.len() };
    arrivals::check_arrivals(&Words::of(words), arrivals)?;
    refuse_if(20000 <= steps_taken(words, cases), Refusal::NoMoreSteps)?;
    refuse_if(1000000 <= words[case_words::RUN_WORD], Refusal::NoMoreSteps)
}

// Step: 12; 13 list length; 15; 16.
#[tactic(auto, using(crate::proofs::Stepping::step_asked))]
pub fn check_step(words: &[u64], speeds: &[f64], arrivals: &[u32]) -> Result<(), Refusal>
    ensures { refused result ≡ refusal_at (item (stepped arrivals.now)) (lent words.now speeds.now) }
{
    sound::check(words, speeds)?;
    refuse_if(
        arrivals.len() != network_words::kept_size(words),
        Refusal::ListLength,
    )?;
    check_next_step(words, arrivals)
}

// Step, with as many arrivals as segments, on a study that is sound but perhaps for S, m and the totals of its live case: 12, 15, 16.
#[tactic(auto, using(crate::proofs::Stepping::row_asked))]
pub fn check_row(live: &Live<'_>, arrivals: &[u32]) -> Result<(), Refusal>
    requires row_ready { RowReady live.now.words.now live.now.speeds.now live.now.n }
    requires arrivals_len { length arrivals.now ≡ live.now.n }
    ensures { refused result ≡ refusal_at (item (stepped arrivals.now)) (lent live.now.words.now live.now.speeds.now) }
{
    live.check()?;
    check_next_step(live.words, arrivals)
}

// A run, before its first row: 12; 25 and 26 by the file.
pub fn check_run(words: &[u64], speeds: &[f64], file: &[u8]) -> Result<(), Refusal>
    ensures { refused result ≡ run_refusal file.now (lent words.now speeds.now) }
{
    sound::check(words, speeds)?;
    survey::check(file, words[1])
}

// Whether slot k is filled: its mark, k words after the run count, is 1.
fn is_filled(words: &[u64], k: u64) -> bool
    requires { (1 ≤ k) × (k ≤ 6) }
    ensures { result ≡ filled_at words.now k }
{
    words.get(case_words::RUN_WORD + k as usize) == Some(&1)
}

// Hold: 12; 21 no such slot; 22 a filled one.
pub fn check_hold(words: &[u64], speeds: &[f64], k: u64) -> Result<(), Refusal>
    ensures { refused result ≡ refusal_at (hold k) (lent words.now speeds.now) }
{
    sound::check(words, speeds)?;
    refuse_if(arrays::outside(1, k, SLOTS), Refusal::NoSlot)?;
    refuse_if(is_filled(words, k), Refusal::SlotFilled)
}

// Recall, and Drop by the same rows: 12; 21 no such slot; 23 an empty one.
pub fn check_recall(words: &[u64], speeds: &[f64], k: u64) -> Result<(), Refusal>
    ensures { refused result ≡ refusal_at (recall k) (lent words.now speeds.now) }
{
    sound::check(words, speeds)?;
    refuse_if(arrays::outside(1, k, SLOTS), Refusal::NoSlot)?;
    refuse_if(!is_filled(words, k), Refusal::SlotEmpty)
}

// Whether there is a case k: the live one, which is case 0, or that of a filled slot.
fn has_case(words: &[u64], k: u64) -> bool
    requires { k ≤ 6 }
    ensures { result ≡ (eqb k 0 || filled_at words.now k) }
{
    k == 0 || is_filled(words, k)
}

// A question about case k, before its own rows, of which totals has none: 12; 21 no such slot; 23 an empty one.
pub fn check_case(words: &[u64], speeds: &[f64], k: u64) -> Result<(), Refusal>
    ensures { refused result ≡ refusal_at (question (of_case k totals)) (lent words.now speeds.now) }
{
    sound::check(words, speeds)?;
    refuse_if(SLOTS < k, Refusal::NoSlot)?;
    refuse_if(!has_case(words, k), Refusal::SlotEmpty)
}

// Report of segment i of case k: 17 segment outside 1..n, after 21 and 23.
pub fn check_segment(words: &[u64], speeds: &[f64], k: u64, i: u64) -> Result<(), Refusal>
    ensures { refused result ≡ refusal_at (question (of_case k (segment i))) (lent words.now speeds.now) }
{
    check_case(words, speeds, k)?;
    refuse_if(segment::segment_missing(words, i), Refusal::NoSegment)
}

// The drain of the queue at segment i of case k: 19 no ramp, after the rows of the segment's report.
#[tactic(auto, using(crate::proofs::Asking::drain_asked))]
pub fn check_drain(words: &[u64], speeds: &[f64], k: u64, i: u64) -> Result<(), Refusal>
    ensures { refused result ≡ refusal_at (question (of_case k (drain i))) (lent words.now speeds.now) }
{
    check_segment(words, speeds, k, i)?;
    let net = Judged {
        net: Words::of(words),
    };
    refuse_if(segment::ramp_missing(&net, i), Refusal::NoRamp)
}
