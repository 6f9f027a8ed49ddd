// The questions about a study, and Write. Words and speeds stay two parameters: they are the two arrays that C lends.
#![tactic(auto)]

mod figures; // figures.rt: the figures that a report gives

ghost use Rattle.std.specs.Prelude.{◌≡◌};
ghost use Rattle.laws.specs.Refusal.{refused};
ghost use Rattle.book.specs.Question.{totals, segment, drain, of_case, run_count, case_says, segment_says, drain_says, count_says};
ghost use Rattle.book.specs.Calls.{question};
ghost use Rattle.book.specs.Perform.{Performs};
ghost use Rattle.book.specs.Write.{write_refusal, written_bytes, write_answer};

use crate::figures::Case;
use book::{CaseFigures, SegmentFigures};
use laws::Refusal;
use network_words::kept::Words;
use refusal::calls;

// Report of case k: 0 is the live one, 1..6 are the slots.
#[tactic(auto, using(crate::proofs::Reporting::asked_case))]
pub fn report(words: &[u64], speeds: &[f64], k: u64) -> Result<CaseFigures, Refusal>
    ensures { Performs (question (of_case k totals)) words.now speeds.now (case_says result) words.now speeds.now }
{
    calls::check_case(words, speeds, k)?;
    let case = Case { words, speeds, k };
    Ok(case.figures())
}

// Report of segment i, 1..n, of case k.
#[tactic(auto, using(crate::proofs::Reporting::asked_segment))]
pub fn report_segment(
    words: &[u64],
    speeds: &[f64],
    k: u64,
    i: u64,
) -> Result<SegmentFigures, Refusal>
    ensures { Performs (question (of_case k (segment i))) words.now speeds.now (segment_says result) words.now speeds.now }
{
    calls::check_segment(words, speeds, k, i)?;
    let case = Case { words, speeds, k };
    Ok(case.segment(i))
}

// How many steps the queue of segment i, 1..n, of case k takes to drain; None where it never does.
#[tactic(auto, using(crate::proofs::Reporting::asked_drain))]
pub fn drain(words: &[u64], speeds: &[f64], k: u64, i: u64) -> Result<Option<u64>, Refusal>
    ensures { Performs (question (of_case k (drain i))) words.now speeds.now (drain_says result) words.now speeds.now }
{
    calls::check_drain(words, speeds, k, i)?;
    let case = Case { words, speeds, k };
    let f = case.segment(i);
    Ok(figures::drain_time(f.rate, f.queue))
}

// The run count: accepted steps since Start.
#[tactic(auto, using(crate::proofs::Sound::counts))]
pub fn run_count(words: &[u64], speeds: &[f64]) -> Result<u64, Refusal>
    ensures { Performs (question run_count) words.now speeds.now (count_says result) words.now speeds.now }
{
    sound::check(words, speeds)?;
    Ok(words[case_words::RUN_WORD])
}

// What refuses a Write: 12, and 24 where the buffer is shorter than the file.
#[tactic(auto, using(crate::proofs::Sound::rows), unfolding(laws::specs::First::row, format::specs::Network::network_from, book::specs::Write::write_refusal))]
fn check_write(words: &[u64], speeds: &[f64], out: &[u8]) -> Result<(), Refusal>
    ensures { refused result ≡ write_refusal words.now speeds.now out.now }
{
    sound::check(words, speeds)?;
    let size = network_writer::file_size(Words::of(words).head());
    if (out.len() as u64) < size {
        return Err(Refusal::NoRoom);
    }
    Ok(())
}

// Writes the stored network as a file from the buffer's first byte on, and says how many bytes that is; later bytes stay. A refused call
// leaves the buffer as it came.
#[tactic(auto, using(crate::proofs::Sound::writes))]
pub fn write(words: &[u64], speeds: &[f64], out: &mut [u8]) -> Result<u64, Refusal>
    ensures result_value { count_says result ≡ write_answer words.now speeds.now out.old }
    ensures out_after { out.new ≡ written_bytes words.now speeds.now out.old }
{
    check_write(words, speeds, out)?;
    let net = Words::of(words);
    network_writer::write(net.words, out);
    Ok(network_writer::file_size(net.head()))
}
