// The C interface: include/engine.h declares these functions for C. A slice passes as a pointer and a length.
#![tactic(auto, using(crate::proofs::Calling::interface))]

mod report; // report.rt: figures put into lent words

ghost use Rattle.std.specs.Prelude.{◌≡◌, not, []};
ghost use Rattle.laws.specs.First.{row};
ghost use Rattle.laws.specs.Refusal.{refused};
ghost use Rattle.format.specs.File.{file_number};
ghost use Rattle.format.specs.Curve.{curve_call_number};
ghost use Rattle.survey_file.specs.Written.{write_number, written_survey};
ghost use Rattle.metanet.specs.declared.Setting.TheVariants.{Open, Fixed, Alinea};
ghost use Rattle.metanet.specs.Line.{signed, metered, stepped};
ghost use Rattle.book.specs.Sound.{sound};
ghost use Rattle.book.specs.Question.{totals, segment, drain, of_case, run_count, says, figures};
ghost use Rattle.book.specs.Calls.{start, item, hold, recall, drop_slot, question};
ghost use Rattle.book.specs.Write.{write_refusal, written_bytes};
ghost use Rattle.engine.specs.Study.{told_number, told_words, curve_place, file_place, Called, CalledRead, CalledRun};

use laws::Refusal;
use metanet::Setting;
use refusal::calls;

// The number of what refuses a call, or 0.
fn number_of(answer: Result<(), Refusal>) -> u64
    ensures { result ≡ refused answer }
{
    match answer {
        Ok(()) => 0,
        Err(why) => u64::from(why),
    }
}

// The number that refuses a network file, and 0 where it is accepted.
#[unsafe(no_mangle)]
pub extern "C" fn network_check(file: &[u8]) -> u64
    ensures { result ≡ file_number file.now }
{
    number_of(network::check(file))
}

// The number that refuses curve k of a file, and 0 where nothing does.
#[unsafe(no_mangle)]
pub extern "C" fn network_curve_number(file: &[u8], k: u64) -> u64
    ensures { result ≡ curve_call_number file.now k }
{
    number_of(network::check_curve(file, k))
}

// Where curve k stands in the file: its byte offset and its length.
fn curve_place(file: &[u8], k: u64) -> Result<[u64; 2], Refusal>
    ensures { says figures result ≡ curve_place file.now k }
{
    network::check_curve(file, k)?;
    Ok([network::curve_start(k as u32), 804])
}

// The offset into place[0] and the length into place[1].
#[unsafe(no_mangle)]
pub extern "C" fn network_curve(file: &[u8], k: u64, place: &mut [u64]) -> u64
    ensures value { result ≡ told_number (curve_place file.now k) place.old }
    ensures place_after { place.new ≡ told_words (curve_place file.now k) place.old }
{
    number_of(report::put(curve_place(file, k), place))
}

// Where a file is wrong: the number that refuses it, or 0, then part, rule and byte offset, into place[0] to place[3].
#[unsafe(no_mangle)]
pub extern "C" fn network_place(file: &[u8], place: &mut [u64]) -> u64
    ensures value { result ≡ told_number (file_place file.now) place.old }
    ensures place_after { place.new ≡ told_words (file_place file.now) place.old }
{
    number_of(report::put(Ok(places::place_of(file)), place))
}

// ---- a survey file

// Its arrivals for n segments into a list, its row count into figures[0]. Without room for that no arrival is put.
#[unsafe(no_mangle)]
pub extern "C" fn survey_read(file: &[u8], n: u64, arrivals: &mut [u32], figures: &mut [u64]) -> u64
    ensures { CalledRead n file.now arrivals.old figures.old result arrivals.new figures.new }
{
    if figures.is_empty() {
        return number_of(survey::check(file, n).and(Err(Refusal::NoRoom)));
    }
    number_of(report::put(survey::read(file, n, arrivals), figures))
}

// The file of a list of arrivals, rows of n, from the buffer's first byte on; later bytes stay.
#[unsafe(no_mangle)]
pub extern "C" fn survey_write(n: u64, arrivals: &[u32], out: &mut [u8]) -> u64
    ensures value { result ≡ write_number n arrivals.now out.old }
    ensures out_after { out.new ≡ written_survey n arrivals.now out.old }
{
    number_of(survey::write(n, arrivals, out))
}

// ---- a study; docs/ARRANGEMENT.md says where it stands in the two arrays

// 12 where the arrays do not hold a sound study, or 0.
#[unsafe(no_mangle)]
pub extern "C" fn study_sound(words: &[u64], speeds: &[f64]) -> u64
    ensures { result ≡ row (not (sound words.now speeds.now)) 12 0 }
{
    number_of(sound::check(words, speeds))
}

// Begins a study on a network file.
#[unsafe(no_mangle)]
pub extern "C" fn study_start(
    words: &mut [u64],
    speeds: &mut [f64],
    file: &[u8],
    mvs: &[u32],
    initial: &[u32],
    queues: &[u32],
) -> u64
    ensures { Called (start file.now mvs.now initial.now queues.now) words.old speeds.old [] result words.new speeds.new [] }
{
    number_of(begin::start(words, speeds, file, mvs, initial, queues))
}

// The sign of a segment of the live case.
#[unsafe(no_mangle)]
pub extern "C" fn study_sign(
    words: &mut [u64],
    speeds: &[f64],
    segment: u64,
    limit: u64,
    compliance: i64,
) -> u64
    ensures { Called (item (signed segment limit compliance)) words.old speeds.now [] result words.new speeds.now [] }
{
    number_of(study::sign(words, speeds, segment, limit, compliance))
}

// The setting of a segment's ramp in the live case: open, fixed, or ALINEA.
#[unsafe(no_mangle)]
pub extern "C" fn study_meter_open(words: &mut [u64], speeds: &[f64], segment: u64) -> u64
    ensures { Called (item (metered segment Open)) words.old speeds.now [] result words.new speeds.now [] }
{
    number_of(study::meter(words, speeds, segment, Setting::Open))
}

#[unsafe(no_mangle)]
pub extern "C" fn study_meter_fixed(
    words: &mut [u64],
    speeds: &[f64],
    segment: u64,
    rate: u64,
) -> u64
    ensures { Called (item (metered segment (Fixed rate))) words.old speeds.now [] result words.new speeds.now [] }
{
    number_of(study::meter(words, speeds, segment, Setting::Fixed(rate)))
}

#[unsafe(no_mangle)]
pub extern "C" fn study_meter_alinea(
    words: &mut [u64],
    speeds: &[f64],
    segment: u64,
    target: u64,
    gain: u64,
    least: u64,
    interval: u64,
) -> u64
    ensures { Called (item (metered segment (Alinea target gain least interval))) words.old speeds.now [] result words.new speeds.now [] }
{
    let setting = Setting::Alinea {
        target,
        gain,
        least,
        interval,
    };
    number_of(study::meter(words, speeds, segment, setting))
}

// One step of the live case.
#[unsafe(no_mangle)]
pub extern "C" fn study_step(words: &mut [u64], speeds: &mut [f64], arrivals: &[u32]) -> u64
    ensures { Called (item (stepped arrivals.now)) words.old speeds.old [] result words.new speeds.new [] }
{
    number_of(study::step(words, speeds, arrivals))
}

// The rows of a survey file as steps of the live case: rows taken and the number that stopped them, or 0, into figures[0] and [1].
// Without room for the two no row is taken.
#[unsafe(no_mangle)]
pub extern "C" fn study_run(
    words: &mut [u64],
    speeds: &mut [f64],
    file: &[u8],
    figures: &mut [u64],
) -> u64
    ensures { CalledRun file.now words.old speeds.old figures.old result words.new speeds.new figures.new }
{
    if figures.len() < 2 {
        return number_of(calls::check_run(words, speeds, file).and(Err(Refusal::NoRoom)));
    }
    number_of(report::put(study::run(words, speeds, file), figures))
}

// The live case into a slot.
#[unsafe(no_mangle)]
pub extern "C" fn study_hold(words: &mut [u64], speeds: &mut [f64], slot: u64) -> u64
    ensures { Called (hold slot) words.old speeds.old [] result words.new speeds.new [] }
{
    number_of(study::hold(words, speeds, slot))
}

// A slot's case over the live one.
#[unsafe(no_mangle)]
pub extern "C" fn study_recall(words: &mut [u64], speeds: &mut [f64], slot: u64) -> u64
    ensures { Called (recall slot) words.old speeds.old [] result words.new speeds.new [] }
{
    number_of(study::recall(words, speeds, slot))
}

// Empties a slot.
#[unsafe(no_mangle)]
pub extern "C" fn study_drop(words: &mut [u64], speeds: &[f64], slot: u64) -> u64
    ensures { Called (drop_slot slot) words.old speeds.now [] result words.new speeds.now [] }
{
    number_of(study::drop_slot(words, speeds, slot))
}

// Six figures of case k.
#[unsafe(no_mangle)]
pub extern "C" fn study_report(words: &[u64], speeds: &[f64], k: u64, figures: &mut [u64]) -> u64
    ensures { Called (question (of_case k totals)) words.now speeds.now figures.old result words.now speeds.now figures.new }
{
    number_of(report::put(reports::report(words, speeds, k), figures))
}

// Seven figures of segment i of case k.
#[unsafe(no_mangle)]
pub extern "C" fn study_report_segment(
    words: &[u64],
    speeds: &[f64],
    k: u64,
    i: u64,
    figures: &mut [u64],
) -> u64
    ensures { Called (question (of_case k (segment i))) words.now speeds.now figures.old result words.now speeds.now figures.new }
{
    number_of(report::put(reports::report_segment(words, speeds, k, i), figures))
}

// How long the queue at segment i of case k takes to drain: 1 where it never does, else 0, and the steps, into figures[0] and [1].
#[unsafe(no_mangle)]
pub extern "C" fn study_drain(
    words: &[u64],
    speeds: &[f64],
    k: u64,
    i: u64,
    figures: &mut [u64],
) -> u64
    ensures { Called (question (of_case k (drain i))) words.now speeds.now figures.old result words.now speeds.now figures.new }
{
    number_of(report::put(reports::drain(words, speeds, k, i), figures))
}

// The run count.
#[unsafe(no_mangle)]
pub extern "C" fn study_run_count(words: &[u64], speeds: &[f64], figures: &mut [u64]) -> u64
    ensures { Called (question run_count) words.now speeds.now figures.old result words.now speeds.now figures.new }
{
    number_of(report::put(reports::run_count(words, speeds), figures))
}

// Writes the study's network as a file from the buffer's first byte on; later bytes stay.
#[unsafe(no_mangle)]
pub extern "C" fn study_write(words: &[u64], speeds: &[f64], out: &mut [u8]) -> u64
    ensures value { result ≡ write_refusal words.now speeds.now out.old }
    ensures out_after { out.new ≡ written_bytes words.now speeds.now out.old }
{
    number_of(reports::write(words, speeds, out).and(Ok(())))
}
