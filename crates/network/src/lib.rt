// The network file: read or refused, its curves shown as the file's own bytes.
#![tactic(auto)]

pub mod rows; // rows.rt: rows 3, 4, 7, 27 and 8 of a network's numbers
mod heads; // heads.rt: the first 16 bytes, rows 1 to 5
mod file; // file.rt: a file whose head is accepted
mod curves; // curves.rt: a curve's entries, row 6
mod records; // records.rt: a segment's 16 or 20 bytes
pub mod segments; // segments.rt: rows 7, 27 and 8, segment by segment
pub mod origins; // origins.rt: segments without an origin, row 28

ghost use Rattle.std.specs.Prelude.{◌≡◌, ◌<◌, ◌≤◌};
ghost use Rattle.laws.specs.Refusal.{refused};
ghost use Rattle.format.specs.File.{head_of, curve_start, record_size, file_size, record_start, entry_on, segment_on, file_number};
ghost use Rattle.format.specs.Curve.{curve_call_number, curve_bytes};

use crate::file::{File, Judged};
use arrays::number;
use format::{Head, Segment};
use laws::Refusal;

// Whether a row of the table refuses the file, and which.
#[tactic(auto, using(crate::proofs::Reading::rows), unfolding(format::specs::File::file_number, laws::specs::First::first))]
pub fn check(file: &[u8]) -> Result<(), Refusal>
    ensures { refused result ≡ file_number file.now }
{
    heads::check_head(file)?;
    let f = File {
        bytes: file,
        head: head_of(file),
    };
    f.check_curves()?;
    f.check_records()?;
    Judged { file: f }.check_origins()
}

// Whether curve k of the file can be shown: the file is accepted, and has that curve.
#[tactic(auto, using(laws::proofs::Refused::number_above), unfolding(format::specs::Curve::curve_call_number, laws::specs::First::row, laws::specs::First::first))]
pub fn check_curve(file: &[u8], k: u64) -> Result<(), Refusal>
    ensures { refused result ≡ curve_call_number file.now k }
{
    check(file)?;
    if head_of(file).curves <= k {
        return Err(Refusal::NoCurve);
    }
    Ok(())
}

// The 804 bytes of the file that hold curve k, or an empty part where check_curve refuses.
#[tactic(auto, using(crate::proofs::Reading::curve_part))]
pub fn curve(file: &[u8], k: u64) -> &[u8]
    ensures { result.now ≡ curve_bytes file.now k }
{
    if check_curve(file, k).is_err() {
        return &[];
    }
    let at = curve_start(k as u32) as usize;
    &file[at..at + 804]
}

// The head of a file of any content; a byte past its end reads as 0.
pub fn head_of(file: &[u8]) -> Head
    ensures { result ≡ head_of file.now }
{
    Head {
        version: number::u16_at(file, 3),
        step: number::byte_at(file, 5),
        size: number::byte_at(file, 6),
        curves: number::byte_at(file, 7),
        tau: number::byte_at(file, 8),
        nu: number::byte_at(file, 9),
        kappa: number::byte_at(file, 10),
        delta: number::u16_at(file, 12),
    }
}

// Where curve k begins, counted from 0; the records follow the last.
pub fn curve_start(k: u32) -> u64
    ensures { (result ≡ curve_start k) × (result < 10000000000000) }
{
    16 + 804 * u64::from(k)
}

// The bytes of a record.
#[tactic(auto, unfolding(format::specs::File::record_size))]
pub fn record_size(h: Head) -> u64
    ensures { (result ≡ record_size h) × (result ≤ 20) }
{
    if h.version == 1 { 16 } else { 20 }
}

// As many bytes as the head says; a byte past the end of the file reads as 0.
pub fn size_said(file: &[u8]) -> u64
    ensures { result ≡ file_size (head_of file.now) }
{
    record_start(file, number::byte_at(file, 6) as u32)
}

// Where record i, counted from 0, begins by the head.
pub fn record_start(file: &[u8], i: u32) -> u64
    ensures { (result ≡ record_start (head_of file.now) i) × (result < 100000000000) }
{
    let h = head_of(file);
    curve_start(number::byte_at(file, 7) as u32) + record_size(h) * u64::from(i)
}

// Entry j of curve k, both counted from 0, of a file of any content; a byte past its end reads as 0.
pub fn entry_of(file: &[u8], k: u32, j: u32) -> u64
    ensures { (result ≡ entry_on file.now k j) × (result < 4294967296) }
{
    number::u32_at(file, (curve_start(k) as usize) + 4 * (j as usize))
}

// Segment i, counted from 0, of a file of any content; a byte past its end reads as 0. One test whether all bytes of its record are there,
// for Start reads every segment.
#[tactic(auto, using(crate::proofs::Reading::record_part))]
pub fn segment_of(file: &[u8], i: u32) -> Segment
    ensures { result ≡ segment_on file.now i }
{
    let h = head_of(file);
    let at = record_start(file, i) as usize;
    let w = record_size(h) as usize;
    if at + w <= file.len() {
        return records::read(&file[at..at + w], h, i);
    }
    records::read_short(&file[at.min(file.len())..], h, i)
}
