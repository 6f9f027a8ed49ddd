// The survey file: judged, its arrivals read into a lent list or row by row, and written.
#![tactic(auto)]

mod arrivals; // arrivals.rt: arrivals read one after the other
mod writer; // writer.rt: what refuses a list, and the arrivals written

ghost use Rattle.std.specs.Prelude.{◌≡◌, ◌+◌, ◌*◌, ◌<◌, ◌≤◌, ◌++◌, length, drop, IfOk};
ghost use Rattle.laws.specs.Lists.{table};
ghost use Rattle.laws.specs.Refusal.{refused};
ghost use Rattle.survey_file.specs.File.{has_mark, rows_on, arrival_on, survey_number};
ghost use Rattle.survey_file.specs.Read.{read_number, read_list};
ghost use Rattle.survey_file.specs.Written.{write_number, written_survey};

use laws::Refusal;

// The mark of this file; crate network has its own, in a line as well.
fn has_mark(file: &[u8]) -> bool
    ensures { result ≡ has_mark file.now }
{
    file.starts_with(b"FWD")
}

// Whether a study or a reader of n segments may take the file, and if not, why.
#[tactic(auto, unfolding(survey_file::specs::File::survey_number, laws::specs::First::row, laws::specs::First::any_of, laws::specs::First::or_from))]
pub fn check(file: &[u8], n: u64) -> Result<(), Refusal>
    ensures { refused result ≡ survey_number n file.now }
{
    if file.len() < 8 || !has_mark(file) || arrays::number::u16_at(file, 3) != 1 {
        return Err(Refusal::NotASurvey);
    }
    let size = arrays::number::byte_at(file, 5);
    let rows = row_count(file);
    let whole = 8 + 4 * (rows * size);
    if arrays::outside(1, n, 40) || size != n || 20000 < rows || file.len() as u64 != whole {
        return Err(Refusal::SurveySize);
    }
    Ok(())
}

// How many rows the head says.
pub fn row_count(file: &[u8]) -> u64
    ensures { (result ≡ rows_on file.now) × (result < 65536) }
{
    arrays::number::u16_at(file, 6)
}

// Puts row r, counted from 0, of a file of n segments over the first n places of out.
pub fn row(file: &[u8], n: usize, r: usize, out: &mut [u32])
    requires { (8 + 4 * (r * n + n) ≤ length file.now) × (n ≤ length out.old) }
    ensures { out.new ≡ table (λ i. arrival_on file.now (r * n + i)) n ++ drop n out.old }
{
    arrivals::put(file, r * n, &mut out[..n]);
}

// The reader: all arrivals go over the first places of the list, later places stay, and the answer is the row count.
// A refused call leaves the list as it came.
#[tactic(auto, using(crate::proofs::Answer::reading), unfolding(survey_file::specs::Read::read_number, survey_file::specs::Read::read_list, laws::specs::First::row))]
pub fn read(file: &[u8], n: u64, list: &mut [u32]) -> Result<u64, Refusal>
    ensures refusal { refused result ≡ read_number n file.now list.old }
    ensures rows { IfOk result (λ rows. rows ≡ rows_on file.now) }
    ensures list_after { list.new ≡ read_list n file.now list.old }
{
    check(file, n)?;
    let rows = row_count(file);
    let count = (rows * n) as usize;
    if list.len() < count {
        return Err(Refusal::NoRoom);
    }
    arrivals::put(file, 0, &mut list[..count]);
    Ok(rows)
}

// The writer: the file goes over the first bytes of out, later bytes stay. A refused call leaves them as they came.
#[tactic(auto, using(crate::proofs::Answer::writing), unfolding(survey_file::specs::Written::written_survey, survey_file::specs::Written::head_bytes))]
pub fn write(n: u64, list: &[u32], out: &mut [u8]) -> Result<(), Refusal>
    ensures value { refused result ≡ write_number n list.now out.old }
    ensures out_after { out.new ≡ written_survey n list.now out.old }
{
    writer::check(n, list, out)?;
    let rows = list.len() as u64 / n;
    let [high, low] = (rows as u16).to_be_bytes();
    out[..8].copy_from_slice(&[b'F', b'W', b'D', 0, 1, n as u8, high, low]);
    writer::put_arrivals(list, out);
    Ok(())
}
