// A curve's 201 entries in the file: row 6.
ghost use Rattle.std.specs.Prelude.{◌≡◌, ◌+◌, ◌*◌, ◌<◌, ◌≤◌, length};
ghost use Rattle.laws.specs.Refusal.{refused};
ghost use Rattle.laws.specs.First.{row, first_of};
ghost use Rattle.format.specs.Network.{rising, curve_number};
ghost use Rattle.format.specs.File.{curves_number, entry_at};

use crate::file::File;
use arrays::number;
use laws::Refusal;

// Entry j of the curve at place at.
pub(crate) fn entry(file: &[u8], at: usize, j: usize) -> u64
    requires { at + 4 * j + 4 ≤ length file.now }
    ensures { (result ≡ entry_at file.now at j) × (result < 4294967296) }
{
    number::u32_in(file, at + 4 * j)
}

// Whether an entry of the curve at place at is above the one before it. The loop has no branch, so that it becomes one over vectors: with a
// return in it, it takes three times as long. It goes by j: over the entries as arrays of four bytes, each beside the next by zip, the check
// of a file takes a sixth longer.
#[tactic(auto, unfolding(format::specs::Network::rising, laws::specs::First::row, laws::specs::First::first, laws::specs::First::first_of))]
fn rises(file: &[u8], at: usize) -> bool
    requires { at + 804 ≤ length file.now }
    ensures { row result 6 0 ≡ first_of (rising (entry_at file.now at)) 200 }
{
    let mut rises = false;
    for j in 0..200 {
        rises |= entry(file, at, j) < entry(file, at, j + 1);
    }
    rises
}

// Row 6, of the curve at place at.
#[tactic(auto, unfolding(format::specs::Network::curve_number, laws::specs::First::row))]
fn check_curve_at(file: &[u8], at: usize) -> Result<(), Refusal>
    requires { at + 804 ≤ length file.now }
    ensures { refused result ≡ curve_number (entry_at file.now at) }
{
    if arrays::outside(1000, entry(file, at, 0), 200000) || rises(file, at) {
        return Err(Refusal::Curve);
    }
    Ok(())
}

impl File<'_> {
    // Row 6, of all curves.
    #[tactic(auto, using(laws::proofs::Refused::row_loop), unfolding(format::specs::File::curves_number))]
    pub(crate) fn check_curves(&self) -> Result<(), Refusal>
        ensures { refused result ≡ curves_number self.now.bytes.now }
    {
        for k in 0..self.head.curves {
            check_curve_at(self.bytes, crate::curve_start(k as u32) as usize)?;
        }
        Ok(())
    }
}
