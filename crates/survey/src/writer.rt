// A survey file made from a list of arrivals.
ghost use Rattle.std.specs.Prelude.{◌≡◌, ◌+◌, ◌*◌, ◌≤◌, length, get_or};
ghost use Rattle.laws.specs.Lists.{puts};
ghost use Rattle.laws.specs.BigEndian.{u32_bytes};
ghost use Rattle.laws.specs.Refusal.{refused};
ghost use Rattle.survey_file.specs.Written.{write_number};

use laws::Refusal;

// Whether the list is whole rows that a file may have, and out has room for it; and if not, why.
#[tactic(auto, unfolding(survey_file::specs::Written::write_number, laws::specs::First::row, laws::specs::First::any_of, laws::specs::First::or_from))]
pub(crate) fn check(n: u64, list: &[u32], out: &[u8]) -> Result<(), Refusal>
    ensures { refused result ≡ write_number n list.now out.now }
{
    let count = list.len() as u64;
    if arrays::outside(1, n, 40) || count % n != 0 || 20000 * n < count {
        return Err(Refusal::SurveySize);
    }
    if (out.len() as u64) < 8 + 4 * count {
        return Err(Refusal::NoRoom);
    }
    Ok(())
}

// Writes the list from byte 8 of the file on, by index: of what is written through chunks_exact_mut the library promises the length alone.
#[tactic(auto, using(crate::proofs::Loops::write_loop), unfolding(laws::specs::BigEndian::u32_bytes))]
pub(crate) fn put_arrivals(list: &[u32], out: &mut [u8])
    requires { 8 + 4 * length list.now ≤ length out.old }
    ensures { out.new ≡ puts 4 (λ k. u32_bytes (get_or list.now k 0)) 8 (length list.now) out.old }
{
    for (k, arrival) in list.iter().enumerate() {
        let at = 8 + 4 * k;
        out[at..at + 4].copy_from_slice(&arrival.to_be_bytes());
    }
}
