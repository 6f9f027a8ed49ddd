// The head, 16 bytes: rows 1 to 5.
ghost use Rattle.std.specs.Prelude.{◌≡◌};
ghost use Rattle.laws.specs.Refusal.{refused};
ghost use Rattle.format.specs.File.{has_mark, head_padding, head_number};

use crate::rows;
use arrays::number;
use laws::Refusal;

fn has_mark(file: &[u8]) -> bool
    ensures { result ≡ has_mark file.now }
{
    file.starts_with(b"FWN")
}

// Row 4, of the bytes that are zero: other places than a record's, and as short.
fn head_padding(file: &[u8]) -> bool
    ensures { result ≡ head_padding file.now }
{
    (0 < number::byte_at(file, 11)) | (0 < number::u16_at(file, 14))
}

// Rows 1 to 5.
#[tactic(auto, unfolding(format::specs::File::head_number, laws::specs::First::row))]
pub(crate) fn check_head(file: &[u8]) -> Result<(), Refusal>
    ensures { refused result ≡ head_number file.now }
{
    if file.len() < 16 {
        return Err(Refusal::NoHead);
    }
    if !has_mark(file) {
        return Err(Refusal::NoMark);
    }
    let h = crate::head_of(file);
    if rows::version_bad(h) {
        return Err(Refusal::Version);
    }
    if rows::head_bad(h) | head_padding(file) {
        return Err(Refusal::Head);
    }
    if file.len() as u64 != crate::size_said(file) {
        return Err(Refusal::Length);
    }
    Ok(())
}
