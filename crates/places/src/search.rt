// The first entry, the first record and the first segment of a file that are refused.
ghost use Rattle.std.specs.Prelude.{◌≡◌, ltb};
ghost use Rattle.format.specs.Network.{goes_to, has_before, origin_number};
ghost use Rattle.format.specs.File.{head_of, entry_on, segment_on, record_number};
ghost use Rattle.format.specs.Place.{entry_bad, bad_entry, bad_record, bad_origin};
ghost use Rattle.format.proofs.PlaceParts.{too_short};

use crate::{followers, rules};
use arrays::number;
use network::rows;

// Row 6, of entry j of curve k.
#[tactic(auto, using(crate::proofs::Rows::entry_first, crate::proofs::Rows::entry_later))]
fn entry_bad(file: &[u8], k: u32, j: u32) -> bool
    ensures { result ≡ entry_bad (entry_on file.now k) j }
{
    let e = network::entry_of(file, k, j);
    if j == 0 {
        return arrays::outside(1000, e, 200000);
    }
    network::entry_of(file, k, j - 1) < e
}

// The first entry that row 6 refuses, counted through all curves, which stand one after the other; 1,608 where it refuses none.
pub(crate) fn bad_entry(file: &[u8]) -> u32
    ensures { result ≡ bad_entry file.now }
{
    (0..1608)
        .find(|m| entry_bad(file, *m / 201, *m % 201))
        .unwrap_or(1608)
}

// Row 8, of record i of a file of any content, where rows::too_fast asks for numbers that rows 4, 6 and 7 have judged.
fn too_short(file: &[u8], i: u32) -> bool
    ensures { result ≡ too_short file.now i }
{
    let at = network::record_start(file, i) as usize;
    let metres = number::u16_at(file, at);
    let k = number::byte_at(file, at + 3) as u32;
    let step = number::byte_at(file, 5);
    3600 * metres < network::entry_of(file, k, 0) * step
}

// Rows 7, 27 and 8, of record i. Where no rule is broken, first_held gives how many there are, 17 or 4.
#[tactic(auto, using(format::proofs::PlaceParts::record_refused, laws::proofs::Search::any_held))]
fn record_bad(file: &[u8], i: u32) -> bool
    ensures { result ≡ ltb 0 (record_number file.now (head_of file.now) i) }
{
    rules::record_rule(file, i) < 17 || followers::follower_rule(file, i) < 4 || too_short(file, i)
}

// The first record that rows 7, 27 and 8 refuse, and 40 where they refuse none.
pub(crate) fn bad_record(file: &[u8]) -> u32
    ensures { result ≡ bad_record file.now }
{
    (0..40).find(|i| record_bad(file, *i)).unwrap_or(40)
}

// Whether segment k goes on to segment i.
fn goes_to(file: &[u8], k: u32, i: u32) -> bool
    ensures { result ≡ goes_to i (segment_on file.now k).following }
{
    rows::goes_to(network::segment_of(file, k).following, i)
}

// Whether one of the first n segments goes on to segment i, in a file of any content: network's has_before goes by row 27, which such a file
// may break.
fn has_before(file: &[u8], n: u32, i: u32) -> bool
    ensures { result ≡ has_before (segment_on file.now) n i }
{
    (0..n).any(|k| goes_to(file, k, i))
}

// Row 28, of segment i.
#[tactic(auto, using(crate::proofs::Rows::origin_refused))]
fn origin_bad(file: &[u8], i: u32) -> bool
    ensures { result ≡ ltb 0 (origin_number (segment_on file.now) (head_of file.now).size i) }
{
    network::segment_of(file, i).origin == 0
        && !has_before(file, number::byte_at(file, 6) as u32, i)
}

// The first segment that row 28 refuses, and 40 where it refuses none.
pub(crate) fn bad_origin(file: &[u8]) -> u32
    ensures { result ≡ bad_origin file.now }
{
    (0..40).find(|i| origin_bad(file, *i)).unwrap_or(40)
}
