// Where a network file is wrong: why it is refused, and the part, the rule and the byte that it is refused for.
#![tactic(auto)]

mod rules; // rules.rt: the rules of rows 2, 4 and 7, one by one, and the first that is broken
mod followers; // followers.rt: the rules of row 27
mod search; // search.rt: the first entry, record and segment that are refused
mod offsets; // offsets.rt: part, rule and byte, by the refusal

ghost use Rattle.std.specs.Prelude.{◌≡◌};
ghost use Rattle.format.specs.Place.{place_of};
ghost use Rattle.places.specs.Told.{told_place};

use laws::Refusal;

// Why a file is refused; the curve (row 6) or the segment (7, 8, 27, 28); the rule of the row that is broken (4, 7, 27) or the entry of
// the curve (6), a number as C is told it; each counted from 0, and 0 for the other rows; and the byte offset.
#[derive(Clone, Copy)]
pub struct Place {
    pub refusal: Refusal,
    pub part: u32,
    pub rule: u64,
    pub offset: u64,
}

// The place at which a file of any content is refused; None where it is accepted.
#[tactic(auto, using(crate::proofs::Told::accepted, crate::proofs::Told::refused_at))]
pub fn place_of(file: &[u8]) -> Option<Place>
    ensures { told_place result ≡ place_of file.now }
{
    let refusal = network::check(file).err()?;
    let part = offsets::part(file, refusal);
    let rule = offsets::rule(file, refusal, part);
    let offset = offsets::offset(file, refusal, part, rule);
    Some(Place {
        refusal,
        part,
        rule,
        offset,
    })
}
