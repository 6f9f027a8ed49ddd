// Part, rule and byte of a refusal, by the row that refuses.
ghost use Rattle.std.specs.Prelude.{◌≡◌};
ghost use Rattle.laws.specs.Refusal.{number};
ghost use Rattle.format.proofs.PlaceParts.{part_of, rule_of, field_of, offset_of};

use crate::{followers, rules, search};
use laws::Refusal;

// The curve (row 6), the segment that nothing enters (28) or the record (7, 8, 27).
#[tactic(auto, unfolding(format::proofs::PlaceParts::part_of, laws::specs::First::row))]
pub(crate) fn part(file: &[u8], why: Refusal) -> u32
    ensures { result ≡ part_of file.now (number why) }
{
    match why {
        Refusal::NoHead | Refusal::NoMark | Refusal::Version | Refusal::Head | Refusal::Length => 0,
        Refusal::Curve => search::bad_entry(file) / 201,
        Refusal::NothingEnters => search::bad_origin(file),
        _ => search::bad_record(file),
    }
}

// The rule that is broken (rows 4, 7, 27) or the entry of the curve (6).
#[tactic(auto, unfolding(format::proofs::PlaceParts::rule_of, laws::specs::First::row))]
pub(crate) fn rule(file: &[u8], why: Refusal, part: u32) -> u64
    ensures { result ≡ rule_of file.now (number why) part }
{
    match why {
        Refusal::Head => rules::head_rule(file),
        Refusal::Curve => u64::from(search::bad_entry(file) % 201),
        Refusal::Record => rules::record_rule(file, part),
        Refusal::Followers => followers::follower_rule(file, part),
        _ => 0,
    }
}

// Where in its record the field of a rule stands (rows 7, 27, 28); row 8 is of the record's first field.
#[tactic(auto, unfolding(format::proofs::PlaceParts::field_of, laws::specs::First::row))]
fn field(file: &[u8], why: Refusal, part: u32, rule: u64) -> u8
    ensures { result ≡ field_of file.now (number why) part rule }
{
    match why {
        Refusal::Record => rules::record_field(rule),
        Refusal::Followers => followers::follower_field(file, part, rule),
        Refusal::NothingEnters => 6,
        _ => 0,
    }
}

// The byte: where the file ends (rows 1 and 5), of the head (2 to 4), of a curve (6), of a record (the others).
#[tactic(auto, unfolding(format::proofs::PlaceParts::offset_of, format::proofs::PlaceParts::head_offset, laws::specs::First::row))]
pub(crate) fn offset(file: &[u8], why: Refusal, part: u32, rule: u64) -> u64
    ensures { result ≡ offset_of file.now (number why) part rule }
{
    match why {
        Refusal::NoHead => file.len() as u64,
        Refusal::NoMark => rules::mark_rule(file),
        Refusal::Version => 3,
        Refusal::Head => u64::from(rules::head_field(rule)),
        Refusal::Length => network::size_said(file).min(file.len() as u64),
        Refusal::Curve => 16 + 4 * u64::from(search::bad_entry(file)),
        _ => network::record_start(file, part) + u64::from(field(file, why, part, rule)),
    }
}
