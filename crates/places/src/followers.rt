// Row 27, of what follows a segment: its rules, and where the follower stands that breaks one.
ghost use Rattle.std.specs.Prelude.{◌≡◌, cond, get_or};
ghost use Rattle.laws.specs.First.{first_held};
ghost use Rattle.format.specs.File.{head_of, segment_on};
ghost use Rattle.format.specs.Place.{follower_rules, follower_fields};

use crate::rules;
use network::rows;

// Whether each rule of what follows segment i is broken.
fn follower_rules(file: &[u8], i: u32) -> [bool; 4]
    ensures { result ≡ follower_rules file.now i }
{
    let h = network::head_of(file);
    let f = network::segment_of(file, i).following;
    [
        rows::not_higher(i, f.first) | rows::not_higher(i, f.second),
        (h.size < f.first) | (h.size < f.second),
        (f.first == 0) & (0 < f.second),
        (0 < f.second) & (f.first == f.second),
    ]
}

// The first of them that is broken.
pub(crate) fn follower_rule(file: &[u8], i: u32) -> u64
    ensures { result ≡ first_held (follower_rules file.now i) }
{
    rules::first_held(&follower_rules(file, i))
}

// The byte of a record that has the first follower, or the second.
fn byte_of(first: bool) -> u8
    ensures { result ≡ cond first 16 17 }
{
    if first { 16 } else { 17 }
}

// The byte of its record that a rule of segment i is about.
pub(crate) fn follower_field(file: &[u8], i: u32, rule: u64) -> u8
    ensures { result ≡ get_or (follower_fields (head_of file.now) i (segment_on file.now i).following) rule 0 }
{
    let h = network::head_of(file);
    let f = network::segment_of(file, i).following;
    let fields = [
        byte_of(rows::not_higher(i, f.first)),
        byte_of(h.size < f.first),
        17,
        17,
    ];
    fields.get(rule as usize).copied().unwrap_or(0)
}
