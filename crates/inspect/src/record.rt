// The fields of a segment's record, by the rules of row 7: numbers, as C is told them.
ghost use Rattle.std.specs.Prelude.{◌≡◌, get_or};
ghost use Rattle.inspect.specs.Values.{record_values};

use crate::field::{Field, ZERO};
use format::{Head, Segment};
use std::io;

// In version 1 the last segment alone has none that follows.
fn no_exit(h: Head) -> &'static str {
    if h.version == 1 {
        "0 at the last segment"
    } else {
        "0 with no following segment"
    }
}

// The field that a rule is about; byte is what stands at the place.
fn field(h: Head, s: Segment, byte: u64, rule: u64) -> Field
    ensures { result.value ≡ get_or (record_values s byte) rule 0 }
{
    let share = s.following.share;
    match rule {
        0 => Field::new("length L", s.metres, "100 to 2000"),
        1 => Field::new("lanes H", s.lanes, "1 to 8"),
        2 => Field::new("curve", s.curve, "below the number of curves").than(h.curves),
        3 => Field::new("critical density C", s.critical, "at least 1"),
        4 => Field::new("critical density C", s.critical, "below the jam density J").than(s.jam),
        5 => Field::new("jam density J", s.jam, "2 to 200"),
        6 => Field::new("origin", s.origin, "0 or 1"),
        7 => Field::new("origin", s.origin, "1 at the first segment"),
        8 => Field::new("exit share X", s.exit, "0 to 1000"),
        9 => Field::new("exit share X", s.exit, no_exit(h)),
        10 => Field::new("most released Q", s.most, "0 without an origin"),
        11 => Field::new("most released Q", s.most, "1 to 300000 with an origin"),
        12 => Field::new(ZERO, byte, "0"),
        13 => Field::new(ZERO, byte, "0"),
        14 => Field::new(ZERO, byte, "0"),
        15 => Field::new("share to the first following segment", share, "0 to 1000"),
        16 => Field::new(
            "share to the first following segment",
            share,
            "1000 without a second",
        ),
        _ => Field::new(ZERO, 0, "0"),
    }
}

// The field, its value and what it must be; byte is what stands at the place.
pub(crate) fn tell(rt: &impl Print, file: &[u8], i: u32, rule: u64, byte: u64) -> io::Result<()> {
    let (h, s) = (network::head_of(file), network::segment_of(file, i));
    let field = field(h, s, byte, rule);
    print!(rt; "segment {}, {field}", u64::from(i) + 1)
}
