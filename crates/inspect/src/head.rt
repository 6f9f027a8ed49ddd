// The fields of the head, by the rules of row 4: numbers, as C is told them.
ghost use Rattle.std.specs.Prelude.{◌≡◌, get_or};
ghost use Rattle.inspect.specs.Values.{head_values};

use crate::field::{Field, ZERO};
use arrays::number;
use std::io;

// The field that a rule is about.
fn field(file: &[u8], rule: u64) -> Field
    ensures { result.value ≡ get_or (head_values file.now) rule 0 }
{
    let h = network::head_of(file);
    match rule {
        0 => Field::new("step T", h.step, "1 to 60"),
        1 => Field::new("number of segments n", h.size, "1 to 40"),
        2 => Field::new("number of curves c", h.curves, "1 to 8"),
        3 => Field::new("tau", h.tau, "1 to 120"),
        4 => Field::new("nu", h.nu, "0 to 200"),
        5 => Field::new("kappa", h.kappa, "1 to 200"),
        6 => Field::new("delta", h.delta, "0 to 1000"),
        7 => Field::new(ZERO, number::byte_at(file, 11), "0"),
        8 => Field::new(ZERO, number::byte_at(file, 14), "0"),
        9 => Field::new(ZERO, number::byte_at(file, 15), "0"),
        _ => Field::new(ZERO, 0, "0"),
    }
}

// The field, its value and what it must be.
pub(crate) fn tell(rt: &impl Print, file: &[u8], rule: u64) -> io::Result<()> {
    print!(rt; "head, {}", field(file, rule))
}
