// A field that breaks a rule, and what is said of it.
ghost use Rattle.std.specs.Prelude.{◌≡◌};

use std::fmt;

// The name of each byte that is zero in every file.
pub(crate) const ZERO: &str = "a byte that must be zero";

// Its name, its value, and what it must be, with the other field's value where that is compared with one.
#[derive(Clone, Copy)]
pub(crate) struct Field {
    name: &'static str,
    value: u64,
    right: &'static str,
    than: Option<u64>,
}

impl Field {
    pub(crate) fn new(name: &'static str, value: u64, right: &'static str) -> Field
        ensures { result.value ≡ value }
    {
        Field {
            name,
            value,
            right,
            than: None,
        }
    }

    pub(crate) fn than(self, other: u64) -> Field
        ensures { result.value ≡ self.value }
    {
        Field {
            than: Some(other),
            ..self
        }
    }
}

impl fmt::Display for Field {
    fn fmt<W: fmt::Write>(&self, f: &mut fmt::Formatter<W>) -> fmt::Result {
        write!(f, "{}: {}, must be {}", self.name, self.value, self.right)?;
        match self.than {
            Some(other) => write!(f, ", {other}"),
            None => Ok(()),
        }
    }
}
