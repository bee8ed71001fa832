// The six types by name.
ghost use Rattle.std.specs.Prelude.{◌≡◌};
ghost use Rattle.formats.specs.Names.{kind_named};
ghost use Rattle.formats.specs.Formats.{takes};

use crate::wide::V216;
use samples::fault::{Fault, Rule};
use std::str::FromStr;

// The types of packing.
#[derive(Clone, Copy, PartialEq, Eq, Debug)]
pub enum Kind {
    TwoVuy,
    V308,
    V408,
    V216,
    V410,
    V210,
}

// The type that four letters name; else refused by 2.
impl FromStr for Kind {
    type Err = Fault;

    ghost from_str_gives = { λ letters r. r ≡ kind_named letters };

    fn from_str(letters: &str) -> Result<Kind, Fault> {
        match letters {
            "2vuy" => Ok(Kind::TwoVuy),
            "v308" => Ok(Kind::V308),
            "v408" => Ok(Kind::V408),
            "v216" => Ok(Kind::V216),
            "v410" => Ok(Kind::V410),
            "v210" => Ok(Kind::V210),
            _ => Err(Rule::UnknownType.into()),
        }
    }
}

impl Kind {
    // Whether codes of n bits go into the type.
    pub fn takes(self, bits: u32) -> bool
        ensures { result ≡ takes self bits }
    {
        match self {
            Kind::TwoVuy | Kind::V308 | Kind::V408 => bits == 8,
            Kind::V410 | Kind::V210 => bits == 10,
            Kind::V216 => V216::takes(bits),
        }
    }
}
