ghost use Rattle.std.specs.Prelude.{Some};
ghost use Rattle.replies.specs.Kinds.{kind_name, NamesKind};

use std::fmt;
use std::str::FromStr;

/// A kind of address.
#[derive(Clone, Copy, PartialEq, Eq, Debug)]
pub enum Kind {
    Ipv4,
    Ipv6,
}

/// A text that names no kind of address.
#[derive(Clone, Copy, PartialEq, Eq, Debug)]
pub struct UnknownKind;

/// Writes its name.
impl fmt::Display for Kind {
    ghost output = { λ kind. Some (kind_name kind) };

    fn fmt<W: fmt::Write>(&self, f: &mut fmt::Formatter<W>) -> fmt::Result {
        match self {
            Kind::Ipv4 => f.write_str("ipv4"),
            Kind::Ipv6 => f.write_str("ipv6"),
        }
    }
}

/// Reads its name.
impl FromStr for Kind {
    type Err = UnknownKind;

    ghost from_str_gives = { NamesKind };

    fn from_str(text: &str) -> Result<Kind, UnknownKind> {
        match text {
            "ipv4" => Ok(Kind::Ipv4),
            "ipv6" => Ok(Kind::Ipv6),
            _ => Err(UnknownKind),
        }
    }
}
