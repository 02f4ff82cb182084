// Kinds of users (paper 01, "A month's lines").
use std::error::Error;
use std::fmt;

#[derive(Clone, Copy, Debug, PartialEq, Eq)]
pub enum Kind {
    Distributor,
    Consumer,
    Generator,
}

// A number that no kind has.
#[derive(Clone, Copy, Debug, PartialEq, Eq)]
pub struct NoKind(pub i64);

impl TryFrom<i64> for Kind {
    ghost use Rattle.rules.specs.Kinds.{ReadsKind};

    type Error = NoKind;

    ghost try_from_gives = { ReadsKind };

    fn try_from(number: i64) -> Result<Self, NoKind> {
        match number {
            1 => Ok(Kind::Distributor),
            2 => Ok(Kind::Consumer),
            3 => Ok(Kind::Generator),
            _ => Err(NoKind(number)),
        }
    }
}

impl fmt::Display for NoKind {
    fn fmt<W: fmt::Write>(&self, f: &mut fmt::Formatter<W>) -> fmt::Result {
        write!(f, "no kind of user has number {}", self.0)
    }
}

impl Error for NoKind {}
