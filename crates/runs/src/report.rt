// What a program is called and what it prints.
ghost use Rattle.std.specs.Prelude.{◌≡◌};
ghost use Rattle.runs.specs.declared.report.Stop.TheVariants.{Refused, Failed};

use crate::books::Books;
use crate::months::Month;
use rules::Refusal;
use std::io;

// Why something is not done: refused, or not written.
#[derive(Drop)]
pub(crate) enum Stop {
    Refused(Refusal),
    Failed(io::Error),
}

impl From<Refusal> for Stop {
    ghost from_gives = { λ refusal stop. stop ≡ Refused refusal };

    fn from(refusal: Refusal) -> Stop {
        Stop::Refused(refusal)
    }
}

impl From<io::Error> for Stop {
    ghost from_gives = { λ error stop. stop ≡ Failed error };

    fn from(error: io::Error) -> Stop {
        Stop::Failed(error)
    }
}

pub(crate) trait Report {
    // In its messages.
    const PROGRAM: &'static str;

    // The names of its columns.
    const COLUMNS: &'static str;

    // Closes a month and prints what it comes to.
    fn month<R: io::Print>(rt: &R, books: &mut Books, month: Month<'_>) -> Result<(), Stop>;
}
