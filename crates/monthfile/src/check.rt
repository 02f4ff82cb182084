// The file check (paper 01, "The month file", last paragraph).
ghost use Rattle.std.specs.Prelude.{◌≡◌, pos, Err};
ghost use Rattle.format.specs.Machine.{check_of};
ghost use Rattle.monthfile.specs.Checked.{seen, place};

use crate::scanner::{Room, scan};
use format::Fault;

// Why a text is no month files on end: the byte of its 11, or it is over 10^15 bytes.
#[derive(Clone, Copy, Debug, PartialEq, Eq)]
pub enum NotFiles {
    At(usize),
    TooLong,
}

impl From<Fault> for NotFiles {
    ghost from_gives = { λ fault e. seen (Err e) ≡ pos (place fault) };

    fn from(fault: Fault) -> NotFiles {
        match fault {
            Fault::Faulty(place) | Fault::Full(place) => NotFiles::At(place),
        }
    }
}

// A text of at most so many bytes is checked.
const LONGEST: usize = 1_000_000_000_000_000;

// Whether a text is one or more files on end. No slice is too short for their lines that is as long as the text.
pub fn file_check(text: &[u8]) -> Result<(), NotFiles>
    ensures { seen result ≡ check_of text.now }
{
    let most = text.len();
    if LONGEST < most {
        return Err(NotFiles::TooLong);
    }
    let room = Room {
        agents: most,
        users: most,
        points: most,
    };
    let mut at = 0;
    loop {
        at = scan(text, at, room)?;
        if at == most {
            return Ok(());
        }
    }
}
