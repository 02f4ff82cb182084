// One file read (paper 01, "The month file", "Where to use each form"): first judged whole, against the room in the slices lent for its
// lines, and only then written.
ghost use Rattle.std.specs.Prelude.{Err};
ghost use Rattle.format.specs.Grammar.{File};
ghost use Rattle.format.specs.Reading.{answer};
ghost use Rattle.monthfile.specs.Reads.{Answers, Reads};

use crate::cursor::Cursor;
use crate::names::{AGENTS, MONTH, POINTS, USERS};
use crate::reading::Header;
use crate::scanner::{Room, scan};
use format::Fault;
use rules::{Agent, MonthLine, Point, Refusal, User};

// Refusals 11 and 12.
fn refusal(fault: Fault) -> Refusal
    ensures { (f : File) → Answers (answer f (Err fault)) (Err result) }
{
    match fault {
        Fault::Faulty(place) => Refusal::NotAFile(place),
        Fault::Full(place) => Refusal::TooManyLines(place),
    }
}

// Reading one file on plain parameters, for a caller that keeps the text and the position itself.
pub fn read_at(
    text: &[u8],
    from: usize,
    agents: &mut [Agent],
    users: &mut [User],
    points: &mut [Point],
) -> Result<Header, Refusal>
    ensures { Reads text.now from
        agents.old users.old points.old
        agents.new users.new points.new result }
{
    let room = Room {
        agents: agents.len(),
        users: users.len(),
        points: points.len(),
    };
    let next = scan(text, from, room).map_err(refusal)?;
    let mut file = Cursor::new(text, from);
    let mut month = [MonthLine { month: 0, ons: 0 }];
    file.read_block(MONTH, &mut month);
    let agents = file.read_block(AGENTS, agents);
    let users = file.read_block(USERS, users);
    let points = file.read_block(POINTS, points);
    let [line] = month;
    Ok(Header {
        line,
        agents,
        users,
        points,
        next,
    })
}
