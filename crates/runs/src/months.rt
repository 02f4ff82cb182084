// A month's lines, and the room that they are read into.
ghost use Rattle.std.specs.Prelude.{◌≤◌, OnOk, length};
ghost use Rattle.format.specs.Blocks.{slices};
ghost use Rattle.format.specs.Reading.{reading};

use monthfile::reader::Reader;
use rules::{Agent, MonthLines, Point, Refusal, User};

// What the programs have room for.
pub(crate) const AGENTS: usize = 16;

pub(crate) const PAYEES: usize = AGENTS + 1;

pub(crate) const USERS: usize = 64;

pub(crate) const POINTS: usize = 256;

// No more lines than there is room for.
#[derive(Clone, Copy)]
pub(crate) struct Month<'a> {
    pub lines: MonthLines<'a>,
    ghost few_agents: { length lines.agents.now ≤ 16 },
    ghost few_users: { length lines.users.now ≤ 64 },
    ghost few_points: { length lines.points.now ≤ 256 },
}

// Room for the lines of a file.
#[derive(Drop)]
pub(crate) struct Lines {
    agents: [Agent; AGENTS],
    users: [User; USERS],
    points: [Point; POINTS],
}

impl Lines {
    ghost use Rattle.runs.specs.Runs.{Advances, ReadsNext};

    pub(crate) fn new() -> Lines {
        Lines {
            agents: [Agent::default(); AGENTS],
            users: [User::default(); USERS],
            points: [Point::default(); POINTS],
        }
    }

    // The month of the next file, behind which the reader goes on.
    pub(crate) fn read(&mut self, reader: &mut Reader<'_>) -> Result<Month<'_>, Refusal>
        ensures reads { ReadsNext (reading (slices 16 64 256) reader.old.text.now reader.old.at)
            result reader.old reader.new }
        ensures advances { OnOk result (Advances reader.old reader.new) }
    {
        let file = reader.read(&mut self.agents, &mut self.users, &mut self.points)?;
        Ok(Month {
            lines: MonthLines {
                line: file.line,
                agents: &self.agents[..file.agents],
                users: &self.users[..file.users],
                points: &self.points[..file.points],
            },
        })
    }
}
