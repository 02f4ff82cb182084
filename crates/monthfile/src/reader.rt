// The reader (paper 01, "The month file"): "keeps the text and its position in one record".
use crate::points::read_at;
use crate::reading::Header;
use rules::{Agent, Point, Refusal, User};

#[derive(Clone, Debug, Drop)]
pub struct Reader<'a> {
    pub text: &'a [u8],
    pub at: usize,
}

impl Reader<'_> {
    ghost use Rattle.monthfile.specs.Reads.{ReadsOn};

    // One file at the reader's position, which moves past it only if it is accepted.
    pub fn read(
        &mut self,
        agents: &mut [Agent],
        users: &mut [User],
        points: &mut [Point],
    ) -> Result<Header, Refusal>
        ensures { ReadsOn self.old self.new
            agents.old users.old points.old
            agents.new users.new points.new result }
    {
        let header = read_at(self.text, self.at, agents, users, points)?;
        self.at = header.next;
        Ok(header)
    }
}
