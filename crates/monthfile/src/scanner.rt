// One file of a text scanned (paper 01, "The month file", refusals 11 and 12): its blocks one after the other, each byte passed once,
// in its order.
ghost use Rattle.std.specs.Prelude.{◌≡◌};
ghost use Rattle.format.specs.Blocks.{slices};
ghost use Rattle.format.specs.Reading.{scan_at};

use crate::cursor::Cursor;
use crate::names::{AGENTS, MONTH, POINTS, USERS};
use format::Fault;

// The steps of a line are inlined: with text and place in registers the file check is near one written by hand.

// How many lines the slices lent for them take. The counts that 1 tests of a month are `refusals`', on which reading does not stand.
#[derive(Clone, Copy)]
pub(crate) struct Room {
    pub agents: usize,
    pub users: usize,
    pub points: usize,
}

impl Cursor<'_> {
    ghost use Rattle.std.specs.Prelude.{◌≡◌, ℕ, []};
    ghost use Rattle.format.specs.Blocks.{up_to, slices};
    ghost use Rattle.format.specs.Machine.{fresh, signed, nought, at, value as in_value, start};
    ghost use Rattle.monthfile.specs.Cursor.{rest, lead_here, file_ends};
    ghost use Rattle.monthfile.specs.Passing.{Passes, Takes, at_end, at_names, at_block, several};

    // This byte, which must be here.
    fn scan_byte(&mut self, wanted: u8) -> Result<(), Fault>
        ensures { Takes wanted self.old self.new result }
    {
        if self.eat(wanted) {
            return Ok(());
        }
        Err(Fault::Faulty(self.at))
    }

    // Whether a digit but 0 is here.
    fn lead_here(&self) -> bool
        ensures { result ≡ lead_here (rest self.now) }
    {
        matches!(self.byte(), Some(b'1'..=b'9'))
    }

    // A value but for its sign and a lone 0: 1 to 18 digits, the first of them not 0.
    #[inline(always)]
    fn scan_size(&mut self) -> Result<(), Fault>
        ensures { (k : ℕ) → Passes self.old (in_value signed k) self.new (in_value nought k) result }
    {
        if !self.lead_here() {
            return Err(Fault::Faulty(self.at));
        }
        self.digits(18);
        Ok(())
    }

    // A value; no 0 comes first but in 0 itself, which has no sign.
    #[inline(always)]
    fn scan_value(&mut self) -> Result<(), Fault>
        ensures { (k : ℕ) → Passes self.old (in_value fresh k) self.new (in_value nought k) result }
    {
        if self.eat(b'0') {
            return Ok(());
        }
        self.eat(b'-');
        self.scan_size()
    }

    // The end of a line, of names or of values: LF, or CR and LF.
    fn scan_end(&mut self) -> Result<(), Fault>
        ensures { Passes self.old at_end self.new at result }
    {
        self.eat(b'\r');
        self.scan_byte(b'\n')
    }

    // A line of values with so many commas.
    #[inline(always)]
    fn scan_line(&mut self, commas: usize) -> Result<(), Fault>
        ensures { Passes self.old (in_value fresh commas) self.new at result }
    {
        for _ in 0..commas {
            self.scan_value()?;
            self.scan_byte(b',')?;
        }
        self.scan_value()?;
        self.scan_end()
    }

    // Lines of a block, as many as there are; Full where one begins that there is no room for.
    #[inline(always)]
    fn scan_lines(&mut self, commas: usize, room: usize) -> Result<(), Fault>
        ensures { Passes self.old (several room commas) self.new at result }
    {
        for _ in 0..room {
            if !self.line_here() {
                return Ok(());
            }
            self.scan_line(commas)?;
        }
        if self.line_here() {
            return Err(Fault::Full(self.at));
        }
        Ok(())
    }

    // A line of names, which must be these.
    #[inline(always)]
    fn scan_names(&mut self, names: &[u8]) -> Result<(), Fault>
        ensures { Passes self.old (at_names names.now) self.new at result }
    {
        for &byte in names {
            self.scan_byte(byte)?;
        }
        self.scan_end()
    }

    // A block: its names, and lines with so many commas, for which there is so much room.
    #[inline(always)]
    fn scan_block(&mut self, names: &[u8], commas: usize, room: usize) -> Result<(), Fault>
        ensures { Passes self.old (at_block names.now (up_to room) commas) self.new at result }
    {
        self.scan_names(names)?;
        self.scan_lines(commas, room)
    }

    // The blocks of a file, one after the other.
    fn scan_blocks(&mut self, room: Room) -> Result<(), Fault>
        ensures { Passes self.old (λ f. start (slices room.agents room.users room.points)) self.new (λ f. at []) result }
    {
        self.scan_names(MONTH)?;
        self.scan_line(1)?;
        self.scan_block(AGENTS, 6, room.agents)?;
        self.scan_block(USERS, 3, room.users)?;
        self.scan_block(POINTS, 8, room.points)
    }

    // Whether a file may end here: with the text, or before an `m`.
    fn file_ends(&self) -> bool
        ensures { result ≡ file_ends (rest self.now) }
    {
        matches!(self.byte(), None | Some(b'm'))
    }
}

// The file at a position; the place after it.
pub(crate) fn scan(text: &[u8], from: usize, room: Room) -> Result<usize, Fault>
    ensures { result ≡ scan_at (slices room.agents room.users room.points) text.now from }
{
    let mut cursor = Cursor::new(text, from);
    cursor.scan_blocks(room)?;
    if !cursor.file_ends() {
        return Err(Fault::Faulty(cursor.at));
    }
    Ok(cursor.at)
}
