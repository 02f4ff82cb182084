// The values of a file read from its text (paper 01, "The month file"), whatever text it is; the verdict is the scanner's.
use crate::cursor::Cursor;
use records::Line;
use rules::MonthLine;

// What an accepted reading answers: the month line, how many lines there are of each kind, and the position after the file. The lines
// themselves stand in the caller's slices.
#[derive(Clone, Copy)]
pub struct Header {
    pub line: MonthLine,
    pub agents: usize,
    pub users: usize,
    pub points: usize,
    pub next: usize,
}

impl Cursor<'_> {
    ghost use Rattle.std.specs.Prelude.{◌≡◌, ◌+◌, ◌<◌, ◌^◌, length, drop, pos};
    ghost use Rattle.format.specs.Values.{read_digits, read_value, read_line, read_lines, past_end};
    ghost use Rattle.monthfile.specs.Cursor.{rest};
    ghost use Rattle.monthfile.specs.At.{GotAt, Filled};

    // What a value takes is inlined, for speed: text and place stay in registers.

    // The number of the digits here, at most 18. No `parse`: the bytes need be no text, and the digits end where they end.
    #[inline(always)]
    fn read_digits(&mut self) -> u64
        ensures read { GotAt (read_digits 18 0 (rest self.old)) result self.new }
        ensures small { result < 10 ^ 18 }
    {
        let here = &self.text[self.at..];
        let mut number = 0;
        for &byte in &here[..here.len().min(18)] {
            let digit @ b'0'..=b'9' = byte else {
                return number;
            };
            number = number * 10 + u64::from(digit - b'0');
            self.at += 1;
        }
        number
    }

    #[inline(always)]
    fn read_value(&mut self) -> i64
        ensures { GotAt (read_value (rest self.old)) result self.new }
    {
        // Each sign reads its own digits, for speed: after a sign that is kept, each value would wait for the one before.
        if self.eat(b'-') {
            -(self.read_digits() as i64)
        } else {
            self.read_digits() as i64
        }
    }

    // Past the end of a line, LF or CR LF.
    fn skip_end(&mut self)
        ensures { rest self.new ≡ past_end (rest self.old) }
    {
        self.eat(b'\r');
        self.skip(1);
    }

    // A line of values, each with the comma or the line's end after it; an array can hold so many.
    fn read_line<const N: usize>(&mut self) -> [i64; N]
        requires { N < 2 ^ 60 }
        ensures { GotAt (read_line N (rest self.old)) result self.new }
    {
        let mut values = [0; N];
        for (i, value) in values.iter_mut().enumerate() {
            *value = self.read_value();
            if i + 1 < N {
                self.skip(1);
            } else {
                self.skip_end();
            }
        }
        values
    }

    // The lines of a block, at most as many as the slice takes; entries beyond them are left as they are. How many there are is answered.
    fn read_lines<const N: usize, L: Line<N>>(&mut self, lines: &mut [L]) -> usize
        requires { N < 2 ^ 60 }
        ensures { Filled L.of (read_lines (length lines.old) N (rest self.old)) lines.old lines.new result self.new }
    {
        for (count, line) in lines.iter_mut().enumerate() {
            if !self.line_here() {
                return count;
            }
            *line = L::of(self.read_line());
        }
        lines.len()
    }

    // A block: past its names, and its lines.
    pub(crate) fn read_block<const N: usize, L: Line<N>>(
        &mut self,
        names: &[u8],
        lines: &mut [L],
    ) -> usize
        requires { N < 2 ^ 60 }
        ensures { Filled L.of (read_lines (length lines.old) N (past_end (drop (length names.now) (rest self.old)))) lines.old lines.new result self.new }
    {
        self.skip(names.len());
        self.skip_end();
        self.read_lines(lines)
    }
}
