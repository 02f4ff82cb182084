// A line of a month. It is put together before it is written, so that the system alone can cut one; in a buffer of a line's length, what
// many lines begin with once. (`println` takes one of 1,024 bytes and fills it byte by byte, which took up to half of a program's instructions.)
use arrayvec::ArrayString;
use std::fmt::Write;
use std::io;

// The longest has two amounts of at most 21 bytes, an item of 11, three numbers of at most 20, five commas and its end.
const LONGEST: usize = 119;

pub(crate) type Line = ArrayString<LONGEST>;

pub(crate) fn write_line<R: io::Print>(rt: &R, line: &Line) -> io::Result<()> {
    rt.write_all(line.as_str().as_bytes())
}

// A line for each user: what all of them begin with, the user, what stands between, and its cents.
pub(crate) fn write_lines<R: io::Print>(
    rt: &R,
    head: Line,
    between: &str,
    cents: &[i64],
) -> io::Result<()> {
    for (user, cents) in (1..=cents.len()).zip(cents) {
        let mut line = head;
        writeln!(line, "{user}{between}{cents}")?;
        write_line(rt, &line)?;
    }
    Ok(())
}
