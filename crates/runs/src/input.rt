// Standard input, read to its end.
ghost use Rattle.std.specs.Prelude.{◌≡◌, ◌≤◌, IfOk, IfSome, length};

use std::io;
use std::io::Read;

// The most bytes that a program takes, and one more, by which an input that is too long is known.
const MOST: usize = 32768;

const ROOM: usize = MOST + 1;

pub(crate) fn buffer() -> [u8; ROOM]
    ensures { length result ≡ 32769 }
{
    [0; ROOM]
}

// The whole input, which lies in the buffer, or nothing where it has filled it and may go on.
pub(crate) fn read_all<'a, R: io::Input>(
    rt: &R,
    buffer: &'a mut [u8],
) -> io::Result<Option<&'a [u8]>>
    ensures { IfOk result (λ read. IfSome read (λ text. length text.now ≤ length buffer.old)) }
{
    let mut reader = rt.reader();
    let mut n = 0;
    // no range counts this: each turn goes on by what was read
    while n < buffer.len() {
        match reader.read(&mut buffer[n..])? {
            0 => return Ok(Some(&buffer[..n])),
            more => n += more,
        }
    }
    Ok(None)
}
