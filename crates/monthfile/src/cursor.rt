// A place in a text, from which the text is scanned or read on. What a value takes is inlined, for speed.
ghost use Rattle.std.specs.Prelude.{◌≡◌, ◌+◌, ◌≤◌, min, take, drop, length, slice_get, if◌then◌else◌};
ghost use Rattle.std.specs.List.{prefix_len};
ghost use Rattle.format.specs.Bytes.{is_digit};

#[derive(Drop)]
pub(crate) struct Cursor<'a> {
    pub text: &'a [u8],
    pub at: usize,
    ghost within: { at ≤ length text.now },
}

impl<'a> Cursor<'a> {
    ghost use Rattle.format.specs.Values.{line_here};
    ghost use Rattle.monthfile.specs.Cursor.{rest, byte_here, digits_here, Passed};

    // At a position of a text; a position past the end counts as the end.
    pub(crate) fn new(text: &'a [u8], from: usize) -> Self
        ensures at { result.at ≡ min from (length text.now) }
        ensures rest { rest result ≡ drop from text.now }
    {
        Cursor {
            text,
            at: from.min(text.len()),
        }
    }

    // The byte here, unless the text is over.
    pub(crate) fn byte(&self) -> Option<u8>
        ensures { result ≡ slice_get (rest self.now) 0 }
    {
        self.text.get(self.at).copied()
    }

    // Whether a line of values begins here.
    pub(crate) fn line_here(&self) -> bool
        ensures { result ≡ line_here (rest self.now) }
    {
        matches!(self.byte(), Some(b'-' | b'0'..=b'9'))
    }

    // Passes this byte, if it is here.
    #[inline(always)]
    pub(crate) fn eat(&mut self, byte: u8) -> bool
        ensures here { result ≡ byte_here byte (rest self.old) }
        ensures passed { Passed self.old self.new (if result then 1 else 0) }
    {
        let here = self.byte() == Some(byte);
        if here {
            self.at += 1;
        }
        here
    }

    // Passes the digits here, at most so many, which are answered.
    #[inline(always)]
    pub(crate) fn digits(&mut self, most: usize) -> &'a [u8]
        ensures digits { result.now ≡ take (digits_here most (rest self.old)) (rest self.old) }
        ensures passed { Passed self.old self.new (digits_here most (rest self.old)) }
    {
        let here = &self.text[self.at..];
        let count = count_digits(&here[..here.len().min(most)]);
        self.at += count;
        &here[..count]
    }

    // So many bytes on, at most to the end.
    pub(crate) fn skip(&mut self, count: usize)
        ensures { rest self.new ≡ drop count (rest self.old) }
    {
        self.at += count.min(self.text.len() - self.at);
    }
}

// How many digits a text begins with.
#[inline(always)]
fn count_digits(text: &[u8]) -> usize
    ensures count { result ≡ prefix_len is_digit text.now }
    ensures within { result ≤ length text.now }
{
    text.iter().take_while(|b| b.is_ascii_digit()).count()
}
