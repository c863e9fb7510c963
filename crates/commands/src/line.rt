ghost use Rattle.std.specs.Prelude.{◌≡◌, ◌≤◌, not, length};
ghost use Rattle.std.specs.List.{position};
ghost use Rattle.commands.specs.Blanks.{is_blank};

// A word of a line, and the place of its first byte there.
#[derive(Clone, Copy)]
pub(crate) struct Word<'a> {
    pub(crate) place: usize,
    pub(crate) bytes: &'a [u8],
}

// The words of a line, one after another, with blanks between them. A blank is a space or a control byte.
#[derive(Drop)]
pub(crate) struct Words<'a> {
    pub(crate) line: &'a [u8],
    pub(crate) place: usize,
    pub(crate) ghost within: { place ≤ length line.now },
}

// Two, since a test as a parameter would ask a clause of it.

// The place of the first blank.
fn first_blank(bytes: &[u8]) -> Option<usize>
    ensures { result ≡ position is_blank bytes.now }
{
    bytes.iter().position(|byte| *byte <= b' ')
}

// The place of the first byte that is no blank.
fn first_other(bytes: &[u8]) -> Option<usize>
    ensures { result ≡ position (λ byte. not (is_blank byte)) bytes.now }
{
    bytes.iter().position(|byte| *byte > b' ')
}

impl<'a> Words<'a> {
    ghost use Rattle.std.specs.Prelude.{◌≡◌};

    // All words of a line.
    pub(crate) fn of(line: &'a [u8]) -> Words<'a>
        ensures line { result.line.now ≡ line.now }
        ensures place { result.place ≡ 0 }
    {
        Words { line, place: 0 }
    }
}

impl<'a> Iterator for Words<'a> {
    ghost use Rattle.std.specs.Prelude.{◌-◌, length};
    ghost use Rattle.std.specs.Iterator.{at_most};
    ghost use Rattle.commands.specs.Lines.{NextWord};

    type Item = Word<'a>;

    ghost next_gives = { NextWord };

    ghost remaining = { λ s. at_most (length s.line.now - s.place) };

    fn next(&mut self) -> Option<Word<'a>> {
        let line = self.line;
        let start = self.place + first_other(&line[self.place..])?;
        let end = match first_blank(&line[start..]) {
            Some(len) => start + len,
            None => line.len(),
        };
        self.place = end;
        Some(Word {
            place: start,
            bytes: &line[start..end],
        })
    }
}
