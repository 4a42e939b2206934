// Parts of a text, and its lines, which a reader hands out one after the other as parts of the text.
ghost use Rattle.std.specs.Prelude.{◌+◌, ◌^◌, ◌<◌, ◌≤◌, length};

use crate::faults::Position;

/// A part of a text: a line, or an item of a form.
#[derive(Clone, Copy)]
pub struct Part<'a> {
    /// The bytes of the part.
    pub bytes: &'a [u8],
    /// Where the first of them stands in the text.
    pub position: Position,
    ghost fits: { position.byte + length bytes.now < 2 ^ 64 },
}

// No bytes, and a position that is in no text.
impl Default for Part<'_> {
    ghost use Rattle.std.specs.Prelude.{◌≡◌, []};

    ghost is_default = { λ part. (part.bytes.now ≡ []) × (part.position ≡ record { line = 0; byte = 0 }) };

    fn default() -> Self {
        Part {
            bytes: &[],
            position: Position { line: 0, byte: 0 },
        }
    }
}

impl<'a> Part<'a> {
    ghost use Rattle.std.specs.Prelude.{◌≡◌};
    ghost use Rattle.forms.specs.Items.{inside, inside_position, FromByte};

    // What stands between a form's first and last byte.
    pub(crate) fn inside(self) -> Part<'a>
        ensures bytes { result.bytes.now ≡ inside self.entry.bytes.now }
        ensures position { result.position ≡ inside_position self.entry.position self.entry.bytes.now }
    {
        match self.bytes {
            [_, inside @ .., _] => Part {
                bytes: inside,
                position: Position {
                    byte: self.position.byte + 1,
                    ..self.position
                },
            },
            _ => Part {
                bytes: &self.bytes[..0],
                position: self.position,
            },
        }
    }

    // What stands from one of its bytes on, if it has so many.
    pub(crate) fn from(self, start: usize) -> Option<Part<'a>>
        ensures { FromByte self.entry start result }
    {
        let bytes = self.bytes.get(start..)?;
        let position = Position {
            byte: self.position.byte + start,
            ..self.position
        };
        Some(Part { bytes, position })
    }
}

/// A line of a text.
#[derive(Clone, Copy)]
pub struct Line<'a> {
    /// The line without the byte 10 that ends it.
    pub part: Part<'a>,
    /// Whether that byte is there. Only the last line of a text may lack it.
    pub ended: bool,
}

/// An iterator over the lines of a text. A byte 10 ends a line, and at most the last line is not ended.
#[derive(Drop)]
pub struct Reader<'a> {
    pub(crate) text: &'a [u8],
    // Where the next line begins.
    pub(crate) position: Position,
    ghost within: { position.byte ≤ length text.now },
    ghost counts: { position.line ≤ position.byte + 1 },
}

impl<'a> Reader<'a> {
    ghost use Rattle.std.specs.Prelude.{◌≡◌, ◌≤◌, length};
    ghost use Rattle.forms.specs.Lines.{first_position, line_length, lines, lines_left};

    // How long the first line of these bytes is: up to the first byte 10, or all of them.
    fn line_length(bytes: &[u8]) -> usize
        ensures value { result ≡ line_length bytes.now }
        ensures within { result ≤ length bytes.now }
    {
        bytes
            .iter()
            .position(|b| *b == b'\n')
            .unwrap_or(bytes.len())
    }

    /// A reader at the beginning of a text, which may hold any bytes.
    pub fn new(text: &'a [u8]) -> Reader<'a>
        ensures lines { lines_left result ≡ lines first_position text.now }
        ensures text { result.text.now ≡ text.now }
        ensures position { result.position ≡ first_position }
    {
        Reader {
            text,
            position: Position { line: 1, byte: 0 },
        }
    }

    /// Where the next line begins. At the end of the text, its byte is the text's length.
    pub fn position(&self) -> Position
        ensures { result ≡ self.now.position }
    {
        self.position
    }
}

impl<'a> Iterator for Reader<'a> {
    ghost use Rattle.std.specs.Iterator.{item_count};
    ghost use Rattle.forms.specs.Lines.{HandsOut, lines_left};

    type Item = Line<'a>;

    ghost next_gives = { HandsOut };

    ghost remaining = { item_count lines_left };

    /// The next line, as a part of the text.
    fn next(&mut self) -> Option<Line<'a>> {
        let text = self.text;
        let position = self.position;
        let start = position.byte;
        if start >= text.len() {
            return None;
        }
        let rest = &text[start..];
        let length = Reader::line_length(rest);
        let ended = length < rest.len();
        self.position = Position {
            line: position.line + 1,
            byte: text.len().min(start + length + 1),
        };
        let bytes = &rest[..length];
        let part = Part { bytes, position };
        Some(Line { part, ended })
    }
}
