// At-lines, where they stand, and their calls.
ghost use Rattle.std.specs.Prelude.{◌≡◌};
ghost use Rattle.std.specs.Iterator.{item_count, YieldsFirst};
ghost use Rattle.sheet.specs.Ats.{at_of, calls_left, calls_at, in_text, span};

use forms::{Items, Part, Position, call};
use model::Call;

/// An iterator over the calls of one at-line.
#[derive(Clone, Copy)]
pub struct Calls<'a> {
    pub(crate) items: Items<'a>,
}

/// A line that says which calls come at a clock.
#[derive(Clone, Copy, Default)]
pub struct At<'a> {
    /// The clock at which its calls are made. In a sheet that was read, it comes before the number of ticks.
    pub clock: u32,
    /// The line as a part of the text, in which its calls stay.
    pub part: Part<'a>,
}

/// Where an at-line stands in a text. It does not hold the text.
#[derive(Clone, Copy, PartialEq, Eq, Debug, Default)]
pub struct AtSpan {
    /// The clock at which the calls of the at-line are made. In a sheet that was read, it comes before the number of ticks.
    pub clock: u32,
    /// The position of its first byte in the text.
    pub position: Position,
    /// The number of its bytes, without the byte 10 that ends the line.
    pub length: usize,
}

impl AtSpan {
    /// The at-line that a text has there. It may be any text: the bytes are those of the span that lie in it, and none where it ends
    /// before. Of the text that the sheet was read from, it is the at-line that was read.
    pub fn in_text<'a>(&self, text: &'a [u8]) -> At<'a>
        ensures { at_of result ≡ in_text text.now self.now }
    {
        let rest = &text[self.position.byte.min(text.len())..];
        let part = Part {
            bytes: &rest[..self.length.min(rest.len())],
            position: self.position,
        };
        At {
            clock: self.clock,
            part,
        }
    }
}

impl<'a> At<'a> {
    /// Where the at-line stands.
    pub fn span(&self) -> AtSpan
        ensures { result ≡ span (at_of self.now) }
    {
        AtSpan {
            clock: self.clock,
            position: self.part.position,
            length: self.part.bytes.len(),
        }
    }

    /// The calls of the at-line, in their order.
    pub fn calls(&self) -> Calls<'a>
        ensures { calls_left result ≡ calls_at (at_of self.now) }
    {
        let mut items = Items::new(self.part);
        // The word and the clock.
        let _ = items.next();
        let _ = items.next();
        Calls { items }
    }
}

impl<'a> Iterator for Calls<'a> {
    type Item = Call;

    ghost next_gives = { YieldsFirst calls_left };

    ghost remaining = { item_count calls_left };

    /// The next call. The first item that is no call ends them; a sheet that was read has none.
    fn next(&mut self) -> Option<Call> {
        let mut items = self.items;
        let call = call(items.next()?)?;
        self.items = items;
        Some(call)
    }
}
