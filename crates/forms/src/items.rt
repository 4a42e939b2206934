// Forms taken apart into their items.
ghost use Rattle.std.specs.Prelude.{◌≡◌, ◌+◌, ◌<◌, ◌≤◌, ◌^◌, length};
ghost use Rattle.std.specs.Iterator.{item_count, YieldsFirstBy};
ghost use Rattle.forms.specs.Laws.{TakenApart};
ghost use Rattle.forms.specs.Items.{form_items, inside, item_length, item_of, items, items_left, open_after, parts_left};

use crate::lines::Part;

/// An iterator over the items of a form: its word, and what stands behind it.
#[derive(Clone, Copy)]
pub struct Items<'a> {
    // The part in which the next item begins. There is none once the last item is handed out.
    pub(crate) rest: Option<Part<'a>>,
}

// The number of open brackets after a byte.
fn open_after(depth: usize, b: u8) -> usize
    requires { depth + 1 < 2 ^ 64 }
    ensures value { result ≡ open_after depth b }
    ensures bound { result ≤ depth + 1 }
{
    match b {
        b'(' => depth + 1,
        b')' => depth.saturating_sub(1),
        _ => depth,
    }
}

// Where the first item ends: at the first space outside all brackets, or with the bytes.
fn item_end(bytes: &[u8]) -> usize
    ensures value { result ≡ item_length 0 bytes.now }
    ensures within { result ≤ length bytes.now }
{
    let mut depth = 0;
    for (end, b) in bytes.iter().enumerate() {
        if *b == b' ' && depth == 0 {
            return end;
        }
        depth = open_after(depth, *b);
    }
    bytes.len()
}

impl<'a> Items<'a> {
    /// The items of a form. Any other bytes are taken apart in the same way: what stands between the first and the last byte, at the spaces
    /// outside all brackets.
    pub fn new(form: Part<'a>) -> Items<'a>
        ensures parts { parts_left result ≡ form_items form.entry.position form.entry.bytes.now }
        ensures bytes { items_left result ≡ items 0 (inside form.entry.bytes.now) }
    {
        Items {
            rest: Some(form.inside()),
        }
    }
}

impl<'a> Iterator for Items<'a> {
    type Item = Part<'a>;

    ghost next_gives = { YieldsFirstBy item_of parts_left };

    ghost remaining = { item_count parts_left };

    /// The next item, as a part of the text.
    fn next(&mut self) -> Option<Part<'a>> {
        let part = self.rest?;
        let end = item_end(part.bytes);
        self.rest = part.from(end + 1);
        Some(Part {
            bytes: &part.bytes[..end],
            position: part.position,
        })
    }
}

/// The law that taking apart loses nothing: the lines of a text, put together, are the text; the items of a form, with a space between
/// any two, are what stands between its brackets; and they are the form's word, then words, numbers and forms.
pub fn taken_apart()
    ensures { TakenApart }
{}
