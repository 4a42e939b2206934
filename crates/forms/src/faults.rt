// Faults of a line. Each layer of reading has its own kind of fault and passes those of the layer below on. A fault that is passed on
// keeps its number, its line, its byte and its layer.
ghost use Rattle.std.specs.Prelude.{◌≡◌};
ghost use Rattle.forms.specs.Faults.{fault, forms_report, letters_report};

/// Where a byte stands in a text.
#[derive(Clone, Copy, PartialEq, Eq, Debug, Default)]
pub struct Position {
    /// The number of its line. Lines count from 1.
    pub line: usize,
    /// The number of bytes before it in the whole text. Bytes count from 0.
    pub byte: usize,
}

/// The layer of reading in which a fault was found, in the order in which the layers count.
#[derive(Clone, Copy, PartialEq, Eq, Debug)]
pub enum Layer {
    /// The bytes of a line: fault 12.
    Letters,
    /// The form that a line is, and its items: faults 13 to 15.
    Forms,
    /// The order and the number of the lines: faults 16 and 17.
    Sheet,
    /// The table of duties: the refusals 1 to 4.
    Table,
}

/// What is reported of a fault: all that is printed of it.
#[derive(Clone, Copy, PartialEq, Eq, Debug)]
pub struct Report {
    /// 12 to 17, or the number of the refusal of a duty, 1 to 4.
    pub number: u32,
    /// The line of the fault, from 1.
    pub line: usize,
    /// The byte of the text at which it stands, from 0.
    pub byte: usize,
    /// The layer in which it was found.
    pub layer: Layer,
    /// With number 4, the row of the new table that would have no response time; else nothing.
    pub row: Option<u32>,
}

/// 12: a byte that is not allowed, at its position.
#[derive(Clone, Copy, PartialEq, Eq, Debug)]
pub struct LettersFault(pub Position);

/// A fault of a line by itself, at the position of the line's first byte unless it is one of its letters.
#[derive(Clone, Copy, PartialEq, Eq, Debug)]
pub enum FormsFault {
    /// A fault of the line's letters.
    Letters(LettersFault),
    /// 13: the line is no form, nests too deep, or is not ended by a byte 10.
    NotAForm(Position),
    /// 14: the line's word is not known, or its items are not what the word wants.
    WrongItems(Position),
    /// 15: a number has more than ten digits or is too large.
    TooLarge(Position),
}

// By hand: a derived `From` has no `from_gives`, by which clauses name the error that `?` makes.
impl From<LettersFault> for FormsFault {
    ghost from_gives = { λ e f. forms_report f ≡ letters_report e };

    fn from(e: LettersFault) -> FormsFault {
        FormsFault::Letters(e)
    }
}

impl Report {
    /// The report of a fault of this number and layer at a position, with no row.
    pub fn new(number: u32, layer: Layer, position: Position) -> Report
        ensures { result ≡ fault number layer position }
    {
        Report {
            number,
            line: position.line,
            byte: position.byte,
            layer,
            row: None,
        }
    }
}

impl FormsFault {
    /// The fault's number, line, byte and layer.
    pub fn report(&self) -> Report
        ensures { result ≡ forms_report self.now }
    {
        match *self {
            FormsFault::Letters(fault) => Report::new(12, Layer::Letters, fault.0),
            FormsFault::NotAForm(position) => Report::new(13, Layer::Forms, position),
            FormsFault::WrongItems(position) => Report::new(14, Layer::Forms, position),
            FormsFault::TooLarge(position) => Report::new(15, Layer::Forms, position),
        }
    }
}
