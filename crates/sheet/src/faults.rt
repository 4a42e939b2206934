// Faults of a sheet: those of its order and of its table, and those of its lines, which are passed on. A fault that is passed on keeps its
// number, its line, its byte and its layer.
ghost use Rattle.std.specs.Prelude.{◌≡◌};
ghost use Rattle.forms.specs.Faults.{forms_report};
ghost use Rattle.model.specs.Refusals.{refusal_code};
ghost use Rattle.sheet.specs.Reports.{named_row, sheet_report, table_report};

use forms::{FormsFault, Layer, Position, Report};
use model::Refusal;

/// A fault of the lines of a text, up to their order and their number.
#[derive(Clone, Copy, PartialEq, Eq, Debug)]
pub enum SheetFault {
    /// A fault of a line by itself.
    Forms(FormsFault),
    /// 16: the line may not come there, the end line is missing (then at one past the last line), or an at-line does not come before the
    /// end.
    OutOfOrder(Position),
    /// 17: the text has more than 32,768 bytes, or the line is a 257th at-line.
    TooLong(Position),
}

/// The fault of a text that is no sheet.
#[derive(Clone, Copy, PartialEq, Eq, Debug)]
pub enum TableFault {
    /// A fault of its lines, or of their order.
    Sheet(SheetFault),
    /// 1 to 4: a duty that the table refuses, the position of its line, and why.
    Refused(Position, Refusal),
}

// Both by hand: a derived `From` has no `from_gives`, by which clauses name the error that `?` makes.
impl From<FormsFault> for SheetFault {
    ghost from_gives = { λ e f. sheet_report f ≡ forms_report e };

    fn from(e: FormsFault) -> SheetFault {
        SheetFault::Forms(e)
    }
}

impl From<SheetFault> for TableFault {
    ghost from_gives = { λ e f. table_report f ≡ sheet_report e };

    fn from(e: SheetFault) -> TableFault {
        TableFault::Sheet(e)
    }
}

impl SheetFault {
    // The fault's number, line, byte and layer.
    pub(crate) fn report(&self) -> Report
        ensures { result ≡ sheet_report self.now }
    {
        match *self {
            SheetFault::Forms(fault) => fault.report(),
            SheetFault::OutOfOrder(position) => Report::new(16, Layer::Sheet, position),
            SheetFault::TooLong(position) => Report::new(17, Layer::Sheet, position),
        }
    }
}

// The row that a refusal names.
fn named_row(why: Refusal) -> Option<u32>
    ensures { result ≡ named_row (refusal_code why) }
{
    match why {
        Refusal::Unschedulable(row) => Some(row),
        _ => None,
    }
}

impl TableFault {
    /// The fault's number, line, byte and layer, and the row where the refusal names one.
    pub fn report(&self) -> Report
        ensures { result ≡ table_report self.now }
    {
        match *self {
            TableFault::Sheet(fault) => fault.report(),
            TableFault::Refused(position, why) => Report {
                row: named_row(why),
                ..Report::new(why.number(), Layer::Table, position)
            },
        }
    }
}
