// A sheet as far as its lines are read. Each line enters it, or has a fault of some layer, of which the first counts.
ghost use Rattle.std.specs.Prelude.{◌≡◌, true};
ghost use Rattle.forms.specs.Faults.{reported};
ghost use Rattle.sheet.specs.Reports.{sheet_report, table_report};
ghost use Rattle.forms.specs.Lines.{line_of};
ghost use Rattle.sheet.specs.Orders.{duty_judged, has_room, in_order, left_with, line_judged, nothing_read, order_judged, said_judged, so_far};

use crate::ats::At;
use crate::faults::{SheetFault, TableFault};
use crate::sheets::Sheet;
use arrayvec::ArrayVec;
use forms::{Line, Position, QueueName, Said, form_said};
use model::Duty;
use table::Setting;

/// How far a sheet has come: which lines may come next.
#[derive(Clone, Copy)]
pub enum Stage {
    /// The first line, which must be the sheet line.
    Start,
    /// Duty lines, remarks, and the queue line, which ends them.
    Duties,
    /// At-lines, remarks, and the end line, which ends them.
    Ats,
    /// Remarks only.
    Over,
}

// A sheet as far as it is read.
#[derive(Drop)]
pub(crate) struct Draft<'a> {
    pub(crate) stage: Stage,
    pub(crate) sheet: Sheet<'a>,
}

// Whether a line may come: first the sheet line, then duties and a queue line, then at-lines and an end line, and remarks anywhere
// behind the first line.
fn in_order(stage: Stage, said: Said) -> bool
    ensures { result ≡ in_order stage said }
{
    match (stage, said) {
        (Stage::Start, Said::Sheet) => true,
        (Stage::Start, _) => false,
        (_, Said::Remark) => true,
        (Stage::Duties, Said::Duty(_, _) | Said::Queue(_)) => true,
        (Stage::Ats, Said::At(_) | Said::End(_)) => true,
        _ => false,
    }
}

impl<'a> Draft<'a> {
    // Nothing is read. The queue and the ticks have values that do not count before their lines are read, which the stage says. An
    // `Option` for each would have to be opened wherever a finished sheet is used.
    pub(crate) fn new() -> Draft<'a>
        ensures { so_far result ≡ nothing_read }
    {
        Draft {
            stage: Stage::Start,
            sheet: Sheet {
                setting: Setting::new(),
                queue: QueueName::First,
                ats: ArrayVec::new(),
                ticks: 0,
            },
        }
    }

    // There is room for what a line says: for one at-line more, where it is one.
    fn has_room(&self, said: Said) -> bool
        ensures { result ≡ has_room (so_far self.now).ats said }
    {
        match said {
            Said::At(_) => !self.sheet.ats.is_full(),
            _ => true,
        }
    }

    // What a line says, if it may come where it stands and there is room for it; else its first fault.
    fn ordered(&self, line: Line) -> Result<Said, SheetFault>
        ensures { reported sheet_report result ≡ order_judged (so_far self.now) (line_of line.entry) }
    {
        let said = form_said(line)?;
        if !in_order(self.stage, said) {
            return Err(SheetFault::OutOfOrder(line.part.position));
        }
        if !self.has_room(said) {
            return Err(SheetFault::TooLong(line.part.position));
        }
        Ok(said)
    }

    // Adds a duty to the table, unless the table refuses it.
    fn add(&mut self, at: Position, place: u32, duty: Duty) -> Result<(), TableFault>
        ensures { left_with table_report result (so_far self.new) ≡ duty_judged (so_far self.old) at place duty }
    {
        self.sheet
            .setting
            .add(place, duty)
            .map_err(|why| TableFault::Refused(at, why))
    }

    // Takes up what a line says that may come where it stands.
    fn take(&mut self, line: Line<'a>, said: Said) -> Result<(), TableFault>
        requires { has_room (so_far self.old).ats said ≡ true }
        ensures { left_with table_report result (so_far self.new) ≡ said_judged (so_far self.old) (line_of line.entry) said }
    {
        match said {
            Said::Sheet => {
                self.stage = Stage::Duties;
                Ok(())
            }
            Said::Duty(place, duty) => self.add(line.part.position, place, duty),
            Said::Queue(name) => {
                self.stage = Stage::Ats;
                self.sheet.queue = name;
                Ok(())
            }
            Said::At(clock) => {
                self.sheet.ats.push(At {
                    clock,
                    part: line.part,
                });
                Ok(())
            }
            Said::End(ticks) => {
                self.stage = Stage::Over;
                self.sheet.ticks = ticks;
                Ok(())
            }
            Said::Remark => Ok(()),
        }
    }

    // The next line of the sheet enters the draft, or has the fault that counts: that of the first layer in which it is faulty, and in
    // that layer the one of the smallest number.
    pub(crate) fn enter(&mut self, line: Line<'a>) -> Result<(), TableFault>
        ensures { left_with table_report result (so_far self.new) ≡ line_judged (so_far self.old) (line_of line.entry) }
    {
        let said = self.ordered(line)?;
        self.take(line, said)
    }
}
