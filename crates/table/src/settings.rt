ghost use Rattle.std.specs.Prelude.{◌≡◌, ◌<◌, ◌≤◌, true, [], length};
ghost use Rattle.std.specs.List.{insert};
ghost use Rattle.model.specs.Refusals.{refusal};
ghost use Rattle.model.specs.Table.{add_refusal, admitted, after_add, within_limits};
ghost use Rattle.table.specs.declared.settings.TheConstants.{MOST_ROWS};

use crate::analysis::Analysis;
use arrayvec::ArrayVec;
use model::{Duty, Refusal};

/// A table has at most so many rows.
pub const MOST_ROWS: usize = 16;

/// The duties of a table, row 0 the most urgent: at most sixteen, each within its limits and each with a response time. No setting can
/// exist in which a row has none.
#[derive(Drop)]
pub struct Setting {
    pub(crate) duties: ArrayVec<Duty, MOST_ROWS>,
    ghost admits: { admitted duties.items ≡ true },
}

impl Setting {
    ghost use Rattle.table.specs.Settings.{Responds, table_of};

    /// A setting with no rows.
    pub fn new() -> Setting
        ensures { table_of result ≡ [] }
    {
        Setting {
            duties: ArrayVec::new(),
        }
    }

    /// The duties, row 0 first.
    pub fn duties(&self) -> &[Duty]
        ensures { result.now ≡ table_of self.now }
    {
        self.duties.as_slice()
    }

    /// Inserts a duty at a place from 0 to the number of rows; the rows from there on move down one.
    ///
    /// Refused 1 where there is no such place, 2 where the duty breaks `1 <= cost <= deadline <= separation <= 4,096`, 3 where the table
    /// has sixteen rows, and 4 with the smallest row of the new table that would have no response time. Where several fit, it is the one
    /// of the smallest number. A refusal changes nothing.
    pub fn add(&mut self, place: u32, duty: Duty) -> Result<(), Refusal>
        ensures answers { refusal result ≡ add_refusal (table_of self.old) place duty }
        ensures leaves { table_of self.new ≡ after_add (table_of self.old) place duty }
    {
        let place = place as usize;
        if place > self.duties.len() {
            return Err(Refusal::NoSuchRow);
        }
        if !within_limits(duty) {
            return Err(Refusal::DutyLimits);
        }
        if self.duties.is_full() {
            return Err(Refusal::TableFull);
        }
        let duties = self.with_duty(place, duty);
        let grown = Analysis { duties: &duties };
        if let Some(row) = grown.first_unschedulable() {
            return Err(Refusal::Unschedulable(row));
        }
        self.duties = duties;
        Ok(())
    }

    // The duties with one more at its place; those from there on move down one. They are copied into new slots: `ArrayVec::insert` would
    // have a library for C ask for `memmove`.
    fn with_duty(&self, place: usize, duty: Duty) -> ArrayVec<Duty, MOST_ROWS>
        requires within { place ≤ length (table_of self.now) }
        requires room { length (table_of self.now) < MOST_ROWS }
        ensures { result.items ≡ insert (table_of self.now) place duty }
    {
        let (above, below) = self.duties().split_at(place);
        let mut duties = ArrayVec::new();
        // There is room for each.
        duties.try_extend_from_slice(above).unwrap();
        duties.push(duty);
        duties.try_extend_from_slice(below).unwrap();
        duties
    }

    /// The response time of a row in ticks, from 1 to its deadline: the least number of ticks that suffices for a job of the row and for
    /// every job of a more urgent row that can come meanwhile. Refused 1 where there is no such row.
    ///
    /// It is the response time of R. I. Davis, *On Exploiting Spare Capacity in Hard Real-Time Systems*, for whole ticks.
    pub fn response(&self, row: u32) -> Result<u32, Refusal>
        ensures { Responds (table_of self.now) row result }
    {
        let table = Analysis {
            duties: self.duties(),
        };
        table.response_time(row as usize).ok_or(Refusal::NoSuchRow)
    }
}

// 1 ≤ cost ≤ deadline ≤ separation ≤ 4,096.
fn within_limits(duty: Duty) -> bool
    ensures { result ≡ within_limits duty }
{
    1 <= duty.cost
        && duty.cost <= duty.deadline
        && duty.deadline <= duty.separation
        && duty.separation <= 4096
}
