ghost use Rattle.std.specs.Prelude.{◌≡◌, ◌-◌, ◌<◌, OnErr, true, length, drop, replicate};
ghost use Rattle.model.specs.Kept.{kept};
ghost use Rattle.model.specs.Machine.{RowCalled, WorkTicks, duty_tick, duty_turn, first_ready, fresh_work, last_clock, later};
ghost use Rattle.model.specs.declared.rows.Row.TheVariants.{Idle};
ghost use Rattle.model.specs.declared.rows.RowCall.TheVariants.{Release, Done};
ghost use Rattle.table.specs.Settings.{table_of};
ghost use Rattle.workload.specs.Slots.{work_of};

use crate::calls::apply;
use model::{Refusal, Row, RowCall, Who};
use table::{MOST_ROWS, Setting};

/// The work of a running dispatcher: its duty table, the state of each of the table's rows, and the clock.
///
/// None can exist in which a row's slack is below 0, so none in which a job has missed its deadline.
#[derive(Drop)]
pub struct Workload {
    pub(crate) setting: Setting,
    // One slot for each row that a table can have. The first slots are in use, as many as the setting has duties. A vector would
    // keep a second count, which would have to equal the setting's.
    pub(crate) rows: [Row; MOST_ROWS],
    pub(crate) clock: u32,
    ghost keeps: { kept (work_of (table_of setting) clock rows) ≡ true },
    // The slots that are not in use stay as they were made.
    ghost unused: { drop (length (table_of setting)) rows ≡ replicate (16 - length (table_of setting)) (Idle 0) },
}

impl Workload {
    ghost use Rattle.workload.specs.Workloads.{work_in};

    /// Starts a setting: the clock is 0, and every row is idle and may be released at once.
    pub fn start(setting: Setting) -> Workload
        ensures work { work_in result ≡ fresh_work (table_of setting) }
        ensures setting { result.setting ≡ setting }
    {
        Workload {
            setting,
            rows: [Row::Idle { earliest: 0 }; MOST_ROWS],
            clock: 0,
        }
    }

    /// Releases a job of a row at the clock: it has the cost of the row's duty left and is due a deadline later, and the row may be
    /// released again a separation later.
    ///
    /// Refused 1 where there is no such row, and 5 where the row may not be released yet. A refusal changes nothing.
    pub fn release(&mut self, row: u32) -> Result<(), Refusal>
        ensures step { RowCalled (work_in self.old) row Release result (work_in self.new) }
        ensures setting { self.new.setting ≡ self.old.setting }
        ensures refused { OnErr result (self.new ≡ self.old) }
    {
        self.call(row, RowCall::Release)
    }

    /// Ends the job of a row, whatever is left of it.
    ///
    /// Refused 1 where there is no such row, and 6 where the row has no job. A refusal changes nothing.
    pub fn done(&mut self, row: u32) -> Result<(), Refusal>
        ensures step { RowCalled (work_in self.old) row Done result (work_in self.new) }
        ensures setting { self.new.setting ≡ self.old.setting }
        ensures refused { OnErr result (self.new ≡ self.old) }
    {
        self.call(row, RowCall::Done)
    }

    // A call to a row.
    fn call(&mut self, row: u32, call: RowCall) -> Result<(), Refusal>
        ensures step { RowCalled (work_in self.old) row call result (work_in self.new) }
        ensures setting { self.new.setting ≡ self.old.setting }
        ensures refused { OnErr result (self.new ≡ self.old) }
    {
        let row = row as usize;
        let Some(&duty) = self.setting.duties().get(row) else {
            return Err(Refusal::NoSuchRow);
        };
        apply(&mut self.rows[row], call, duty, self.clock)
    }

    /// One tick. It answers the table's slack before the tick, and who had it: `None` where the tick is to spare for an errand, which is
    /// exactly where an errand waits and the slack is at least 1. Otherwise the ready row of the smallest number has it, or nobody.
    ///
    /// Refused 7 where the clock is at its last value, 4,294,967,295. A refusal changes nothing.
    pub fn tick(&mut self, errand_waits: bool) -> Result<(u32, Option<Who>), Refusal>
        ensures step { WorkTicks (work_in self.old) errand_waits result (work_in self.new) }
        ensures setting { self.new.setting ≡ self.old.setting }
        ensures refused { OnErr result (self.new ≡ self.old) }
    {
        if self.clock == u32::MAX {
            return Err(Refusal::ClockEnded);
        }
        let slack = self.slack();
        let turn = if errand_waits && slack >= 1 {
            self.clock += 1;
            None
        } else {
            Some(self.duty_tick())
        };
        Ok((slack, turn))
    }

    // The first ready row has the tick, or nobody.
    fn duty_tick(&mut self) -> Who
        requires { self.old.clock < last_clock }
        ensures who { result ≡ duty_turn (work_in self.old) }
        ensures work { work_in self.new ≡ later (duty_tick (work_in self.old)) }
        ensures setting { self.new.setting ≡ self.old.setting }
    {
        let who = match self.first_ready() {
            Some(row) => {
                let row = row as u32;
                let _ = self.call(row, RowCall::Tick);
                Who::Duty(row)
            }
            None => Who::Nobody,
        };
        self.clock += 1;
        who
    }

    // The first ready row.
    fn first_ready(&self) -> Option<usize>
        ensures { result ≡ first_ready (work_in self.now).rows }
    {
        self.rows()
            .iter()
            .position(|row| matches!(row, Row::Ready { .. }))
    }

    // The states of the table's rows.
    pub(crate) fn rows(&self) -> &[Row]
        ensures { result.now ≡ (work_in self.now).rows }
    {
        &self.rows[..self.setting.duties().len()]
    }
}
