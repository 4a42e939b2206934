// The exact slack of a workload.
ghost use Rattle.std.specs.Prelude.{◌≡◌, ◌+◌, ◌-◌, ◌≤◌, true};
ghost use Rattle.model.specs.Demand.{next_release};
ghost use Rattle.model.specs.Kept.{row_kept};
ghost use Rattle.model.specs.Machine.{slack_of};
ghost use Rattle.model.specs.Slack.{window_end};
ghost use Rattle.model.specs.Table.{within_limits};
ghost use Rattle.workload.specs.Streams.{stream_of};
ghost use Rattle.workload.specs.Workloads.{work_in};

use crate::demands::Demand;
use crate::streams::Stream;
use crate::workloads::Workload;
use arrayvec::ArrayVec;
use model::{Duty, Row};
use table::MOST_ROWS;

// A row at a clock, with the releases for the clock over: its next release and the end of its window lie ahead.
#[derive(Clone, Copy)]
struct Ahead {
    duty: Duty,
    row: Row,
    clock: u32,
    ghost limits: { within_limits duty ≡ true },
    ghost numbers: { row_kept clock duty row ≡ true },
    ghost release: { clock ≤ next_release (clock + 1) row },
    ghost window: { clock ≤ window_end (clock + 1) duty row },
}

impl Ahead {
    // What the row asks for from the clock on.
    fn stream(self) -> Stream
        ensures { result ≡ stream_of self.clock self.duty self.row }
    {
        let clock = u64::from(self.clock);
        let (left, next) = match self.row {
            Row::Idle { earliest } => (0, earliest.max(clock + 1)),
            Row::Ready { left, earliest, .. } => (left, earliest),
        };
        Stream {
            left,
            first: (next - clock) as u32,
            cost: self.duty.cost,
            separation: self.duty.separation,
        }
    }

    // The ticks from the clock to the end of the row's window.
    fn window(self) -> u32
        ensures value { result ≡ window_end (self.clock + 1) self.duty self.row - self.clock }
        ensures bound { result ≤ 8192 }
    {
        let clock = u64::from(self.clock);
        let end = match self.row {
            Row::Idle { earliest } => earliest.max(clock + 1) + u64::from(self.duty.deadline),
            Row::Ready { due, .. } => due,
        };
        (end - clock) as u32
    }
}

impl Workload {
    /// The table's slack in ticks, with the releases for the clock over: the least over the rows of the row's slack, 65,535 where there
    /// are no rows. A row's slack is the number of ticks that neither the row nor a more urgent one can need, up to the deadline of its
    /// job, or of the next job that can come.
    ///
    /// It is the exact dynamic slack of R. I. Davis, *On Exploiting Spare Capacity in Hard Real-Time Systems*, for whole ticks.
    pub fn slack(&self) -> u32
        ensures { result ≡ slack_of (work_in self.now) }
    {
        // The streams of the rows so far.
        let mut streams: ArrayVec<Stream, MOST_ROWS> = ArrayVec::new();
        let mut least: u32 = 65535;
        for (&duty, &row) in self.setting.duties().iter().zip(self.rows()) {
            let ahead = Ahead {
                duty,
                row,
                clock: self.clock,
            };
            streams.push(ahead.stream());
            let demand = Demand { streams: &streams };
            least = least.min(demand.idle_ticks(ahead.window()));
        }
        least
    }
}
