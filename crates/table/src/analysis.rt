// Response-time analysis of a table whose duties are within their limits.
ghost use Rattle.std.specs.Prelude.{◌≡◌, ◌<◌, ◌≤◌, true, length};
ghost use Rattle.model.specs.Table.{busy, response, first_unschedulable, all_within, suffices};

use model::Duty;

// The duties of a table, to be analysed.
#[derive(Clone, Copy)]
pub(crate) struct Analysis<'a> {
    pub duties: &'a [Duty],
    ghost within: { all_within duties.now ≡ true },
    ghost few: { length duties.now ≤ 16 },
}

impl Analysis<'_> {
    // What the rows can ask of the processor in `ticks` ticks that begin with a job of each.
    fn busy(&self, ticks: u32) -> u64
        ensures { result ≡ busy self.now.duties.now ticks }
    {
        // A loop, since a closure could not know that no separation is 0.
        let mut sum = 0;
        for duty in self.duties {
            sum += u64::from(duty.cost) * u64::from(ticks.div_ceil(duty.separation));
        }
        sum
    }

    // `ticks` ticks suffice for rows 0 to `row`.
    fn suffices(&self, row: usize, ticks: u32) -> bool
        requires { row < length self.now.duties.now }
        ensures { result ≡ suffices self.now.duties.now row ticks }
    {
        let rows = Analysis {
            duties: &self.duties[..=row],
        };
        rows.busy(ticks) <= u64::from(ticks)
    }

    // The response time of a row, sought by trying each number of ticks from 1 on.
    pub fn response_time(&self, row: usize) -> Option<u32>
        ensures { result ≡ response self.now.duties.now row }
    {
        let deadline = self.duties.get(row)?.deadline;
        (1..=deadline).find(|&ticks| self.suffices(row, ticks))
    }

    // The smallest row that has no response time.
    pub fn first_unschedulable(&self) -> Option<u32>
        ensures { result ≡ first_unschedulable self.now.duties.now }
    {
        (0..self.duties.len() as u32).find(|&row| self.response_time(row as usize).is_none())
    }
}
