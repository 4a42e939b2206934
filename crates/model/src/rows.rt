/// The state of one row of the table. Its clocks may lie past the last value of the machine's own clock, so they are wider.
#[derive(Clone, Copy, PartialEq, Eq, Debug)]
pub enum Row {
    /// The row has no job.
    Idle {
        /// The first clock at which the row may be released.
        earliest: u64,
    },
    /// The row has a job.
    Ready {
        /// The ticks that the job is still to have, at least 1 in a running dispatcher.
        left: u32,
        /// The clock by which it must have had them.
        due: u64,
        /// The first clock at which the row may be released next.
        earliest: u64,
    },
}

/// What is asked of a row.
#[derive(Clone, Copy, PartialEq, Eq, Debug)]
pub enum RowCall {
    /// A new job. Refused 5 before the row's earliest release.
    Release,
    /// The end of its job, whatever is left of it. Refused 6 where the row has none.
    Done,
    /// One tick of work, never refused. A row that has no job stays as it is.
    Tick,
}
