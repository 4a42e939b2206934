/// A duty: a hard sporadic task. All its numbers count ticks.
///
/// A table holds duties with `1 <= cost <= deadline <= separation <= 4,096` only; the type itself bounds nothing.
#[derive(Clone, Copy, PartialEq, Eq, Debug, Default)]
pub struct Duty {
    /// The ticks that each of its jobs needs.
    pub cost: u32,
    /// The ticks from a job's release by which it must have had them.
    pub deadline: u32,
    /// The fewest ticks from one release to the next.
    pub separation: u32,
}
