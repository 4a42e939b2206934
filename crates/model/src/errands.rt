/// An errand: a soft request for some ticks of work.
///
/// A queue takes errands of 1 to 4,096 units and a worth of at most 65,535 only; the type itself bounds nothing.
#[derive(Clone, Copy, PartialEq, Eq, Debug)]
pub struct Errand {
    /// The number that it goes by. No two errands that wait have the same.
    pub number: u32,
    /// The ticks of work that it asks for; one unit is one tick.
    pub units: u32,
    /// What it is worth, to queues that go by that.
    pub worth: u32,
}
