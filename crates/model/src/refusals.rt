ghost use Rattle.std.specs.Prelude.{◌≡◌, slice_index};
ghost use Rattle.model.specs.Refusals.{refusal_code};

/// Why a call was refused. Where several refusals fit a call, it is the one of the smallest number.
#[derive(Clone, Copy, PartialEq, Eq, Debug)]
pub enum Refusal {
    /// 1: there is no such row; for an insertion, no such place.
    NoSuchRow,
    /// 2: the limits of cost, deadline and separation are broken.
    DutyLimits,
    /// 3: the table has all its sixteen rows.
    TableFull,
    /// 4: a row of the new table would have no response time; the number of the smallest such row.
    Unschedulable(u32),
    /// 5: the row may not be released yet.
    TooSoon,
    /// 6: the row has no job.
    RowIdle,
    /// 7: the clock is at its last value, 4,294,967,295.
    ClockEnded,
    /// 8: the limits of units or worth are broken.
    ErrandLimits,
    /// 9: an errand of this number waits already.
    AlreadyWaiting,
    /// 10: as many errands wait as there are places.
    NoPlace,
    /// 11: no errand of this number waits.
    NotWaiting,
}

impl Refusal {
    /// The number under which the refusal is reported, 1 to 11. Those who read transcripts know refusals by it, so it is no `Display`
    /// in words.
    pub fn number(&self) -> u32
        ensures { result ≡ slice_index (refusal_code self.now) 0 }
    {
        match self {
            Refusal::NoSuchRow => 1,
            Refusal::DutyLimits => 2,
            Refusal::TableFull => 3,
            Refusal::Unschedulable(_) => 4,
            Refusal::TooSoon => 5,
            Refusal::RowIdle => 6,
            Refusal::ClockEnded => 7,
            Refusal::ErrandLimits => 8,
            Refusal::AlreadyWaiting => 9,
            Refusal::NoPlace => 10,
            Refusal::NotWaiting => 11,
        }
    }
}
