// Sheets apart from their text. They say where their at-lines stand in it, and the calls are read from a text that is given then.
ghost use Rattle.std.specs.Prelude.{◌≡◌};
ghost use Rattle.table.specs.Settings.{table_of};
ghost use Rattle.sheet.specs.Owned.{into_owned, outcome_in, owned_outcome, owned_set, owned_sheet_of};
ghost use Rattle.sheet.specs.Reports.{table_report};
ghost use Rattle.sheet.specs.Sheets.{set_by, sheet_of};

use crate::ats::AtSpan;
use crate::faults::TableFault;
use crate::sheets::{MOST_ATS, Sheet, read_borrowed};
use arrayvec::ArrayVec;
use forms::QueueName;
use table::Setting;

/// A sheet that was read, apart from its text: a table of duties, a queue, where the at-lines stand in the text, in the order of their
/// lines, and a number of ticks. The text may be gone.
#[derive(Drop)]
pub struct OwnedSheet {
    pub(crate) setting: Setting,
    pub(crate) queue: QueueName,
    pub(crate) ats: ArrayVec<AtSpan, MOST_ATS>,
    pub(crate) ticks: u32,
}

impl OwnedSheet {
    /// The table, for its duties and response times: at most sixteen duties, each with a response time.
    pub fn setting(&self) -> &Setting
        ensures { table_of result.now ≡ (owned_set self.now).table }
    {
        &self.setting
    }

    /// The table, to start a dispatcher with.
    pub fn into_setting(self) -> Setting
        ensures { table_of result ≡ (owned_set self).table }
    {
        self.setting
    }

    /// The queue in which errands wait.
    pub fn queue(&self) -> QueueName
        ensures { result ≡ (owned_set self.now).queue }
    {
        self.queue
    }

    /// Where the at-lines stand, in the order of their lines: at most 256, each with a clock below the number of ticks.
    pub fn ats(&self) -> &[AtSpan]
        ensures { result.now ≡ (owned_set self.now).ats }
    {
        self.ats.as_slice()
    }

    /// The number of ticks of the run: at most 10,000.
    pub fn ticks(&self) -> u32
        ensures { result ≡ (owned_set self.now).ticks }
    {
        self.ticks
    }
}

impl<'a> Sheet<'a> {
    /// The sheet apart from its text: the same table, queue and ticks, and of each at-line where it stands.
    pub fn into_owned(self) -> OwnedSheet
        ensures { owned_set result ≡ into_owned (set_by self.entry) }
    {
        let lines = self.ats.as_slice();
        let mut ats = ArrayVec::new();
        for at in lines {
            ats.push(at.span());
        }
        OwnedSheet {
            setting: self.setting,
            queue: self.queue,
            ats,
            ticks: self.ticks,
        }
    }
}

/// The sheet that a text is, or the one fault that counts. The text may hold any bytes. The sheet does not borrow it: each at-line is
/// given by where it stands, and `AtSpan::in_text` of the same text is the at-line itself.
pub fn read(text: &[u8]) -> Result<OwnedSheet, TableFault>
    ensures text { outcome_in text.now table_report result ≡ sheet_of text.now }
    ensures spans { owned_outcome table_report result ≡ owned_sheet_of text.now }
{
    Ok(read_borrowed(text)?.into_owned())
}
