// The transcript of a sheet: the lines of its rows, of its run and of its totals.
ghost use Rattle.std.specs.Prelude.{◌≡◌, ◌+◌, ◌*◌, ◌≤◌, [], ◌++◌, length, string_bytes, string_capacity, string_len, vec_capacity};
ghost use Rattle.dispatcher.specs.Scripts.{trace_of};
ghost use Rattle.sheet.specs.Sheets.{set_by};
ghost use Rattle.transcript.specs.Renderings.{left_over, run_lines};
ghost use Rattle.transcript.specs.Scripts.{script_of};
ghost use Rattle.transcript.specs.Transcripts.{Transcript};

use crate::lines::{push_duties, push_events};
use crate::runs::run_sheet;
use crate::totals::{Totals, push_totals};
use dispatcher::Entry;
use sheet::Sheet;

// The lines of a run, and its totals.
fn push_run(out: &mut String, script: &[Entry])
    requires room { string_len out.old + 96 * length script.now + 192 ≤ string_capacity out.old }
    ensures { string_bytes out.new ≡ string_bytes out.old ++ run_lines (trace_of script.now) (left_over (trace_of script.now)) }
{
    push_events(out, script);
    push_totals(out, Totals::of(script))
}

// The transcript of a sheet, made in an empty script and an empty text: at most 96 bytes for each of 16 rows and of the calls of
// its script, and 192 for the totals.
pub(crate) fn push_transcript(script: &mut Vec<Entry>, out: &mut String, sheet: Sheet)
    requires no_calls { script.old.items ≡ [] }
    requires no_text { string_bytes out.old ≡ [] }
    requires calls { length (script_of (set_by sheet).ats (set_by sheet).ticks) ≤ vec_capacity script.old }
    requires text { 96 * (16 + length (script_of (set_by sheet).ats (set_by sheet).ticks)) + 192 ≤ string_capacity out.old }
    ensures { Transcript (set_by sheet.entry) (string_bytes out.new) }
{
    push_duties(out, sheet.setting());
    run_sheet(script, sheet);
    push_run(out, script.as_slice())
}
