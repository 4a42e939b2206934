// Scripts that are run over one of the two queues.
ghost use Rattle.std.specs.Prelude.{◌≡◌, ◌≤◌, [], length, vec_capacity};
ghost use Rattle.dispatcher.specs.Scripts.{calls_of, trace_of};
ghost use Rattle.model.specs.Histories.{Chosen};
ghost use Rattle.model.specs.Machine.{State, fresh};
ghost use Rattle.model.specs.Promise.{Promise};
ghost use Rattle.table.specs.Settings.{table_of};
ghost use Rattle.sheet.specs.Sheets.{set_by};
ghost use Rattle.transcript.specs.Scripts.{script_of};
ghost use Rattle.transcript.specs.Transcripts.{choice_of, empty_queue};

use crate::script::push_script;
use dispatcher::{Entry, run};
use forms::QueueName;
use queue::{ByWorth, FirstCome, Slot};
use sheet::Sheet;
use table::Setting;

// The queue of a sheet has room for so many errands.
const CAPACITY: usize = 64;

// Runs a script over an empty queue of this name, and writes the answers beside the calls. A sheet names its queue, so the type of
// the queue is chosen here and nowhere else.
fn run_over(setting: Setting, queue: QueueName, script: &mut [Entry])
    ensures promise { (end : State) × Promise (fresh (table_of setting) (empty_queue 64)) (trace_of script.new) end }
    ensures chosen { Chosen (choice_of queue) [] (trace_of script.new) }
    ensures calls { calls_of script.new ≡ calls_of script.old }
{
    let mut slots = [Slot::free(); CAPACITY];
    match queue {
        QueueName::First => {
            run(setting, FirstCome::new(&mut slots), script);
        }
        QueueName::Worth => {
            run(setting, ByWorth::new(&mut slots), script);
        }
    }
}

// Makes the script of a sheet, and runs it: its answers are written beside its calls.
pub(crate) fn run_sheet(script: &mut Vec<Entry>, sheet: Sheet)
    requires empty { script.old.items ≡ [] }
    requires room { length (script_of (set_by sheet).ats (set_by sheet).ticks) ≤ vec_capacity script.old }
    ensures promise { (end : State) × Promise (fresh (set_by sheet.entry).table (empty_queue 64)) (trace_of script.new.items) end }
    ensures chosen { Chosen (choice_of (set_by sheet.entry).queue) [] (trace_of script.new.items) }
    ensures calls { calls_of script.new.items ≡ script_of (set_by sheet.entry).ats (set_by sheet.entry).ticks }
{
    push_script(script, sheet.ats(), sheet.ticks());
    let queue = sheet.queue();
    run_over(sheet.into_setting(), queue, script.as_mut_slice())
}
