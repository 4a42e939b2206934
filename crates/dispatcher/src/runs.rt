// Whole runs, with the promise that holds of each.
ghost use Rattle.std.specs.Prelude.{◌≡◌, []};
ghost use Rattle.model.specs.Histories.{Chosen, GoesOn, History, history};
ghost use Rattle.model.specs.Machine.{fresh};
ghost use Rattle.model.specs.Promise.{Promise};
ghost use Rattle.table.specs.Settings.{table_of};
ghost use Rattle.workload.specs.Workloads.{work_in};
ghost use Rattle.queue.specs.Untouched.{Left};
ghost use Rattle.dispatcher.specs.Left.{LeftAlong};
ghost use Rattle.dispatcher.specs.Scripts.{calls_of, trace_of};
ghost use Rattle.dispatcher.specs.Views.{view};

use crate::dispatchers::Dispatcher;
use crate::entries::Entry;
use queue::Queue;
use table::Setting;

/// Starts a setting over a queue, carries out a script of calls, writes each answer beside its call, and hands the dispatcher back.
///
/// Whatever the queue holds at the start and whatever the calls are: the answers and the state at the end are the machine's. Every
/// deadline is met. An errand has each tick before which one waits, exactly where no lawful future can then miss a deadline. The
/// accounts of every errand balance. Which errand has such a tick goes by the queue's choice over all that happened to it.
///
/// A request, a withdraw and a tick that an errand has leave of the queue what it says itself that one such call leaves, by what the
/// call adds to all that happened to it. Any other call leaves the queue as it was. So a script in which nothing is added leaves what
/// calls that add nothing leave, one after the other.
pub fn run<Q: Queue>(setting: Setting, queue: Q, script: &mut [Entry]) -> Dispatcher<Q>
    ensures promise { Promise (fresh (table_of setting) (Q.meaning queue)) (trace_of script.new) (view Q.meaning result) }
    ensures calls { calls_of script.new ≡ calls_of script.old }
    ensures table { (work_in result.work).table ≡ table_of setting }
    ensures history { GoesOn Q.arises queue (history (trace_of script.new)) result.queue }
    ensures leaves { LeftAlong Q.leaves queue (trace_of script.new) result.queue }
    ensures untouched { history (trace_of script.new) ≡ [] → Left (λ q r. Q.leaves q [] r) queue result.queue }
    ensures chosen { (past : History) → Q.arises past queue → Chosen Q.choice past (trace_of script.new) }
{
    let mut dispatcher = Dispatcher::start(setting, queue);
    for entry in script.iter_mut() {
        entry.answer = dispatcher.carry_out(entry.call);
    }
    dispatcher
}
