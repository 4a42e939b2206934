// A dispatcher and its calls. Each call answers and leaves what the machine's step says. A refused call leaves the workload as it
// was. A request, a withdraw and a tick that an errand has make one call of the queue that changes it, and the queue says itself what
// that call leaves. Any other call leaves the queue as it was.
ghost use Rattle.std.specs.Prelude.{◌≡◌, [], OnErr};
ghost use Rattle.model.specs.Histories.{GoesOn, by_call, by_put, by_take, by_tick};
ghost use Rattle.model.specs.Machine.{Requested, RowCalled, Step, Ticks, Withdraws, fresh, slack_of, tick_answer, waits};
ghost use Rattle.model.specs.declared.calls.Answer.TheVariants.{Refused};
ghost use Rattle.model.specs.declared.refusals.Refusal.{Refusal};
ghost use Rattle.model.specs.declared.calls.Call.TheVariants.{Tick};
ghost use Rattle.model.specs.declared.rows.RowCall.TheVariants.{Release, Done};
ghost use Rattle.table.specs.Settings.{table_of};
ghost use Rattle.workload.specs.Workloads.{work_in};
ghost use Rattle.dispatcher.specs.Left.{LeftBy};

use model::{Answer, Call, Errand, Refusal, Who};
use queue::Queue;
use table::Setting;
use workload::Workload;

/// A running dispatcher over any queue.
///
/// Its work, which is the duty table, the state of each row and the clock, is such that no row's slack is below 0: no other can exist.
#[derive(Drop)]
pub struct Dispatcher<Q> {
    pub(crate) work: Workload,
    pub(crate) queue: Q,
}

impl<Q: Queue> Dispatcher<Q> {
    ghost use Rattle.dispatcher.specs.Views.{answer_of, view};

    /// Starts a setting over a queue, whatever the queue holds: the clock is 0, and every row is idle and may be released at once.
    pub fn start(setting: Setting, queue: Q) -> Dispatcher<Q>
        ensures state { view Q.meaning result ≡ fresh (table_of setting) (Q.meaning queue) }
        ensures queue { result.queue ≡ queue }
    {
        Dispatcher {
            work: Workload::start(setting),
            queue,
        }
    }

    /// Releases a job of a row. Refused 1 where there is no such row, and 5 where the row may not be released yet.
    pub fn release(&mut self, row: u32) -> Result<(), Refusal>
        ensures step { RowCalled (work_in self.old.work) row Release result (work_in self.new.work) }
        ensures queue { self.new.queue ≡ self.old.queue }
        ensures refused { OnErr result (self.new ≡ self.old) }
    {
        self.work.release(row)
    }

    /// Ends the job of a row before it has had all its ticks. Refused 1 where there is no such row, and 6 where the row has no job.
    pub fn done(&mut self, row: u32) -> Result<(), Refusal>
        ensures step { RowCalled (work_in self.old.work) row Done result (work_in self.new.work) }
        ensures queue { self.new.queue ≡ self.old.queue }
        ensures refused { OnErr result (self.new ≡ self.old) }
    {
        self.work.done(row)
    }

    /// Has an errand wait.
    ///
    /// Refused 8 where its units are not from 1 to 4,096 or its worth is above 65,535, 9 where an errand of its number waits already,
    /// and 10 where as many errands wait as the queue has room for. Where several fit, it is the one of the smallest number.
    pub fn request(&mut self, errand: Errand) -> Result<(), Refusal>
        ensures step { Requested (view Q.meaning self.old) errand result (view Q.meaning self.new) }
        ensures history { GoesOn Q.arises self.old.queue (by_put errand result) self.new.queue }
        ensures work { self.new.work ≡ self.old.work }
        ensures leaves { Q.leaves self.old.queue (by_put errand result) self.new.queue }
    {
        self.queue.put(errand)
    }

    /// Takes out the errand of a number, and answers the units that it had left, 1 to 4,096. Refused 11 where none of this number
    /// waits.
    pub fn withdraw(&mut self, number: u32) -> Result<u32, Refusal>
        ensures step { Withdraws (view Q.meaning self.old) number result (view Q.meaning self.new) }
        ensures history { GoesOn Q.arises self.old.queue (by_take number result) self.new.queue }
        ensures work { self.new.work ≡ self.old.work }
        ensures leaves { Q.leaves self.old.queue (by_take number result) self.new.queue }
    {
        self.queue.take(number)
    }

    /// The table's slack in ticks, with the releases for the clock over; 65,535 where the table has no rows. It is never refused, and
    /// changes nothing.
    pub fn slack(&self) -> u32
        ensures { result ≡ slack_of (work_in self.now.work) }
    {
        self.work.slack()
    }

    // An errand waits.
    fn errand_waits(&self) -> bool
        ensures { result ≡ waits (Q.meaning self.now.queue) }
    {
        self.queue.name().is_some()
    }

    /// One tick of the processor: it answers the table's slack before the tick, and who had it. The errand that the queue names has it
    /// where one waits and the slack is at least 1, else the ready row of the smallest number, else nobody. Unless an errand had it, the
    /// queue stays as it was.
    ///
    /// Refused 7 where the clock is at its last value, 4,294,967,295.
    pub fn tick(&mut self) -> Result<(u32, Who), Refusal>
        ensures step { Ticks (view Q.meaning self.old) result (view Q.meaning self.new) }
        ensures history { GoesOn Q.arises self.old.queue (by_tick (tick_answer result)) self.new.queue }
        ensures queue { by_tick (tick_answer result) ≡ [] → self.new.queue ≡ self.old.queue }
        ensures leaves { LeftBy Q.leaves Tick self.old.queue (by_tick (tick_answer result)) self.new.queue }
        ensures refused { OnErr result (self.new ≡ self.old) }
    {
        let errand_waits = self.errand_waits();
        let (slack, turn) = self.work.tick(errand_waits)?;
        let who = match turn {
            Some(who) => who,
            None => Who::Errand(self.queue.spend().unwrap()),
        };
        Ok((slack, who))
    }

    /// Makes any of the six calls, and gives its answer, a refusal among them.
    pub fn carry_out(&mut self, call: Call) -> Answer
        ensures step { Step (view Q.meaning self.old) call result (view Q.meaning self.new) }
        ensures history { GoesOn Q.arises self.old.queue (by_call call result) self.new.queue }
        ensures leaves { LeftBy Q.leaves call self.old.queue (by_call call result) self.new.queue }
        ensures work { (why : Refusal) → result ≡ Refused why → self.new.work ≡ self.old.work }
    {
        self.accept(call).unwrap_or_else(Answer::Refused)
    }

    // The answer to a call, unless it is refused.
    fn accept(&mut self, call: Call) -> Result<Answer, Refusal>
        ensures step { Step (view Q.meaning self.old) call (answer_of result) (view Q.meaning self.new) }
        ensures history { GoesOn Q.arises self.old.queue (by_call call (answer_of result)) self.new.queue }
        ensures leaves { LeftBy Q.leaves call self.old.queue (by_call call (answer_of result)) self.new.queue }
        ensures work { (why : Refusal) → answer_of result ≡ Refused why → self.new.work ≡ self.old.work }
    {
        let answer = match call {
            Call::Release(row) => {
                self.release(row)?;
                Answer::Accepted
            }
            Call::Done(row) => {
                self.done(row)?;
                Answer::Accepted
            }
            Call::Request(errand) => {
                self.request(errand)?;
                Answer::Accepted
            }
            Call::Withdraw(number) => Answer::Withdrawn(self.withdraw(number)?),
            Call::Slack => Answer::Slack(self.slack()),
            Call::Tick => {
                let (slack, who) = self.tick()?;
                Answer::Ticked(slack, who)
            }
        };
        Ok(answer)
    }
}
