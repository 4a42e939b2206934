// The lines of a run, each added to a text. A line has at most 96 bytes.
ghost use Rattle.std.specs.Prelude.{◌≡◌, ◌+◌, ◌*◌, ◌≤◌, ◌++◌, length, string_bytes, string_capacity, string_len};
ghost use Rattle.model.specs.Runs.{anyone, of_tick};
ghost use Rattle.model.specs.Words.{had_by};
ghost use Rattle.table.specs.Settings.{table_of};
ghost use Rattle.dispatcher.specs.Scripts.{trace_of};
ghost use Rattle.transcript.specs.Lines.{call_word, duty_line, event_line};
ghost use Rattle.transcript.specs.Renderings.{duty_lines, event_lines};

use crate::text::{push, push_number};
use dispatcher::Entry;
use model::{Answer, Call, Who};
use table::Setting;

// The word of a call: a `Display` of the whole call would have to print its numbers too.
fn call_word(call: Call) -> &'static str
    ensures word { result.now ≡ call_word call }
    ensures short { length result.now ≤ 8 }
{
    match call {
        Call::Release(_) => "release",
        Call::Done(_) => "done",
        Call::Request(_) => "request",
        Call::Withdraw(_) => "withdraw",
        Call::Slack => "slack",
        Call::Tick => "tick",
    }
}

// The words for who had a tick.
fn push_who(out: &mut String, who: Who)
    requires room { string_len out.old + 27 ≤ string_capacity out.old }
    ensures bytes { string_bytes out.new ≡ string_bytes out.old ++ had_by who }
    ensures grown { string_len out.new ≤ string_len out.old + 27 }
    ensures kept { string_capacity out.old ≤ string_capacity out.new }
{
    match who {
        Who::Nobody => push(out, "nobody"),
        Who::Duty(row) => {
            push(out, "duty ");
            push_number(out, u64::from(row));
        }
        Who::Errand(number) => {
            push(out, "errand ");
            push_number(out, u64::from(number));
        }
    }
}

// The line of a call with its answer, if it has one: a tick or a refusal has, and every other answer has none.
fn push_event(out: &mut String, clock: u64, entry: &Entry)
    requires room { string_len out.old + 96 ≤ string_capacity out.old }
    ensures bytes { string_bytes out.new ≡ string_bytes out.old ++ event_line clock entry.now.call entry.now.answer }
    ensures grown { string_len out.new ≤ string_len out.old + 96 }
    ensures kept { string_capacity out.old ≤ string_capacity out.new }
{
    match entry.answer {
        Answer::Ticked(slack, who) => {
            push(out, "(tick ");
            push_number(out, clock);
            push(out, " ");
            push_number(out, u64::from(slack));
            push(out, " ");
            push_who(out, who);
            push(out, ")\n");
        }
        Answer::Refused(why) => {
            push(out, "(refused ");
            push_number(out, clock);
            push(out, " ");
            push_number(out, u64::from(why.number()));
            push(out, " ");
            push(out, call_word(entry.call));
            push(out, ")\n");
        }
        Answer::Accepted | Answer::Withdrawn(_) | Answer::Slack(_) => {}
    }
}

// The line of a row: its response time.
fn push_duty(out: &mut String, row: u32, response: u32)
    requires room { string_len out.old + 96 ≤ string_capacity out.old }
    ensures bytes { string_bytes out.new ≡ string_bytes out.old ++ duty_line row response }
    ensures grown { string_len out.new ≤ string_len out.old + 96 }
    ensures kept { string_capacity out.old ≤ string_capacity out.new }
{
    push(out, "(duty ");
    push_number(out, u64::from(row));
    push(out, " response ");
    push_number(out, u64::from(response));
    push(out, ")\n");
}

// The lines of all rows.
pub(crate) fn push_duties(out: &mut String, setting: &Setting)
    requires room { string_len out.old + 96 * length (table_of setting.now) ≤ string_capacity out.old }
    ensures bytes { string_bytes out.new ≡ string_bytes out.old ++ duty_lines (table_of setting.now) (length (table_of setting.now)) }
    ensures grown { string_len out.new ≤ string_len out.old + 96 * length (table_of setting.now) }
    ensures kept { string_capacity out.old ≤ string_capacity out.new }
{
    let rows = setting.duties().len() as u32;
    for row in 0..rows {
        // Every row of a setting has one.
        let response = setting.response(row).unwrap();
        push_duty(out, row, response);
    }
}

// By how much a call moves the clock.
fn ticks_of(answer: Answer) -> u64
    ensures { result ≡ of_tick anyone answer }
{
    match answer {
        Answer::Ticked(_, _) => 1,
        _ => 0,
    }
}

// The lines of a script that was run from clock 0 on.
pub(crate) fn push_events(out: &mut String, script: &[Entry])
    requires room { string_len out.old + 96 * length script.now ≤ string_capacity out.old }
    ensures bytes { string_bytes out.new ≡ string_bytes out.old ++ event_lines 0 (trace_of script.now) }
    ensures grown { string_len out.new ≤ string_len out.old + 96 * length script.now }
    ensures kept { string_capacity out.old ≤ string_capacity out.new }
{
    let mut clock = 0;
    for entry in script {
        push_event(out, clock, entry);
        clock += ticks_of(entry.answer);
    }
}
