// What a line says: its word decides which items it wants; or the first fault of its letters or of its form.
ghost use Rattle.std.specs.Prelude.{◌≡◌};
ghost use Rattle.std.specs.Option.{option_map};
ghost use Rattle.forms.specs.Faults.{forms_report, reported};
ghost use Rattle.forms.specs.Items.{items_left, numbers};
ghost use Rattle.forms.specs.Lines.{line_of};
ghost use Rattle.forms.specs.Sayings.{at_said, duty_said, end_fits, end_said, form_judged, queue_said, said, sheet_of_numbers, worded};

use crate::calls::some_calls;
use crate::faults::FormsFault;
use crate::items::Items;
use crate::letters::letters;
use crate::lines::{Line, Part};
use crate::numbers::{is_number, numbers, numbers_fit, value};
use crate::shapes::{is_form, is_remark};
use model::Duty;

// The most ticks that a run may have.
const MOST_TICKS: u32 = 10000;

/// The queue in which errands wait.
#[derive(Clone, Copy, PartialEq, Eq, Debug)]
pub enum QueueName {
    /// `first`: the errand that came first is the next to be worked on.
    First,
    /// `worth`: the errand of the most worth for each unit is the next to be worked on.
    Worth,
}

/// What a line says.
#[derive(Clone, Copy)]
pub enum Said {
    /// `(sheet 1)`: the text is a sheet of version 1.
    Sheet,
    /// `(duty PLACE COST DEADLINE SEPARATION)`: the place at which the duty is inserted in the table, and the duty.
    Duty(u32, Duty),
    /// `(queue first)` or `(queue worth)`.
    Queue(QueueName),
    /// `(at CLOCK CALL ..)`: the clock. The calls stay in the text.
    At(u32),
    /// `(end TICKS)`: the number of ticks.
    End(u32),
    /// `(remark ..)`: any text.
    Remark,
}

// Only version 1 is known.
fn sheet_said(items: Items) -> Option<Said>
    ensures { result ≡ sheet_of_numbers (numbers 1 (items_left items.entry)) }
{
    let [version] = numbers::<1>(items)?;
    (version == 1).then_some(Said::Sheet)
}

fn duty_said(items: Items) -> Option<Said>
    ensures { result ≡ option_map duty_said (numbers 4 (items_left items.entry)) }
{
    let [place, cost, deadline, separation] = numbers::<4>(items)?;
    Some(Said::Duty(
        place,
        Duty {
            cost,
            deadline,
            separation,
        },
    ))
}

fn queue_said(mut items: Items) -> Option<Said>
    ensures { result ≡ queue_said (items_left items.entry) }
{
    let name = items.next()?;
    match (name.bytes, items.next()) {
        (b"first", None) => Some(Said::Queue(QueueName::First)),
        (b"worth", None) => Some(Said::Queue(QueueName::Worth)),
        _ => None,
    }
}

fn at_said(mut items: Items) -> Option<Said>
    ensures { result ≡ at_said (items_left items.entry) }
{
    let clock = items.next()?;
    (is_number(clock.bytes) && some_calls(items)).then(|| Said::At(value(clock.bytes)))
}

fn end_said(items: Items) -> Option<Said>
    ensures { result ≡ option_map end_said (numbers 1 (items_left items.entry)) }
{
    let [ticks] = numbers::<1>(items)?;
    Some(Said::End(ticks))
}

// What a line of this word says, if the word is known and the items behind it are what it wants.
fn worded(word: &[u8], items: Items) -> Option<Said>
    ensures { result ≡ worded word.now (items_left items.entry) }
{
    match word {
        b"sheet" => sheet_said(items),
        b"duty" => duty_said(items),
        b"queue" => queue_said(items),
        b"at" => at_said(items),
        b"end" => end_said(items),
        _ => None,
    }
}

// What a line that is a form says, if its items are what its word wants.
fn said_in(part: Part) -> Option<Said>
    ensures { result ≡ said part.entry.bytes.now }
{
    if is_remark(part.bytes) {
        return Some(Said::Remark);
    }
    let mut items = Items::new(part);
    let word = items.next()?;
    worded(word.bytes, items)
}

// A run has no more ticks than it may have.
fn end_fits(what: Said) -> bool
    ensures { result ≡ end_fits what }
{
    match what {
        Said::End(ticks) => ticks <= MOST_TICKS,
        _ => true,
    }
}

/// What a line says by itself, or its first fault: 12 for its letters; else 13, 14 or 15, the smallest that it has.
pub fn form_said(line: Line) -> Result<Said, FormsFault>
    ensures { reported forms_report result ≡ form_judged (line_of line.entry) }
{
    letters(line)?;
    let form = line.part;
    if !line.ended || !is_form(form.bytes) {
        return Err(FormsFault::NotAForm(form.position));
    }
    let said = said_in(form).ok_or(FormsFault::WrongItems(form.position))?;
    if is_remark(form.bytes) || numbers_fit(form.bytes) && end_fits(said) {
        Ok(said)
    } else {
        Err(FormsFault::TooLarge(form.position))
    }
}
