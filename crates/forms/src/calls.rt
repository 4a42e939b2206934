// The calls of an at-line.
ghost use Rattle.std.specs.Prelude.{◌≡◌};
ghost use Rattle.forms.specs.Items.{items_left};
ghost use Rattle.forms.specs.Sayings.{all_calls, call, some_calls, worded_call};

use crate::items::Items;
use crate::lines::Part;
use crate::numbers::numbers;
use crate::shapes::in_brackets;
use model::{Call, Errand};

// The call of a word, if the word is known and the items behind it are the numbers that it wants.
fn worded_call(word: &[u8], items: Items) -> Option<Call>
    ensures { result ≡ worded_call word.now (items_left items.entry) }
{
    match word {
        b"release" => {
            let [row] = numbers::<1>(items)?;
            Some(Call::Release(row))
        }
        b"done" => {
            let [row] = numbers::<1>(items)?;
            Some(Call::Done(row))
        }
        b"request" => {
            let [number, units, worth] = numbers::<3>(items)?;
            Some(Call::Request(Errand {
                number,
                units,
                worth,
            }))
        }
        b"withdraw" => {
            let [number] = numbers::<1>(items)?;
            Some(Call::Withdraw(number))
        }
        _ => None,
    }
}

/// The call that an item is, if it is one: `(release ROW)`, `(done ROW)`, `(request NUMBER UNITS WORTH)` or `(withdraw NUMBER)`.
// A word and numbers between two brackets are always a form, so the brackets are the only test of the form that is needed.
#[tactic(auto, using(crate::proofs::Called::call_by_brackets))]
pub fn call(item: Part) -> Option<Call>
    ensures { result ≡ call item.entry.bytes.now }
{
    if !in_brackets(item.bytes) {
        return None;
    }
    let mut items = Items::new(item);
    let word = items.next()?;
    worded_call(word.bytes, items)
}

// Every item is a call.
fn all_calls(mut items: Items) -> bool
    ensures { result ≡ all_calls (items_left items.entry) }
{
    items.all(|item| call(item).is_some())
}

// The items are one call or more, and nothing else.
pub fn some_calls(mut items: Items) -> bool
    ensures { result ≡ some_calls (items_left items.entry) }
{
    items.next().is_some_and(|first| call(first).is_some()) && all_calls(items)
}
