ghost use Rattle.std.specs.Prelude.{◌≡◌, true, min, [], length, ◌++◌};
ghost use Rattle.model.specs.Histories.{GoesOn, by_put, by_spend, by_take};
ghost use Rattle.model.specs.Queues.{distinct, Put, Spend, Take};
ghost use Rattle.list.specs.Held.{held, free_slots, capacity};
ghost use Rattle.queue.specs.Arrivals.{best_rated};
ghost use Rattle.queue.specs.Lists.{errands, list_meaning, list_sound, first_number, free_after, place_of};
ghost use Rattle.queue.specs.Orders.{Arises, Arose, list_chooses};
ghost use Rattle.queue.specs.Untouched.{Left};

use super::queues::Queue;
use super::rules::{Alike, Rule, WorthForUnits};
use super::slots::Slot;
use list::OrderedList;
use model::{Errand, Refusal};
use std::marker::PhantomData;

/// A queue that serves first the errand that its rule rates best, and of those rated alike the one put first. It keeps its errands in
/// the slots that it is handed, so that it needs no memory of its own.
#[derive(Drop)]
pub struct ErrandQueue<'a, R: Rule> {
    // The errands that wait, in the order in which they are served.
    list: OrderedList<'a, Slot>,
    // The slots past its capacity. The queue keeps them for its contracts: no call writes one of them.
    beyond: &'a mut [Slot],
    rule: PhantomData<R>,
    // No number waits twice, and every errand is within its limits.
    ghost once: { distinct (errands (held list)) ≡ true },
    /// Some history led to the list.
    pub ghost arose: { Arose R.worth R.units (held list) },
}

/// The queue that serves errands as they come.
pub type FirstCome<'a> = ErrandQueue<'a, Alike>;

/// The queue that serves first the errand with the most worth for the units that it was put with, and of those with as much the one
/// that was put first.
pub type ByWorth<'a> = ErrandQueue<'a, WorthForUnits>;

// A queue has room for at most so many errands.
const MOST_ERRANDS: usize = 1024;

// The place of the errand of a number, if it waits.
fn place_of(slots: &[Slot], number: u32) -> Option<usize>
    ensures { result ≡ place_of number slots.now }
{
    slots.iter().position(|slot| slot.errand().number == number)
}

impl<'a, R: Rule> ErrandQueue<'a, R> {
    /// An empty queue with room for as many errands as there are slots, but for at most 1,024. It leaves the slots as they are, and
    /// no call ever writes one past the first 1,024.
    pub fn new(slots: &'a mut [Slot]) -> ErrandQueue<'a, R>
        ensures empty { held result.list ≡ [] }
        ensures history { Arises R.worth R.units [] (held result.list) }
        ensures size { capacity result.list ≡ min (length slots.old) 1024 }
        ensures slots { result.list.slots.now ++ result.beyond.now ≡ slots.old }
    {
        let most = MOST_ERRANDS.min(slots.len());
        let (own, beyond) = slots.split_at_mut(most);
        ErrandQueue {
            list: OrderedList::new(own),
            beyond,
            rule: PhantomData,
        }
    }
}

impl<'a, R: Rule> Queue for ErrandQueue<'a, R> {
    ghost meaning = { λ q. list_meaning q.list };

    ghost sound = { λ q. list_sound q.list q.once };

    ghost arises = { λ past q. Arises R.worth R.units past (held q.list) };

    ghost choice = { best_rated R.worth R.units };

    ghost chooses = { λ past q arose. list_chooses R.worth R.units past q.list arose };

    // A call that adds nothing to the history leaves the same value. Every call leaves the slots that are free as what it adds says,
    // and each slot past the capacity as it was.
    ghost leaves = { λ q added r.
        (added ≡ [] → r ≡ q)
        × (free_slots r.list ≡ free_after (held q.list) (free_slots q.list) added)
        × (r.beyond ≡ q.beyond) };

    fn put(&mut self, errand: Errand) -> Result<(), Refusal>
        ensures means { Put (list_meaning self.old.list) errand result (list_meaning self.new.list) }
        ensures history { GoesOn (Arises R.worth R.units) (held self.old.list) (by_put errand result) (held self.new.list) }
        ensures leaves { (by_put errand result ≡ [] → self.new ≡ self.old)
            × (free_slots self.new.list ≡ free_after (held self.old.list) (free_slots self.old.list) (by_put errand result))
            × (self.new.beyond ≡ self.old.beyond) }
    {
        let slot = Slot::rated::<R>(errand)?;
        if place_of(self.list.entries(), errand.number).is_some() {
            return Err(Refusal::AlreadyWaiting);
        }
        self.list.insert(slot)
    }

    fn name(&self) -> Option<u32>
        ensures { result ≡ first_number (errands (held self.now.list)) }
    {
        self.list.get(0).map(|slot| slot.errand().number)
    }

    // The errand is dropped with its last unit.
    fn spend(&mut self) -> Option<u32>
        ensures means { Spend (list_meaning self.old.list) result (list_meaning self.new.list) }
        ensures history { GoesOn (Arises R.worth R.units) (held self.old.list) (by_spend result) (held self.new.list) }
        ensures leaves { (by_spend result ≡ [] → self.new ≡ self.old)
            × (free_slots self.new.list ≡ free_after (held self.old.list) (free_slots self.old.list) (by_spend result))
            × (self.new.beyond ≡ self.old.beyond) }
    {
        let slot = *self.list.get(0)?;
        let errand = slot.errand();
        if errand.units <= 1 {
            self.list.remove(0);
        } else {
            self.list.replace(0, slot.with_units(errand.units - 1));
        }
        Some(errand.number)
    }

    fn take(&mut self, number: u32) -> Result<u32, Refusal>
        ensures means { Take (list_meaning self.old.list) number result (list_meaning self.new.list) }
        ensures history { GoesOn (Arises R.worth R.units) (held self.old.list) (by_take number result) (held self.new.list) }
        ensures leaves { (by_take number result ≡ [] → self.new ≡ self.old)
            × (free_slots self.new.list ≡ free_after (held self.old.list) (free_slots self.old.list) (by_take number result))
            × (self.new.beyond ≡ self.old.beyond) }
    {
        let place = place_of(self.list.entries(), number).ok_or(Refusal::NotWaiting)?;
        let units = self.list.entries()[place].errand().units;
        self.list.remove(place);
        Ok(units)
    }
}

/// After any number of calls that add nothing to its history, one after the other, a queue is the same value, with every slot that it
/// was handed.
pub fn left_as_it_was<R: Rule>()
    ensures { (q r : ErrandQueue R R.Rule) → Left (λ q r. ⟦<ErrandQueue<'static, R> as Queue>⟧.leaves q [] r) q r → r ≡ q }
{}
