// The queues on small cases: what they refuse, and in which order they serve.
#![tactic(auto)]

use model::Errand;
use queue::{Alike, ByWorth, ErrandQueue, FirstCome, Queue, Rule, Slot, WorthForUnits};
use std::io;

fn errand(number: u32, units: u32, worth: u32) -> Errand {
    Errand {
        number,
        units,
        worth,
    }
}

// Puts the errands one by one, and prints the number of what refused each, 0 where nothing did.
fn put_all<Q: Queue>(rt: &HostRuntime, queue: &mut Q, errands: &[Errand]) -> io::Result<()> {
    print!(rt; "put")?;
    for errand in errands {
        let number = queue.put(*errand).err().map(|why| why.number());
        print!(rt; " {}", number.unwrap_or(0))?;
    }
    println!(rt; "")
}

// Takes a number, and prints the units that it had left, or what refused it.
fn take_one<Q: Queue>(rt: &HostRuntime, queue: &mut Q, number: u32) -> io::Result<()> {
    match queue.take(number) {
        Ok(units) => println!(rt; "take {number} had {units}"),
        Err(why) => println!(rt; "take {number} refused {}", why.number()),
    }
}

// Spends at most so many units, and prints the numbers that had them, then the one that is named next.
fn serve<Q: Queue>(rt: &HostRuntime, queue: &mut Q, most: u32) -> io::Result<()> {
    print!(rt; "serve")?;
    for _ in 0..most {
        if let Some(number) = queue.spend() {
            print!(rt; " {number}")?;
        }
    }
    match queue.name() {
        Some(number) => println!(rt; ", next {number}"),
        None => println!(rt; ", nothing waits"),
    }
}

// 6 for 2 units goes before 3 for 3 by worth.
fn rated<Q: Queue + Drop>(rt: &HostRuntime, mut queue: Q) -> io::Result<()> {
    put_all(rt, &mut queue, &[errand(1, 3, 3), errand(2, 2, 6)])?;
    serve(rt, &mut queue, 6)
}

// Of equals the first put is first. What is spent on an errand does not change its rating.
fn tied<Q: Queue + Drop>(rt: &HostRuntime, mut queue: Q) -> io::Result<()> {
    put_all(rt, &mut queue, &[errand(1, 2, 2), errand(2, 1, 1)])?;
    serve(rt, &mut queue, 1)?;
    put_all(rt, &mut queue, &[errand(3, 4, 4), errand(4, 1, 2)])?;
    serve(rt, &mut queue, 9)
}

// The middle one leaves; a number that does not wait is refused.
fn taken<Q: Queue + Drop>(rt: &HostRuntime, mut queue: Q) -> io::Result<()> {
    put_all(
        rt,
        &mut queue,
        &[errand(1, 1, 9), errand(2, 3, 9), errand(3, 4, 9)],
    )?;
    take_one(rt, &mut queue, 2)?;
    take_one(rt, &mut queue, 2)?;
    serve(rt, &mut queue, 6)
}

// The refusals of put, each alone and where several fit, and that of take. What is said below is of a queue with room for two. One with
// room for none answers 10 wherever it does not answer 8.
fn refused<Q: Queue + Drop>(rt: &HostRuntime, mut queue: Q) -> io::Result<()> {
    // Limits: 8; then within them.
    put_all(
        rt,
        &mut queue,
        &[
            errand(1, 0, 0),
            errand(1, 4097, 0),
            errand(1, 1, 65536),
            errand(1, 4096, 65535),
        ],
    )?;
    // 8 and 9; 9; a second errand; 10.
    put_all(
        rt,
        &mut queue,
        &[
            errand(1, 4_294_967_295, 0),
            errand(1, 1, 1),
            errand(2, 1, 1),
            errand(3, 1, 1),
        ],
    )?;
    // With no room left: 8 and 10; 9 and 10; 8, 9 and 10; 10.
    put_all(
        rt,
        &mut queue,
        &[
            errand(3, 1, 65536),
            errand(2, 1, 1),
            errand(2, 0, 1),
            errand(3, 1, 1),
        ],
    )?;
    take_one(rt, &mut queue, 3)?;
    serve(rt, &mut queue, 2)?;
    take_one(rt, &mut queue, 1)?;
    take_one(rt, &mut queue, 1)?;
    take_one(rt, &mut queue, 2)
}

// For how many of 1,030 errands there is room.
fn filled<Q: Queue + Drop>(rt: &HostRuntime, mut queue: Q) -> io::Result<()> {
    let mut places = 0u32;
    for number in 0..1030 {
        if queue.put(errand(number, 1, 1)).is_ok() {
            places = places.saturating_add(1);
        }
    }
    println!(rt; "places {places}")
}

// In which order a queue of a rule serves.
fn served<R: Rule>(rt: &HostRuntime, rule: &str) -> io::Result<()> {
    let mut slots = [Slot::free(); 8];
    println!(rt; "{rule}")?;
    rated(rt, ErrandQueue::<R>::new(&mut slots))?;
    tied(rt, ErrandQueue::<R>::new(&mut slots))?;
    taken(rt, ErrandQueue::<R>::new(&mut slots))
}

fn full(rt: &HostRuntime) -> io::Result<()> {
    let mut few = [Slot::free(); 2];
    refused(rt, FirstCome::new(&mut few))?;
    refused(rt, ByWorth::new(&mut few))?;
    filled(rt, ByWorth::new(&mut few))?;
    refused(rt, ByWorth::new(&mut few[0..0]))?;
    let mut many = [Slot::free(); 1025];
    filled(rt, FirstCome::new(&mut many))
}

fn main(rt: HostRuntime) -> io::Result<()> {
    served::<Alike>(&rt, "first come")?;
    served::<WorthForUnits>(&rt, "by worth")?;
    full(&rt)
}
