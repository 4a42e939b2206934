// The six calls, made one by one: how a program that is not a sheet drives the dispatcher. A setting moves into the
// running dispatcher, so that nothing can be added after the start and nothing ticks before it.
#![tactic(auto)]

use dispatcher::Dispatcher;
use model::{Duty, Errand, Refusal};
use queue::{FirstCome, Queue, Slot};
use std::io;
use table::Setting;

fn duty(cost: u32, deadline: u32, separation: u32) -> Duty {
    Duty {
        cost,
        deadline,
        separation,
    }
}

// Three duties; the first is added last, and the others move down.
fn three() -> Result<Setting, Refusal> {
    let mut setting = Setting::new();
    setting.add(0, duty(2, 6, 6))?;
    setting.add(1, duty(3, 12, 12))?;
    setting.add(0, duty(1, 4, 4))?;
    Ok(setting)
}

// One tick, printed.
fn tick<Q: Queue>(rt: &HostRuntime, dispatcher: &mut Dispatcher<Q>) -> io::Result<()> {
    match dispatcher.tick() {
        Ok((slack, who)) => println!(rt; "slack {slack}, {who}"),
        Err(why) => println!(rt; "refused {}", why.number()),
    }
}

// What a call that may be refused answered, printed.
fn print_answer(rt: &HostRuntime, word: &str, answer: Result<(), Refusal>) -> io::Result<()> {
    match answer {
        Ok(()) => println!(rt; "{word} accepted"),
        Err(why) => println!(rt; "{word} refused {}", why.number()),
    }
}

fn request<Q: Queue>(
    rt: &HostRuntime,
    dispatcher: &mut Dispatcher<Q>,
    number: u32,
    units: u32,
) -> io::Result<()> {
    let errand = Errand {
        number,
        units,
        worth: 0,
    };
    match dispatcher.request(errand) {
        Ok(()) => println!(rt; "request {number} accepted"),
        Err(why) => println!(rt; "request {number} refused {}", why.number()),
    }
}

fn withdraw<Q: Queue>(
    rt: &HostRuntime,
    dispatcher: &mut Dispatcher<Q>,
    number: u32,
) -> io::Result<()> {
    match dispatcher.withdraw(number) {
        Ok(units) => println!(rt; "withdraw {number} had {units}"),
        Err(why) => println!(rt; "withdraw {number} refused {}", why.number()),
    }
}

// Adds a duty, and prints what refused it, and for 4 the row.
fn add(rt: &HostRuntime, setting: &mut Setting, place: u32, duty: Duty) -> io::Result<()> {
    match setting.add(place, duty) {
        Ok(()) => println!(rt; "add at {place} accepted"),
        Err(Refusal::Unschedulable(row)) => println!(rt; "add at {place} refused 4, row {row}"),
        Err(why) => println!(rt; "add at {place} refused {}", why.number()),
    }
}

fn response(rt: &HostRuntime, setting: &Setting, row: u32) -> io::Result<()> {
    match setting.response(row) {
        Ok(ticks) => println!(rt; "response {row} is {ticks}"),
        Err(why) => println!(rt; "response {row} refused {}", why.number()),
    }
}

// The refusals of add, and that of response. A refused addition leaves the table as it is.
fn additions(rt: &HostRuntime) -> io::Result<()> {
    let mut setting = Setting::new();
    response(rt, &setting, 0)?;
    // 1 and 2; 2; none; 4; 1 and 4; 2 and 4.
    add(rt, &mut setting, 1, duty(0, 4, 4))?;
    add(rt, &mut setting, 0, duty(0, 4, 4))?;
    add(rt, &mut setting, 0, duty(1, 64, 64))?;
    add(rt, &mut setting, 0, duty(64, 64, 64))?;
    add(rt, &mut setting, 2, duty(64, 64, 64))?;
    add(rt, &mut setting, 0, duty(64, 64, 63))?;
    for place in 1..16 {
        let _ = setting.add(place, duty(1, 64, 64));
    }
    // With sixteen rows: 3; 3 and 4; 2 and 3; 1 and 3.
    add(rt, &mut setting, 16, duty(1, 64, 64))?;
    add(rt, &mut setting, 0, duty(64, 64, 64))?;
    add(rt, &mut setting, 16, duty(1, 65, 64))?;
    add(rt, &mut setting, 17, duty(1, 64, 64))?;
    response(rt, &setting, 15)?;
    response(rt, &setting, 16)?;
    response(rt, &setting, u32::MAX)
}

fn drive(rt: &HostRuntime, setting: Setting) -> io::Result<()> {
    let mut slots = [Slot::free(); 2];
    let mut dispatcher = Dispatcher::start(setting, FirstCome::new(&mut slots));
    tick(rt, &mut dispatcher)?;
    print_answer(rt, "release 0", dispatcher.release(0))?;
    print_answer(rt, "release 0", dispatcher.release(0))?;
    print_answer(rt, "release 3", dispatcher.release(3))?;
    print_answer(rt, "done 3", dispatcher.done(3))?;
    print_answer(rt, "done 1", dispatcher.done(1))?;
    request(rt, &mut dispatcher, 7, 2)?;
    request(rt, &mut dispatcher, 7, 2)?;
    request(rt, &mut dispatcher, 8, 4096)?;
    request(rt, &mut dispatcher, 9, 1)?;
    request(rt, &mut dispatcher, 8, 1)?;
    request(rt, &mut dispatcher, 8, 0)?;
    withdraw(rt, &mut dispatcher, 9)?;
    withdraw(rt, &mut dispatcher, 8)?;
    println!(rt; "slack {}", dispatcher.slack())?;
    tick(rt, &mut dispatcher)?;
    withdraw(rt, &mut dispatcher, 7)?;
    withdraw(rt, &mut dispatcher, 7)?;
    tick(rt, &mut dispatcher)?;
    tick(rt, &mut dispatcher)
}

fn main(rt: HostRuntime) -> io::Result<()> {
    additions(&rt)?;
    match three() {
        Ok(setting) => {
            for row in 0..4 {
                response(&rt, &setting, row)?;
            }
            drive(&rt, setting)
        }
        Err(_) => println!(rt; "the table was refused"),
    }
}
