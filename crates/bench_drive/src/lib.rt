// A workload driven for the benchmark in bench/, which compares its answers and its speed with an independent
// implementation. Nothing but the benchmark uses it.
#![tactic(auto)]

use model::Duty;
use table::Setting;
use workload::Workload;

// A number of two bytes, the lower first.
fn number(low: u8, high: u8) -> u32 {
    u32::from(u16::from_le_bytes([low, high]))
}

// The table whose rows lie in the bytes, six to a row: cost, deadline, separation.
fn table_in(bytes: &[u8]) -> Setting {
    let mut setting = Setting::new();
    for row in bytes.chunks_exact(6) {
        if let [a, b, c, d, e, f] = *row {
            let duty = Duty {
                cost: number(a, b),
                deadline: number(c, d),
                separation: number(e, f),
            };
            let _ = setting.add(setting.duties().len() as u32, duty);
        }
    }
    setting
}

// Releases every row that may be released, and ends its job at once if it is to finish.
fn release_all(work: &mut Workload, rows: u32, finishes: bool) {
    for row in 0..rows {
        if work.release(row).is_ok() && finishes {
            let _ = work.done(row);
        }
    }
}

/// Drives the table for so many ticks, with every job released as soon as it may be, and answers the sum of the slacks before them,
/// which wraps at 2^64. The bytes are the rows, six to a row: cost, deadline and separation, each of two bytes, the lower first. Where
/// `finish` is 1, each job is ended at once; C has it as a number.
#[unsafe(no_mangle)]
pub extern "C" fn bench_drive(bytes: &[u8], ticks: u32, finish: u32) -> u64 {
    let setting = table_in(bytes);
    let rows = setting.duties().len() as u32;
    let mut work = Workload::start(setting);
    let mut sum: u64 = 0;
    for _ in 0..ticks {
        release_all(&mut work, rows, finish == 1);
        if let Ok((slack, _)) = work.tick(false) {
            sum = sum.wrapping_add(u64::from(slack));
        }
    }
    sum
}
