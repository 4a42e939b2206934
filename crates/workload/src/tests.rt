// The clock at its last value: the invariant of an empty table holds at every clock, so a workload can be made there.
use crate::workloads::Workload;
use model::{Refusal, Row, Who};
use std::test::Fail;
use table::{MOST_ROWS, Setting};

#[test]
fn no_tick_at_the_last_clock(rt: HostRuntime) -> Result<(), Fail> {
    let mut work = Workload {
        setting: Setting::new(),
        rows: [Row::Idle { earliest: 0 }; MOST_ROWS],
        clock: u32::MAX - 1,
    };
    assert!(rt; matches!(work.tick(false), Ok((65535, Some(Who::Nobody)))));
    assert!(rt; matches!(work.tick(false), Err(Refusal::ClockEnded)));
    assert!(rt; matches!(work.tick(true), Err(Refusal::ClockEnded)));
    assert_eq!(rt; work.slack(), 65535);
    Ok(())
}
