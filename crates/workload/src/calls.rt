// What calls do to a row.
ghost use Rattle.std.specs.Prelude.{◌≡◌};
ghost use Rattle.model.specs.Machine.{released, row_refusal};
ghost use Rattle.model.specs.Refusals.{refusal};
ghost use Rattle.workload.specs.Slots.{row_called};

use model::{Duty, Refusal, Row, RowCall};

// A row as its release leaves it.
fn released(duty: Duty, clock: u32) -> Row
    ensures { result ≡ released duty clock }
{
    let clock = u64::from(clock);
    Row::Ready {
        left: duty.cost,
        due: clock + u64::from(duty.deadline),
        earliest: clock + u64::from(duty.separation),
    }
}

// Applies a call to a row. What it does goes by the row's state and the call together.
pub(crate) fn apply(row: &mut Row, call: RowCall, duty: Duty, clock: u32) -> Result<(), Refusal>
    ensures answers { refusal result ≡ row_refusal clock row.old call }
    ensures leaves { row.new ≡ row_called duty clock row.old call }
{
    let now = u64::from(clock);
    *row = match (*row, call) {
        (Row::Idle { earliest } | Row::Ready { earliest, .. }, RowCall::Release)
            if now < earliest => {
            return Err(Refusal::TooSoon);
        }
        (_, RowCall::Release) => released(duty, clock),
        (Row::Idle { .. }, RowCall::Done) => return Err(Refusal::RowIdle),
        (
            Row::Ready {
                left,
                due,
                earliest,
            },
            RowCall::Tick,
        ) if left > 1 => Row::Ready {
            left: left - 1,
            due,
            earliest,
        },
        (Row::Ready { earliest, .. }, RowCall::Done | RowCall::Tick) => Row::Idle { earliest },
        (idle, RowCall::Tick) => idle,
    };
    Ok(())
}
