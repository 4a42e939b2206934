// Idle ticks of a window, counted by stretches: longest runs of busy or of idle ticks.
ghost use Rattle.std.specs.Prelude.{◌≡◌, ◌≤◌, true, length};
ghost use Rattle.model.specs.Idle.{idle_ticks};
ghost use Rattle.workload.specs.Streams.{all_ask, all_bounded};

use crate::streams::Stream;

// What at most sixteen streams ask for together.
#[derive(Clone, Copy)]
pub(crate) struct Demand<'a> {
    pub streams: &'a [Stream],
    ghost bounded: { all_bounded streams.now ≡ true },
    ghost few: { length streams.now ≤ 16 },
}

// The bound on the ticks is a fact of the argument, and so a condition of each method.
impl Demand<'_> {
    // What the streams ask for within `ticks` ticks.
    fn within(&self, ticks: u32) -> u32
        requires { ticks ≤ 8193 }
        ensures sum { result ≡ all_ask self.now.streams.now ticks }
        ensures bound { result ≤ 1000000000 }
    {
        // A loop, since a closure could not know that the numbers of a stream are small.
        let mut sum = 0;
        for stream in self.streams {
            sum += stream.left + stream.cost * stream.jobs(ticks);
        }
        sum
    }

    // A clock up to which no stream begins another job, from `ticks` on: the first at which one does, or `end`.
    fn quiet_until(&self, ticks: u32, end: u32) -> u32
        requires low { ticks ≤ end }
        requires high { end ≤ 8193 }
        ensures quiet { all_ask self.now.streams.now result ≡ all_ask self.now.streams.now ticks }
        ensures low { ticks ≤ result }
        ensures high { result ≤ end }
    {
        // A loop for the same reason.
        let mut until = end;
        for stream in self.streams {
            until = until.min(stream.first + stream.jobs(ticks) * stream.separation);
        }
        until
    }

    // The idle ticks among the first `end` of a window. A busy stretch goes on for as long as what is asked for up
    // to its end, and the idle ticks before it, fill it; an idle stretch goes on until the next job. Both are left
    // the moment the window's end is reached.
    pub fn idle_ticks(&self, end: u32) -> u32
        requires { end ≤ 8192 }
        ensures { result ≡ idle_ticks (all_ask self.now.streams.now) end }
    {
        let mut at = 0;
        let mut idle = 0;
        'window: loop {
            'busy: loop {
                if at >= end {
                    break 'window;
                }
                let filled = self.within(at + 1) + idle;
                if filled <= at {
                    break 'busy;
                }
                at = filled.min(end);
            }
            let until = self.quiet_until(at + 1, end);
            idle += until - at;
            at = until;
        }
        idle
    }
}
