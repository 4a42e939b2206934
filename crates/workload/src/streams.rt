ghost use Rattle.std.specs.Prelude.{◌≡◌, ◌-◌, ◌≤◌};
ghost use Rattle.model.specs.Table.{ceil};

// What one row can ask of the processor from the clock on: `left` ticks at once, and `cost` ticks at `first`
// and every `separation` ticks thereafter. Times count from the clock.
#[derive(Clone, Copy, Default)]
pub(crate) struct Stream {
    pub left: u32,
    pub first: u32,
    pub cost: u32,
    pub separation: u32,
}

impl Stream {
    // How many jobs begin before `ticks`.
    pub fn jobs(self, ticks: u32) -> u32
        requires { 1 ≤ self.separation }
        ensures { result ≡ ceil (ticks - self.first) self.separation }
    {
        if ticks <= self.first {
            return 0;
        }
        // Rounded up, and quicker than `div_ceil`, which tests the remainder.
        1 + (ticks - self.first - 1) / self.separation
    }
}
