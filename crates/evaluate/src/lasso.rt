// The instants of a looping run.
ghost use Rattle.std.specs.Prelude.{◌≡◌, ◌+◌, ◌≤◌};
ghost use Rattle.mtl.specs.Lists.{period};
ghost use Rattle.mtl.specs.Runs.{lasso};

// The instants from 0 to the bound, and then those from the loop start on, again and again.
#[derive(Debug, Clone, Copy, PartialEq, Eq)]
pub struct Lasso {
    pub bound: usize,
    pub start: usize,
    pub ghost inside: { start ≤ bound },
    pub ghost low: { bound ≤ 31 },
}

impl Lasso {
    // How many instants there are: those before the loop, and those in it.
    pub fn instants(self) -> usize
        ensures { result ≡ self.bound + 1 }
    {
        self.start + self.period()
    }

    // How many instants the loop has.
    pub(crate) fn period(self) -> usize
        ensures { result ≡ period self.bound self.start }
    {
        self.bound - self.start + 1
    }

    // The instant from 0 to the bound that instant i of the endless run repeats.
    pub fn place(self, i: usize) -> usize
        ensures value { result ≡ lasso self.bound self.start i }
        ensures bound { result ≤ self.bound }
    {
        if i <= self.bound {
            i
        } else {
            self.start + (i - self.start) % self.period()
        }
    }
}
