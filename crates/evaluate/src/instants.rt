// The operators over lines.
ghost use Rattle.std.specs.Prelude.{◌≡◌, ◌+◌, ◌-◌, ◌%◌, ◌<◌, ◌≤◌, true, false, Decides};
ghost use Rattle.mtl.specs.Formula.{Within, Throughout, Until, Release, Since, Trigger, Lately, Steadily};
ghost use Rattle.mtl.specs.Runs.{Back, Closed};
ghost use Rattle.evaluate.specs.Bits.{At, Round};
ghost use Rattle.evaluate.specs.Lines.{line};

use crate::lasso::Lasso;
use crate::lines::Lines;

impl Lines<'_> {
    // Whether row a has the truth `sense` at an instant from i to i + t of the endless run.
    pub fn met_ahead(&self, a: u8, i: usize, t: usize, sense: bool) -> bool
        requires { (a < self.now.count) × (i ≤ self.now.lasso.bound) × (t < 32) }
        ensures { Decides result (Within (Round self.now.lasso.bound self.now.lasso.start sense (line self.now.lasso.bound self.now.bytes.now a)) t i) }
    {
        (i..i + t + 1).any(|j| self.round(a, j) == sense)
    }

    // Whether row a is true at every instant from i to i + t of the endless run.
    pub(crate) fn kept_ahead(&self, a: u8, i: usize, t: usize) -> bool
        requires { (a < self.now.count) × (i ≤ self.now.lasso.bound) × (t < 32) }
        ensures { Decides result (Throughout (Round self.now.lasso.bound self.now.lasso.start true (line self.now.lasso.bound self.now.bytes.now a)) t i) }
    {
        (i..i + t + 1).all(|j| self.round(a, j))
    }

    // Whether row a is true at an instant from max(0, i - t) to i.
    pub(crate) fn met_back(&self, a: u8, i: usize, t: usize) -> bool
        requires { (a < self.now.count) × (i ≤ self.now.lasso.bound) }
        ensures { Decides result (Lately (At true (line self.now.lasso.bound self.now.bytes.now a)) t i) }
    {
        (i.saturating_sub(t)..i + 1).any(|j| self.bit(a, j))
    }

    // Whether row a is true at every instant from max(0, i - t) to i.
    pub(crate) fn kept_back(&self, a: u8, i: usize, t: usize) -> bool
        requires { (a < self.now.count) × (i ≤ self.now.lasso.bound) }
        ensures { Decides result (Steadily (At true (line self.now.lasso.bound self.now.bytes.now a)) t i) }
    {
        (i.saturating_sub(t)..i + 1).all(|j| self.bit(a, j))
    }

    // Whether b has the truth `sense` at some instant from i of the endless run on, and a from i to the one before it.
    // `since` walks the other way and does not go round: one function for both would take the walk and both tests as closures, and be
    // no plainer.
    pub(crate) fn until(&self, a: u8, b: u8, i: usize, sense: bool) -> bool
        requires { (a < self.now.count) × (b < self.now.count) × (i ≤ self.now.lasso.bound) }
        ensures { Decides result (Until (Round self.now.lasso.bound self.now.lasso.start sense (line self.now.lasso.bound self.now.bytes.now a)) (Round self.now.lasso.bound self.now.lasso.start sense (line self.now.lasso.bound self.now.bytes.now b)) i) }
    {
        for j in i..i + self.lasso.instants() {
            if self.round(b, j) == sense {
                return true;
            }
            if self.round(a, j) != sense {
                return false;
            }
        }
        false
    }

    // Whether b has the truth `sense` at some instant up to i, and a from the one after it to i.
    pub(crate) fn since(&self, a: u8, b: u8, i: usize, sense: bool) -> bool
        requires { (a < self.now.count) × (b < self.now.count) × (i ≤ self.now.lasso.bound) }
        ensures { Decides result (Since (At sense (line self.now.lasso.bound self.now.bytes.now a)) (At sense (line self.now.lasso.bound self.now.bytes.now b)) i) }
    {
        for j in (0..i + 1).rev() {
            if self.bit(b, j) == sense {
                return true;
            }
            if self.bit(a, j) != sense {
                return false;
            }
        }
        false
    }

    // Whether at every instant j from i of the endless run on b is true, or a somewhere from i to j - 1.
    pub(crate) fn release(&self, a: u8, b: u8, i: usize) -> bool
        requires { (a < self.now.count) × (b < self.now.count) × (i ≤ self.now.lasso.bound) }
        ensures { Decides result (Release (Round self.now.lasso.bound self.now.lasso.start true (line self.now.lasso.bound self.now.bytes.now a)) (Round self.now.lasso.bound self.now.lasso.start true (line self.now.lasso.bound self.now.bytes.now b)) i) }
    {
        !self.until(a, b, i, false)
    }

    // Whether at every instant j up to i b is true, or a somewhere after j up to i.
    pub(crate) fn trigger(&self, a: u8, b: u8, i: usize) -> bool
        requires { (a < self.now.count) × (b < self.now.count) × (i ≤ self.now.lasso.bound) }
        ensures { Decides result (Trigger (At true (line self.now.lasso.bound self.now.bytes.now a)) (At true (line self.now.lasso.bound self.now.bytes.now b)) i) }
    {
        !self.since(a, b, i, false)
    }

    // The truth of row a j instants before i, or v before 0.
    pub(crate) fn before(&self, a: u8, i: usize, j: usize, v: bool) -> bool
        requires { (a < self.now.count) × (i ≤ self.now.lasso.bound) }
        ensures { Decides result (Back (At true (line self.now.lasso.bound self.now.bytes.now a)) v i j) }
    {
        if j <= i { self.bit(a, i - j) } else { v }
    }

    // Whether the loop closes on row a, back to t instants before it, with v before 0.
    pub(crate) fn closes(&self, a: u8, t: usize, v: bool) -> bool
        requires { (a < self.now.count) × (t < 32) }
        ensures { Decides result (Closed self.now.lasso.bound self.now.lasso.start t v (At true (line self.now.lasso.bound self.now.bytes.now a))) }
    {
        let Lasso { bound, start } = self.lasso;
        let period = self.lasso.period();
        (1..t + 1).all(|j| self.before(a, start, j, v) == self.bit(a, bound - (j - 1) % period))
    }
}
