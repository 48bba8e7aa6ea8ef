// The lines of a work area.
ghost use Rattle.std.specs.Prelude.{◌≡◌, ◌+◌, ◌*◌, ◌<◌, ◌≤◌, length};
ghost use Rattle.evaluate.specs.Lines.{line};
ghost use Rattle.evaluate.specs.Truths.{cell};
ghost use Rattle.mtl.specs.Runs.{lasso as place};

use crate::lasso::Lasso;

// One line for each of the first `count` rows of a table, and in it a byte for each instant, 1 where the row is true.
#[derive(Debug, Clone, Copy)]
pub struct Lines<'a> {
    pub bytes: &'a [u8],
    pub lasso: Lasso,
    pub count: usize,
    pub ghost few: { count ≤ 32 },
    pub ghost room: { count * (lasso.bound + 1) ≤ length bytes.now },
}

impl<'a> Lines<'a> {
    // Line m.
    pub fn of(&self, m: u8) -> &'a [u8]
        requires { m < self.now.count }
        ensures value { result.now ≡ line self.now.lasso.bound self.now.bytes.now m }
        ensures len { length result.now ≡ self.now.lasso.bound + 1 }
    {
        let instants = self.lasso.instants();
        let from = m as usize * instants;
        &self.bytes[from..from + instants]
    }

    // Whether row m is true at instant i.
    pub fn bit(&self, m: u8, i: usize) -> bool
        requires { (m < self.now.count) × (i ≤ self.now.lasso.bound) }
        ensures { result ≡ cell self.now.lasso.bound self.now.bytes.now m i }
    {
        self.of(m)[i] == 1
    }

    // Whether row m is true at instant i of the endless run.
    pub fn round(&self, m: u8, i: usize) -> bool
        requires { m < self.now.count }
        ensures { result ≡ cell self.now.lasso.bound self.now.bytes.now m (place self.now.lasso.bound self.now.lasso.start i) }
    {
        self.bit(m, self.lasso.place(i))
    }
}
