// A job over any sink: begin, define and require.
ghost use Rattle.std.specs.Prelude.{◌≡◌, ◌<◌, ◌≤◌, true, false, length};
ghost use Rattle.cnf.specs.Questions.{first_no};
ghost use Rattle.mtl.specs.Tables.{fits_after};
ghost use Rattle.mtl.specs.Rows.{distance};
ghost use Rattle.mtl.specs.Lists.{begin, added};
ghost use Rattle.job.specs.Calls.{fresh, highest, limits, define_list};
ghost use Rattle.job.specs.Feeding.{Fits, TakenAll};
ghost use Rattle.job.specs.States.{state_of, Placed};
ghost use Rattle.job.specs.Steps.{known, Step, Adding, Keeping, Beginning};

use crate::call::{Call, Reply};
use crate::cost::Cost;
use crate::handing::{hand_begin, hand_row, hand_unit};
use crate::refusal::Refusal;
use crate::state::Setup;
use calls::records::{Define, Require};
use cnf::sink::Sink;
use mtl::requirement::Requirement;
use mtl::row::Row;

#[derive(Drop)]
pub struct Job<S> {
    pub(crate) sink: S,
    pub(crate) setup: Setup,
}

// The last three questions, of a list of this cost and of the job's highest variable.
fn ask_limits<S: Sink>(sink: &S, cost: Cost, highest: u32) -> Result<(), Refusal>
    ensures { result ≡ first_no (limits (S.Sink.model.longest sink.now) (S.Sink.model.highest sink.now) (S.Sink.model.cells sink.now) cost.longest highest cost.cells) tt }
{
    if cost.longest as usize > sink.longest_clause() {
        return Err(Refusal::Long);
    }
    if highest > sink.highest_variable() {
        return Err(Refusal::Variables);
    }
    if cost.cells as usize > sink.free_cells() {
        return Err(Refusal::Cells);
    }
    Ok(())
}

impl<S: Sink> Job<S> {
    // A job that is not begun, over the sink as it is.
    pub fn new(sink: S) -> Job<S>
        ensures sink { result.sink ≡ sink }
        ensures fresh { known result ≡ fresh }
    {
        Job {
            sink,
            setup: Setup::new(),
        }
    }

    pub fn sink(&self) -> &S
        ensures { result.now ≡ self.now.sink }
    {
        &self.sink
    }

    // What the job knows besides its sink.
    pub fn setup(&self) -> &Setup
        ensures { result.now ≡ self.now.setup }
    {
        &self.setup
    }

    // Gives back the sink.
    pub fn into_sink(self) -> S
        ensures { result ≡ self.sink }
    {
        let Job { sink, setup: _ } = self;
        sink
    }

    // The job's highest variable, 0 before begin.
    pub fn highest_variable(&self) -> u32
        ensures { result ≡ highest (known self.now) }
    {
        self.setup.highest()
    }

    // The last questions of a begin, then its clauses.
    fn start(&mut self, k: u8) -> Result<Reply, Refusal>
        requires { k ≤ 31 }
        ensures { Beginning S.Sink.model self.old k result self.new }
    {
        let cost = Cost::of_begin(k);
        ask_limits(&self.sink, cost, self.setup.highest_at(k))?;
        hand_begin(&mut self.sink, k);
        self.setup.open(k);
        Ok(Reply::Done)
    }

    // The last questions of a row, then its clauses and the row itself.
    fn add_row(&mut self, row: Row) -> Result<Reply, Refusal>
        requires begun { (known self.old).begun ≡ true }
        requires room { length (known self.old).rows < 32 }
        requires fit { fits_after (known self.old).rows row ≡ true }
        ensures { Adding S.Sink.model self.old row result self.new }
    {
        let number = self.setup.rows();
        let place = self.setup.place(row);
        let cost = self.setup.cost_of(row);
        ask_limits(&self.sink, cost, self.setup.highest_with(row))?;
        hand_row(&mut self.sink, place, row);
        self.setup.add(row);
        Ok(Reply::Row(number))
    }

    // The last questions of a requirement, then its clause and the requirement itself.
    fn keep(&mut self, requirement: Requirement) -> Result<Reply, Refusal>
        requires begun { (known self.old).begun ≡ true }
        requires there { requirement.row < length (known self.old).rows }
        requires inside { requirement.instant ≤ (known self.old).bound }
        requires room { length (known self.old).kept < 64 }
        ensures { Keeping S.Sink.model self.old requirement result self.new }
    {
        let literal = self.setup.literal(requirement);
        let cost = Cost::of_unit();
        ask_limits(&self.sink, cost, self.setup.highest())?;
        hand_unit(&mut self.sink, literal);
        self.setup.keep(requirement);
        Ok(Reply::Done)
    }

    // Begins the job with a bound.
    pub fn begin(&mut self, k: u8) -> Result<Reply, Refusal>
        ensures { Step S.Sink.model self.old (Call.Begin (record { bound = k })) result self.new }
    {
        self.setup.ask_begin(k)?;
        self.start(k)
    }

    // Adds a row, and answers its number. A caller has the four bytes; `perform` takes the record.
    pub fn define(&mut self, code: u8, a: u8, b: u8, t: u8) -> Result<Reply, Refusal>
        ensures { Step S.Sink.model self.old (Call.Define (record { code = code; a = a; b = b; t = t })) result self.new }
    {
        let row = self.setup.ask_define(Define { code, a, b, t })?;
        self.add_row(row)
    }

    // Requires that a row has a value at an instant.
    pub fn require(&mut self, row: u8, instant: u8, value: u8) -> Result<Reply, Refusal>
        ensures { Step S.Sink.model self.old (Call.Require (record { row = row; instant = instant; value = value })) result self.new }
    {
        let requirement = self.setup.ask_require(Require {
            row,
            instant,
            value,
        })?;
        self.keep(requirement)
    }

    pub fn perform(&mut self, call: Call) -> Result<Reply, Refusal>
        ensures { Step S.Sink.model self.old call result self.new }
    {
        match call {
            Call::Begin(x) => self.begin(x.bound),
            Call::Define(x) => self.define(x.code, x.a, x.b, x.t),
            Call::Require(x) => self.require(x.row, x.instant, x.value),
        }
    }
}
