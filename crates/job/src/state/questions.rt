// The questions of each call that the job answers itself.
ghost use Rattle.std.specs.Prelude.{◌≡◌, ◌&&◌, length};
ghost use Rattle.mtl.specs.Rows.{operands, signal_of};
ghost use Rattle.mtl.specs.Tables.{all_below};
ghost use Rattle.cnf.specs.Questions.{first_no};
ghost use Rattle.job.specs.Calls.{row_with, unused_zero, low_signal, new_signal, begin_asks, define_asks, require_asks, requirement};
ghost use Rattle.job.specs.States.{state_of};

use crate::refusal::Refusal;
use crate::state::Setup;
use calls::records::{Define, Require};
use mtl::bound::is_bound;
use mtl::operator::Operator;
use mtl::requirement::Requirement;
use mtl::row::Row;
use mtl::table::Table;

// Whether the fields that the operator has no use for are zero.
fn unused_are_zero(operator: Operator, b: u8, t: u8) -> bool
    ensures { result ≡ unused_zero operator b t }
{
    (operator.operands == 2 || b == 0) && (operator.timed || t == 0)
}

// Whether the signal, if any, is at most 31.
fn is_low(signal: Option<u8>) -> bool
    ensures { result ≡ low_signal signal }
{
    signal.is_none_or(|a| a <= Row::HIGHEST_SIGNAL)
}

impl Setup {
    pub(crate) fn ask_begin(&self, k: u8) -> Result<(), Refusal>
        ensures { result ≡ first_no (begin_asks (state_of self.now) k) tt }
    {
        if self.bound.is_some() {
            return Err(Refusal::Begun);
        }
        if !is_bound(k) {
            return Err(Refusal::Bound);
        }
        Ok(())
    }

    // Whether the operands are earlier rows, or the signal is at most 31.
    fn operands_are_there(&self, row: Row) -> bool
        ensures { result ≡ (all_below (length (state_of self.now).rows) (operands row) && low_signal (signal_of row)) }
    {
        self.table.has_operands(row) && is_low(row.signal())
    }

    fn signal_is_new(&self, signal: Option<u8>) -> bool
        ensures { result ≡ new_signal (state_of self.now).rows signal }
    {
        signal.is_none_or(|a| !self.table.has_signal(a))
    }

    pub(crate) fn ask_define(&self, define: Define) -> Result<Row, Refusal>
        ensures { result ≡ first_no (define_asks (state_of self.now) define) (row_with define) }
    {
        let Define { code, a, b, t } = define;
        if self.bound.is_none() {
            return Err(Refusal::NotBegun);
        }
        if self.table.len() >= Table::MOST_ROWS {
            return Err(Refusal::Full);
        }
        let row = Row::from_fields(code, a, b, t).ok_or(Refusal::Code)?;
        if !unused_are_zero(row.operator(), b, t) {
            return Err(Refusal::Unused);
        }
        if !self.operands_are_there(row) {
            return Err(Refusal::Operand);
        }
        if !self.signal_is_new(row.signal()) {
            return Err(Refusal::Signal);
        }
        if t > Row::HIGHEST_DISTANCE {
            return Err(Refusal::Distance);
        }
        Ok(row)
    }

    pub(crate) fn ask_require(&self, require: Require) -> Result<Requirement, Refusal>
        ensures { result ≡ first_no (require_asks (state_of self.now) require) (requirement require) }
    {
        let Require {
            row,
            instant,
            value,
        } = require;
        let bound = self.bound.ok_or(Refusal::NotBegun)?;
        if row as usize >= self.table.len() {
            return Err(Refusal::NoRow);
        }
        if instant > bound {
            return Err(Refusal::Instant);
        }
        if value > 1 {
            return Err(Refusal::Value);
        }
        if self.kept.is_full() {
            return Err(Refusal::Requirements);
        }
        Ok(Requirement {
            row,
            instant,
            value: value == 1,
        })
    }
}
