// Writes the parts of a line into an area, each behind the one before.
ghost use Rattle.std.specs.Prelude.{[], ◌∷◌, decimal};
ghost use Rattle.std.specs.List.{flat_map};
ghost use Rattle.sinks.specs.Lines.{sign, literal_text, line};
ghost use Rattle.sinks.specs.Pens.{Room, Wrote};

use crate::line::{put, put_number};
use cnf::clause::Literal;

// The next byte comes at the index `at`.
#[derive(Drop)]
pub(crate) struct Pen<'a> {
    pub(crate) area: &'a mut [u8],
    pub(crate) at: usize,
}

impl<'a> Pen<'a> {
    fn byte(&mut self, byte: u8)
        requires { Room (byte ∷ []) self.old }
        ensures { Wrote (byte ∷ []) self.old self.new }
    {
        self.at = put(self.area, self.at, byte);
    }

    fn number(&mut self, number: u32)
        requires { Room (decimal number) self.old }
        ensures { Wrote (decimal number) self.old self.new }
    {
        self.at = put_number(self.area, self.at, number as u64);
    }

    // Writes the minus sign of a negative literal.
    fn sign(&mut self, positive: bool)
        requires { Room (sign positive) self.old }
        ensures { Wrote (sign positive) self.old self.new }
    {
        if !positive {
            self.byte(b'-');
        }
    }

    fn literal(&mut self, literal: Literal)
        requires { Room (literal_text literal) self.old }
        ensures { Wrote (literal_text literal) self.old self.new }
    {
        self.sign(literal.positive);
        self.number(literal.variable);
        self.byte(b' ');
    }

    fn literals(&mut self, clause: &[Literal])
        requires { Room (flat_map literal_text clause.now) self.old }
        ensures { Wrote (flat_map literal_text clause.now) self.old self.new }
    {
        for literal in clause {
            self.literal(*literal);
        }
    }

    // Writes the line of a clause.
    pub(crate) fn line(&mut self, clause: &[Literal])
        requires { Room (line clause.now) self.old }
        ensures { Wrote (line clause.now) self.old self.new }
    {
        self.literals(clause);
        self.byte(b'0');
        self.byte(b'\n');
    }
}
