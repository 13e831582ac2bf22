// Calls one after the other on one table. Each works a function out, and answers its entry.
ghost use Rattle.std.specs.Prelude.{◌≡◌};
ghost use Rattle.nodes.specs.Formula.{◌∧'◌, ◌∨'◌, ¬'◌, fix, some};
ghost use Rattle.nodes.specs.internal.Lent.{entering, leaving, entry_of};
ghost use Rattle.nodes.specs.internal.Work.{Applies, Joins, Maps, Follows, Chooses};

use super::apply::Operation;
use super::levels::Level;
use super::manager::{Full, Manager};
use super::unique::Node;

impl<'packed, 'high, 'work> Manager<'packed, 'high, 'work> {
    // An operation. Where it cannot be made, nothing is done, and the answer is f.
    fn apply(&mut self, op: Operation, f: u32, g: u32) -> Result<u32, Full>
        ensures { Applies (entering self.old) (leaving self.new result) op f g (entry_of result) }
    {
        if !self.are_used(f, g) {
            return Ok(f);
        }
        self.operate(op, f, g)
    }

    // The entry of the conjunction of what f and g stand for.
    pub fn and(&mut self, f: u32, g: u32) -> Result<u32, Full>
        ensures { Joins (entering self.old) (leaving self.new result) ◌∧'◌ f g (entry_of result) }
    {
        self.apply(Operation::And, f, g)
    }

    // The entry of the disjunction.
    pub fn or(&mut self, f: u32, g: u32) -> Result<u32, Full>
        ensures { Joins (entering self.old) (leaving self.new result) ◌∨'◌ f g (entry_of result) }
    {
        self.apply(Operation::Or, f, g)
    }

    // The entry of the negation.
    pub fn not(&mut self, f: u32) -> Result<u32, Full>
        ensures { Maps (entering self.old) (leaving self.new result) ¬'◌ f (entry_of result) }
    {
        self.apply(Operation::Not, f, 0)
    }

    // The entry of f without g: f and not g.
    pub fn without(&mut self, f: u32, g: u32) -> Result<u32, Full>
        ensures { Follows (entering self.old) (leaving self.new result) (λ φ ψ. φ ∧' ¬' ψ) f g (entry_of result) }
    {
        let n = self.not(g)?;
        self.and(f, n)
    }

    // The entry of f with level v fixed to b.
    pub fn fix(&mut self, f: u32, v: Level, b: bool) -> Result<u32, Full>
        ensures { Maps (entering self.old) (leaving self.new result) (fix v.v b) f (entry_of result) }
    {
        self.apply(Operation::Fix(v, b), f, 0)
    }

    // The entry of ∃v f: f with v = 0, or f with v = 1.
    pub fn exists(&mut self, f: u32, v: Level) -> Result<u32, Full>
        ensures { Maps (entering self.old) (leaving self.new result) (some v.v) f (entry_of result) }
    {
        if !self.are_used(f, f) {
            return Ok(f);
        }
        let r = self.quantify(v, f)?;
        Ok(r.any)
    }

    // The node of level v over low and high, which stand for functions of higher levels. Where there can be none, the answer is low.
    pub fn node(&mut self, v: Level, low: u32, high: u32) -> Result<u32, Full>
        ensures { Chooses (entering self.old) (leaving self.new result) v.v low high (entry_of result) }
    {
        if !self.are_used(low, high) {
            return Ok(low);
        }
        if self.level(low).min(self.level(high)) <= v.v {
            return Ok(low);
        }
        let level = v.v;
        self.make(Node { level, low, high })
    }
}
