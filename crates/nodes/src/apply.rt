// ∧, ∨, ¬ and fixing a level by one recursion over the entries of the operands.
ghost use Rattle.std.specs.Prelude.{◌≡◌, false, true, ◌≤◌, ◌<◌};
ghost use Rattle.nodes.specs.Fun.{negated};
ghost use Rattle.nodes.specs.internal.Operate.{operation, number_of, turns_of, key_of, junction, SettlesBy, Settles, Cofactor, Meant};
ghost use Rattle.nodes.specs.Table.{level_of, den};
ghost use Rattle.nodes.specs.internal.Make.{Makeable, node_fun};
ghost use Rattle.nodes.specs.internal.Lent.{table_of, entering, leaving};
ghost use Rattle.nodes.specs.internal.Work.{Operating};

use super::computed::{Key, Slot, remember};
use super::levels::Level;
use super::limits::MAX_LENGTH;
use super::manager::{Full, Manager};
use super::unique::Node;

// An operation on entries. ¬ and fixing a level to a bit look at the first operand alone.
#[derive(Clone, Copy)]
pub enum Operation {
    And,
    Or,
    Not,
    Fix(Level, bool),
}

impl Operation {
    // Its number in the memory of results.
    fn number(self) -> u32
        ensures { result ≡ number_of self }
    {
        match self {
            Operation::And => 0,
            Operation::Or => 1,
            Operation::Not => 2,
            Operation::Fix(v, b) => 3 + 2 * (v.v as u32) + (b as u32),
        }
    }

    // The key of its result: ∧ and ∨ have their operands by their numbers, the smaller one first.
    fn key(self, f: u32, g: u32) -> Key
        ensures { result ≡ key_of (number_of self) f g }
    {
        let (left, right) = match self {
            Operation::And | Operation::Or => (f.min(g), f.max(g)),
            Operation::Not | Operation::Fix(_, _) => (f, g),
        };
        Key {
            number: self.number(),
            left,
            right,
        }
    }
}

// ∧, which false decides, or ∨, which true decides. The other constant leaves the other operand.
// Five tests: with those joined by || that give one answer, a load of ∧, ∨, ∃ and fixing took 5 percent more time (DECISIONS 30).
fn settle_junction(f: u32, g: u32, decisive: bool) -> Option<u32>
    ensures { SettlesBy (junction decisive) f g result }
{
    let decides = decisive as u32;
    let leaves = 1 - decides;
    if f == decides {
        return Some(f);
    }
    if g == decides {
        return Some(g);
    }
    if f == leaves {
        return Some(g);
    }
    if g == leaves {
        return Some(f);
    }
    if f == g {
        return Some(f);
    }
    None
}

fn settle_not(f: u32) -> Option<u32>
    ensures { SettlesBy (λ x y. negated x) f f result }
{
    if f < 2 {
        return Some(1 - f);
    }
    None
}

// An entry with a level fixed to 0, and with it fixed to 1.
#[derive(Clone, Copy)]
pub struct Cofactors {
    pub low: u32,
    pub high: u32,
}

impl<'packed, 'high, 'work> Manager<'packed, 'high, 'work> {
    // The level of an entry in use.
    pub(crate) fn level(&self, f: u32) -> u8
        requires { f < self.now.used }
        ensures { result ≡ level_of (table_of self.now) f }
    {
        (self.packed[f as usize] / MAX_LENGTH) as u8
    }

    // f with level v, at most its own, fixed to each bit.
    pub(crate) fn cofactors(&self, v: Level, f: u32) -> Cofactors
        requires { (f < self.now.used) × (v.v ≤ level_of (table_of self.now) f) }
        ensures low { Cofactor (table_of self.now) f v.v false result.low }
        ensures high { Cofactor (table_of self.now) f v.v true result.high }
    {
        let at = f as usize;
        let word = self.packed[at];
        if word / MAX_LENGTH == v.v as u32 {
            Cofactors {
                low: word % MAX_LENGTH,
                high: self.high[at],
            }
        } else {
            Cofactors { low: f, high: f }
        }
    }

    // f with level v fixed to b, where v is at most f's own.
    fn settle_fix(&self, v: Level, b: bool, f: u32) -> Option<u32>
        requires { f < self.now.used }
        ensures { Settles (table_of self.now) (Operation.Fix v b) f f result }
    {
        if self.level(f) < v.v {
            return None;
        }
        let c = self.cofactors(v, f);
        if b {
            return Some(c.high);
        }
        Some(c.low)
    }

    // The answer where it is an entry at hand.
    fn settle(&self, op: Operation, f: u32, g: u32) -> Option<u32>
        requires { (f < self.now.used) × (g < self.now.used) }
        ensures { Settles (table_of self.now) op f g result }
    {
        match op {
            Operation::And => settle_junction(f, g, false),
            Operation::Or => settle_junction(f, g, true),
            Operation::Not => settle_not(f),
            Operation::Fix(v, b) => self.settle_fix(v, b, f),
        }
    }

    // Makes a node, and remembers it in slot s as a key's result.
    fn finish(&mut self, node: Node, s: usize, key: Key) -> Result<u32, Full>
        requires makeable { Makeable (table_of self.old) node.level node.low node.high }
        requires meant { Meant (table_of self.old) key (node_fun (table_of self.old) node.level node.low node.high) }
        ensures { Operating (entering self.old) (leaving self.new result) (node_fun (table_of self.old) node.level node.low node.high) result }
    {
        let i = self.make(node)?;
        let slot = Slot {
            number: key.number,
            first: key.left,
            second: key.right,
            third: i,
        };
        remember(self.work, s, slot);
        Ok(i)
    }

    // The entry of the result of an operation on what f and g stand for.
    pub fn operate(&mut self, op: Operation, f: u32, g: u32) -> Result<u32, Full>
        requires { (f < self.old.used) × (g < self.old.used) }
        ensures { Operating (entering self.old) (leaving self.new result) (operation op (den (table_of self.old) f) (den (table_of self.old) g)) result }
    {
        if let Some(k) = self.settle(op, f, g) {
            return Ok(k);
        }
        let key = op.key(f, g);
        let s = self.slot_for(key.number, key.left, key.right);
        if let Some(k) = self.recall(s, key) {
            return Ok(k);
        }
        let level = self.level(f).min(self.level(g));
        let v = Level { v: level };
        let x = self.cofactors(v, f);
        let y = self.cofactors(v, g);
        let low = self.operate(op, x.low, y.low)?;
        let high = self.operate(op, x.high, y.high)?;
        self.finish(Node { level, low, high }, s, key)
    }
}
