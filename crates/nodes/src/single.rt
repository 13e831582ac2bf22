// Single functions, each with its own nodes alone.
ghost use Rattle.std.specs.Prelude.{◌≡◌, ◌+◌, ◌<◌};
ghost use Rattle.nodes.specs.Fun.{same};
ghost use Rattle.nodes.specs.internal.Single.{guarded, paired, Guards, number_is, number_below, numbers_same};
ghost use Rattle.nodes.specs.internal.Spaced.{Spaced};
ghost use Rattle.nodes.specs.internal.Lent.{entering, leaving, entry_of};
ghost use Rattle.nodes.specs.internal.Work.{Lists};

use super::levels::{Level, Levels};
use super::manager::{Full, Manager};

impl<'packed, 'high, 'work> Manager<'packed, 'high, 'work> {
    // f where level v is b, and false elsewhere.
    fn guard(&mut self, v: Level, b: bool, f: u32) -> Result<u32, Full>
        ensures { Guards (entering self.old) (leaving self.new result) (v.v + 1) (guarded v.v b) f (entry_of result) }
    {
        if b {
            self.node(v, 0, f)
        } else {
            self.node(v, f, 0)
        }
    }

    // f where levels v and w, v the lower one, are equal, and false elsewhere.
    fn pair(&mut self, v: Level, w: Level, f: u32) -> Result<u32, Full>
        requires { v.v < w.v }
        ensures { Guards (entering self.old) (leaving self.new result) (w.v + 1) (paired v.v w.v) f (entry_of result) }
    {
        let low = self.guard(w, false, f)?;
        let high = self.guard(w, true, f)?;
        self.node(v, low, high)
    }

    // The number whose digits stand at the levels is `code`.
    // Kept: the loop is no plainer: `let mut m = (code >> levels.count == 0) as u32; for k in (0..levels.count).rev() { m = self.guard(levels.at(k), digit_at(code as u64, k), m)?; } Ok(m)`.
    pub fn number_is(&mut self, code: u32, levels: Levels) -> Result<u32, Full>
        ensures { Lists (entering self.old) (leaving self.new result) (number_is levels.first levels.apart levels.count code) (entry_of result) }
    {
        if levels.count == 0 {
            return Ok((code == 0) as u32);
        }
        let m = self.number_is(code / 2, levels.rest())?;
        let v = Level { v: levels.first };
        self.guard(v, code % 2 == 1, m)
    }

    // It is below n.
    // Kept: no loop does it: there are two calls, on the halves of n rounded up and down.
    pub fn number_below(&mut self, n: u32, levels: Levels) -> Result<u32, Full>
        ensures { Lists (entering self.old) (leaving self.new result) (number_below levels.first levels.apart levels.count n) (entry_of result) }
    {
        if levels.count == 0 {
            return Ok((0 < n) as u32);
        }
        let low = self.number_below(n / 2 + n % 2, levels.rest())?;
        let high = self.number_below(n / 2, levels.rest())?;
        let v = Level { v: levels.first };
        self.node(v, low, high)
    }

    // It is the number whose digits stand one level on.
    pub fn numbers_same(&mut self, levels: Levels) -> Result<u32, Full>
        requires { Spaced levels.first levels.apart levels.count 2 }
        ensures { Lists (entering self.old) (leaving self.new result) (numbers_same levels.first levels.apart levels.count) (entry_of result) }
    {
        let mut m = 1;
        for k in (0..levels.count).rev() {
            let v = levels.at(k);
            m = self.pair(v, Level { v: v.v + 1 }, m)?;
        }
        Ok(m)
    }

    // Level v = level w.
    pub fn same(&mut self, v: Level, w: Level) -> Result<u32, Full>
        requires { v.v ≡ w.v → ⊥ }
        ensures { Lists (entering self.old) (leaving self.new result) (same v.v w.v) (entry_of result) }
    {
        if v.v < w.v {
            self.pair(v, w, 1)
        } else {
            self.pair(w, v, 1)
        }
    }
}
