// Functions built by the operations of `nodes`, shown as truth tables over the four lowest levels by look-up.
ghost use Rattle.nodes.specs.internal.Lent.{entering, leaving};
ghost use Rattle.nodes.specs.internal.Work.{Keeps};

use nodes::levels::{Level, Levels};
use nodes::lookup::{LookUpError, Point, TableSlices, look_up};
use nodes::manager::{Full, Manager};
use nodes::start::unpack;
use std::io;

// The entries of the functions.
#[derive(Clone, Copy)]
struct Roots {
    five: u32,
    six: u32,
    either: u32,
    other: u32,
    both: u32,
    some: u32,
    renamed: u32,
}

// The number at levels 0 to 2 is 5; it is 6; one of both; not 5; one of both and not 5, which is 6; one of both, with level 0 anything; one of
// both, with level 2 renamed to 3.
fn build(manager: &mut Manager) -> Result<Roots, Full>
    ensures { Keeps (entering manager.old) (leaving manager.new result) }
{
    let lowest = Levels {
        first: 0,
        apart: 1,
        count: 3,
    };
    let five = manager.number_is(5, lowest)?;
    let six = manager.number_is(6, lowest)?;
    let either = manager.or(five, six)?;
    let other = manager.not(five)?;
    let both = manager.and(other, either)?;
    let some = manager.exists(either, Level { v: 0 })?;
    let renamed = manager.rename(either, Level { v: 2 }, Level { v: 3 })?;
    Ok(Roots {
        five,
        six,
        either,
        other,
        both,
        some,
        renamed,
    })
}

fn digit(rt: &impl Print, answer: Result<bool, LookUpError>) -> io::Result<()> {
    match answer {
        Ok(true) => print!(rt; "1"),
        Ok(false) => print!(rt; "0"),
        Err(_) => print!(rt; "-"),
    }
}

// The values from a root at the actions 0 to 15.
fn show(rt: &impl Print, name: &[u8], root: u32, table: TableSlices) -> io::Result<()> {
    rt.write_all(name)?;
    print!(rt; ": ")?;
    for action in 0..16 {
        let point = Point {
            action,
            left_now: 0,
            left_next: 0,
            right_now: 0,
            right_next: 0,
        };
        digit(rt, look_up(table, root as u64, point))?;
    }
    println!(rt)
}

fn show_all(rt: &impl Print, r: Roots, table: TableSlices) -> io::Result<()> {
    show(rt, b"number is 5", r.five, table)?;
    show(rt, b"number is 6", r.six, table)?;
    show(rt, b"or", r.either, table)?;
    show(rt, b"not", r.other, table)?;
    show(rt, b"and", r.both, table)?;
    show(rt, b"exists", r.some, table)?;
    show(rt, b"rename", r.renamed, table)
}

// Kept: four arrays: a struct of them, used here alone, needs two lengths, `Slices<64, 256>`, since a length is not computed (`[u32; 4 * N]`).
pub fn built(rt: &impl Print) -> io::Result<()> {
    let mut level = [0u8; 64];
    let mut low = [0u32; 64];
    let mut high = [0u32; 64];
    let mut work = [0u32; 256];
    let mut manager = Manager::new(&mut low, &mut high, &mut work);
    let Ok(r) = build(&mut manager) else {
        return Ok(());
    };
    let used = manager.used();
    unpack(&mut level, &mut low, &high, used);
    let table = TableSlices {
        level: &level,
        low: &low,
        high: &high,
    };
    show_all(rt, r, table)
}

#[cfg(test)]
mod tests {
    use nodes::levels::Levels;
    use nodes::manager::Manager;
    use nodes::unique::{Node, make};
    use std::test::Fail;

    // One table with three managers, one after the other: the second takes it up as the first one left it, and the third with its index alone.
    // Each finds the function that the first one built.
    #[test]
    fn taken_up_again(rt: HostRuntime) -> Result<(), Fail> {
        let lowest = Levels {
            first: 0,
            apart: 1,
            count: 3,
        };
        let mut low = [0u32; 64];
        let mut high = [0u32; 64];
        let mut work = [0u32; 256];
        let mut first = Manager::new(&mut low, &mut high, &mut work);
        let five = first.number_is(5, lowest)?;
        let used = first.used();
        let mut second = Manager::resume(&mut low, &mut high, &mut work, used);
        let again = second.number_is(5, lowest)?;
        let still = second.used();
        assert_eq!(rt; again, five);
        assert_eq!(rt; still, used);
        let mut third = Manager::with_index(&mut low, &mut high, &mut work, still);
        assert_eq!(rt; third.number_is(5, lowest)?, five);
        assert_eq!(rt; third.used(), used);
        Ok(())
    }

    // A node is made by the index alone, whatever stands in the place of results: here that the negation of the constant 0 is 0. It is found
    // when it is asked for again, and what stood there stands there still.
    #[test]
    fn made_by_the_index(rt: HostRuntime) -> Result<(), Fail> {
        let mut low = [0u32; 64];
        let mut high = [0u32; 64];
        let mut work = [0u32; 256];
        let first = Manager::new(&mut low, &mut high, &mut work);
        let mut used = first.used();
        work[252] = 3;
        let node = Node {
            level: 0,
            low: 0,
            high: 1,
        };
        let made = make(&mut low, &mut high, &mut work, &mut used, node)?;
        let again = make(&mut low, &mut high, &mut work, &mut used, node)?;
        assert_eq!(rt; made, 2);
        assert_eq!(rt; again, made);
        assert_eq!(rt; used, 3);
        assert_eq!(rt; work[252], 3);
        Ok(())
    }
}
