// For stored models, prints the derived steps that the relation shows: a model is compared with itself, and for every two states and action
// there is a look-up from the relation's root. A code is a state's where the last strong iterate relates it to itself. The stored output was made by
// the independent program.
#![tactic(auto)]

use nodes::lookup::{Point, TableSlices, look_up};
use std::io;
use verdicts::answer::Verdict;
use verdicts::compare::compare;

// A table, with the roots of the relation and of the last strong iterate.
#[derive(Clone, Copy)]
struct Shown<'a> {
    table: TableSlices<'a>,
    relation: u64,
    iterate: u64,
}

// Whether a look-up gives 1.
fn holds(table: TableSlices, root: u64, point: Point) -> bool {
    look_up(table, root, point).unwrap_or(false)
}

// Whether the relation has a step.
fn has_step(shown: Shown, x: u64, action: u64, y: u64) -> bool {
    let point = Point {
        action,
        left_now: x,
        left_next: y,
        right_now: 0,
        right_next: 0,
    };
    holds(shown.table, shown.relation, point)
}

// Whether a code is a state's.
fn is_state(shown: Shown, x: u64) -> bool {
    let point = Point {
        action: 0,
        left_now: x,
        left_next: 0,
        right_now: x,
        right_next: 0,
    };
    holds(shown.table, shown.iterate, point)
}

// The steps by an action from x to the codes below n.
fn steps_by(rt: &impl Print, shown: Shown, x: u64, action: u64, n: u64) -> io::Result<()> {
    for y in 0..n {
        if is_state(shown, y) && has_step(shown, x, action, y) {
            println!(rt; "{x} {action} {y}")?;
        }
    }
    Ok(())
}

// The steps from x.
fn steps_from(rt: &impl Print, shown: Shown, x: u64, n: u64) -> io::Result<()> {
    for action in 0..64 {
        steps_by(rt, shown, x, action, n)?;
    }
    Ok(())
}

// The steps from the codes below n that are states.
fn print_steps(rt: &impl Print, shown: Shown, n: u64) -> io::Result<()> {
    for x in 0..n {
        if is_state(shown, x) {
            steps_from(rt, shown, x, n)?;
        }
    }
    Ok(())
}

// A table has so many entries at most.
const LENGTH: usize = 16384;

// A model of so many codes.
// Kept: a struct over any length N would need the computed const argument 4N, and over `LENGTH` it would only be taken apart for `compare`.
fn show(rt: &impl Print, name: &[u8], text: &[u8], n: u64) -> io::Result<()> {
    rt.write_all(name)?;
    println!(rt)?;
    let mut level = [0u8; LENGTH];
    let mut low = [0u32; LENGTH];
    let mut high = [0u32; LENGTH];
    let mut work = [0u32; 4 * LENGTH];
    let answer = compare(text, text, 1000, &mut level, &mut low, &mut high, &mut work);
    if let Ok(a) = answer {
        if let Verdict::Equal { iterate, .. } = a.strong {
            let table = TableSlices {
                level: &level,
                low: &low,
                high: &high,
            };
            let shown = Shown {
                table,
                relation: a.left as u64,
                iterate: iterate as u64,
            };
            print_steps(rt, shown, n)?;
        }
    }
    Ok(())
}

fn leaves(rt: &impl Print) -> io::Result<()> {
    show(
        rt,
        b"leaf of three states",
        b"000103000201010002020300000201000000\n",
        4,
    )?;
    show(rt, b"leaf of one state", b"000101000000000400\n", 1)
}

fn composed(rt: &impl Print) -> io::Result<()> {
    show(
        rt,
        b"compose, one line twice",
        b"000102000201010300000001\n01020000\n",
        4,
    )?;
    show(
        rt,
        b"compose of three states",
        b"000103000201010002\n010102000301010000\n02020001\n",
        8,
    )
}

fn restricted(rt: &impl Print) -> io::Result<()> {
    show(
        rt,
        b"restrict",
        b"000102000201010300000400010001\n01030001\n",
        2,
    )?;
    show(rt, b"restrict nothing", b"000102000201\n010300\n", 2)
}

fn relabelled(rt: &impl Print) -> io::Result<()> {
    show(
        rt,
        b"relabel",
        b"000102000201010300000400010001\n0104000102\n",
        2,
    )?;
    show(
        rt,
        b"relabel to itself",
        b"000102000201010500\n0104000101\n",
        2,
    )
}

fn hidden_and_joint(rt: &impl Print) -> io::Result<()> {
    show(
        rt,
        b"hide",
        b"000102000201010300000400010001\n010500011E\n",
        2,
    )?;
    show(
        rt,
        b"joint",
        b"000102000201010400000300\n010103000201010202000500020000\n0206000101\n",
        8,
    )?;
    show(rt, b"joint on nothing", b"000102000201\n01060000\n", 4)
}

fn terminated(rt: &impl Print) -> io::Result<()> {
    show(rt, b"exit", b"000102003E01\n", 2)?;
    show(
        rt,
        b"joint: both exit",
        b"000102003E01\n010102003E01\n02060001\n",
        4,
    )?;
    show(
        rt,
        b"joint: one side can't exit",
        b"000102003E01\n010102000201\n02060001\n",
        4,
    )?;
    show(
        rt,
        b"joint: listed, then exit",
        b"000103000201013E02\n0106000001\n",
        16,
    )?;
    show(rt, b"compose: exits pass", b"000102003E01\n01020000\n", 4)
}

fn terminated_beside(rt: &impl Print) -> io::Result<()> {
    show(
        rt,
        b"joint: exit together, channel 30 alone",
        b"000102003C01003D01003E01\n01060000\n",
        4,
    )?;
    show(
        rt,
        b"compose: channel 30 meets, exit does not",
        b"000102003C01003E01\n010102003D01003E01\n02020001\n",
        4,
    )?;
    show(
        rt,
        b"steps after exit",
        b"000103003E01010202\n01060000\n",
        16,
    )?;
    show(
        rt,
        b"joint of three that exit",
        b"000102003E01\n01060000\n02060100\n",
        8,
    )
}

fn terminated_under(rt: &impl Print) -> io::Result<()> {
    show(
        rt,
        b"hide channel 30, not exit",
        b"000102003C01003D01003E01\n0105001E\n",
        2,
    )?;
    show(
        rt,
        b"restrict channel 30, not exit",
        b"000102003C01003D01003E01\n0103001E\n",
        2,
    )?;
    show(
        rt,
        b"relabel channel 30, not exit",
        b"000102003C01003D01003E01\n0104001E01\n",
        2,
    )?;
    show(
        rt,
        b"restrict, relabel and hide of exit",
        b"000104000201013E02020403\n01030002\n0204010103\n03050203\n",
        4,
    )?;
    show(
        rt,
        b"joint of a composition that exits twice",
        b"000102003E01\n01020000\n02060100\n",
        8,
    )?;
    show(
        rt,
        b"compose of joints that exit",
        b"000102003E01\n01060000\n02020100\n",
        8,
    )
}

fn enabled(rt: &impl Print) -> io::Result<()> {
    show(
        rt,
        b"enabling",
        b"000103000201013E02\n010102000401\n02070001\n",
        16,
    )?;
    show(
        rt,
        b"enabling: two exits of the first",
        b"000103003E01003E02\n010102000401\n02070001\n",
        16,
    )?;
    show(
        rt,
        b"enabling: the second exits",
        b"000102003E01\n010102003E01\n02070001\n",
        8,
    )?;
    show(
        rt,
        b"enabling: the first never exits",
        b"000102000201\n010102000401\n02070001\n",
        8,
    )
}

fn disabled(rt: &impl Print) -> io::Result<()> {
    show(
        rt,
        b"disabling",
        b"000102000201\n010102000401\n02080001\n",
        16,
    )?;
    show(
        rt,
        b"disabling: the first exits, and steps on",
        b"000103003E01010202\n010102000401\n02080001\n",
        32,
    )?;
    show(
        rt,
        b"disabling: the second exits",
        b"000102000201\n010102003E01\n02080001\n",
        16,
    )?;
    show(
        rt,
        b"disabling: the second's first step is internal",
        b"000102000201\n010103000001010402\n02080001\n",
        32,
    )
}

fn sequenced(rt: &impl Print) -> io::Result<()> {
    show(
        rt,
        b"disabling, then a line again",
        b"000102003E01\n01080000\n02070100\n",
        64,
    )?;
    show(
        rt,
        b"enabling, disabled",
        b"000102003E01\n01070000\n020101000400\n03080102\n",
        32,
    )?;
    show(
        rt,
        b"joint of an enabling and a line that exits",
        b"000102003E01\n01070000\n02060100\n",
        16,
    )?;
    show(
        rt,
        b"enabling of compositions, hidden",
        b"000102000201013E00\n010102000301\n02020001\n03070201\n04050301\n",
        16,
    )
}

fn nested(rt: &impl Print) -> io::Result<()> {
    show(
        rt,
        b"all operators nested",
        b"000102000201010300010001\n010103000301010402020200\n02020001\n0304020203\n0406030003\n05050401\n06030502\n",
        16,
    )?;
    show(
        rt,
        b"restrict of compose of relabels",
        b"000102000301010400\n0104000203\n0204000103\n03020102\n04030303\n",
        4,
    )?;
    show(
        rt,
        b"unused lines",
        b"000102000201\n01014000023F\n02020101\n03050002\n",
        2,
    )
}

fn main(rt: HostRuntime) -> io::Result<()> {
    leaves(&rt)?;
    composed(&rt)?;
    restricted(&rt)?;
    relabelled(&rt)?;
    hidden_and_joint(&rt)?;
    terminated(&rt)?;
    terminated_beside(&rt)?;
    terminated_under(&rt)?;
    enabled(&rt)?;
    disabled(&rt)?;
    sequenced(&rt)?;
    nested(&rt)
}
