// Look-ups over tables made by hand, in order and not, and over one that the operations built: a line a case, its name and the answer.
#![tactic(auto)]

mod built;

use nodes::lookup::{LookUpError, Point, TableSlices, look_up};
use std::io;

// What is looked up, in a line.
fn at(action: u64, left_now: u64, left_next: u64, right_now: u64, right_next: u64) -> Point {
    Point {
        action,
        left_now,
        left_next,
        right_now,
        right_next,
    }
}

// The line of a case.
fn tell(rt: &impl Print, name: &[u8], answer: Result<bool, LookUpError>) -> io::Result<()> {
    rt.write_all(name)?;
    match answer {
        Ok(true) => println!(rt; ": value 1"),
        Ok(false) => println!(rt; ": value 0"),
        Err(e) => {
            let n = e.number();
            println!(rt; ": refusal {n}")
        }
    }
}

// A look-up in a table in order: entry 2 is bit 0 of left now, entry 3 that and bit 0 of the action.
fn good(rt: &impl Print, name: &[u8], root: u64, point: Point) -> io::Result<()> {
    let table = TableSlices {
        level: &[255, 255, 6, 0],
        low: &[0, 1, 0, 0],
        high: &[0, 1, 1, 2],
    };
    tell(rt, name, look_up(table, root, point))
}

// A look-up in a table of one node, which is the bit at a level; only one number is not 0.
fn at_level(rt: &impl Print, name: &[u8], v: u8, point: Point) -> io::Result<()> {
    let table = TableSlices {
        level: &[255, 255, v],
        low: &[0, 1, 0],
        high: &[0, 1, 1],
    };
    tell(rt, name, look_up(table, 2, point))
}

// A look-up from entry 3 of a table of two nodes: entry 3 of level v has the children lo and hi, entry 2 of level w has child 1.
fn two(
    rt: &impl Print,
    name: &[u8],
    v: u8,
    lo: u32,
    hi: u32,
    w: u8,
    down: u32,
    action: u64,
) -> io::Result<()> {
    let table = TableSlices {
        level: &[255, 255, w, v],
        low: &[0, 1, down, lo],
        high: &[0, 1, 1, hi],
    };
    tell(rt, name, look_up(table, 3, at(action, 0, 0, 0, 0)))
}

// A look-up from entry 1 in slices of some lengths.
fn sized(rt: &impl Print, name: &[u8], table: TableSlices) -> io::Result<()> {
    tell(rt, name, look_up(table, 1, at(0, 0, 0, 0, 0)))
}

fn roots(rt: &impl Print) -> io::Result<()> {
    good(rt, b"entry 0", 0, at(0, 0, 0, 0, 0))?;
    good(rt, b"entry 1", 1, at(0, 0, 0, 0, 0))?;
    good(rt, b"entry 2, left now even", 2, at(0, 2, 0, 0, 0))?;
    good(rt, b"entry 2, left now odd", 2, at(0, 3, 0, 0, 0))?;
    good(rt, b"entry 3, action even", 3, at(62, 1, 0, 0, 0))?;
    good(rt, b"entry 3, action odd", 3, at(63, 1, 0, 0, 0))?;
    good(rt, b"entry 4, beyond the slices", 4, at(0, 0, 0, 0, 0))?;
    good(
        rt,
        b"entry 2^64 - 1",
        18446744073709551615,
        at(0, 0, 0, 0, 0),
    )
}

fn numbers(rt: &impl Print) -> io::Result<()> {
    good(rt, b"action 64", 1, at(64, 0, 0, 0, 0))?;
    good(
        rt,
        b"action 2^64 - 1",
        1,
        at(18446744073709551615, 0, 0, 0, 0),
    )?;
    good(
        rt,
        b"codes 2^20 - 1",
        3,
        at(63, 1048575, 1048575, 1048575, 1048575),
    )?;
    good(
        rt,
        b"codes 2^24 - 1",
        3,
        at(63, 16777215, 16777215, 16777215, 16777215),
    )?;
    good(
        rt,
        b"right next 2^64 - 1",
        1,
        at(0, 0, 0, 0, 18446744073709551615),
    )
}

// A code in each of the four places, from a root.
fn each_place(rt: &impl Print, name: &[u8], root: u64, code: u64) -> io::Result<()> {
    print!(rt; "left now ")?;
    good(rt, name, root, at(0, code, 0, 0, 0))?;
    print!(rt; "left next ")?;
    good(rt, name, root, at(0, 0, code, 0, 0))?;
    print!(rt; "right now ")?;
    good(rt, name, root, at(0, 0, 0, code, 0))?;
    print!(rt; "right next ")?;
    good(rt, name, root, at(0, 0, 0, 0, code))
}

fn codes(rt: &impl Print) -> io::Result<()> {
    each_place(rt, b"2^20, entry 0", 0, 1048576)?;
    each_place(rt, b"2^20, entry 1", 1, 1048576)?;
    each_place(rt, b"2^20, entry 2", 2, 1048576)?;
    each_place(rt, b"2^24 - 1, entry 0", 0, 16777215)?;
    each_place(rt, b"2^24 - 1, entry 1", 1, 16777215)?;
    each_place(rt, b"2^24 - 1, entry 2", 2, 16777215)?;
    each_place(rt, b"2^24, entry 0", 0, 16777216)?;
    each_place(rt, b"2^24, entry 1", 1, 16777216)?;
    each_place(rt, b"2^24, entry 2", 2, 16777216)
}

fn levels(rt: &impl Print) -> io::Result<()> {
    at_level(rt, b"level 5, action 32", 5, at(32, 0, 0, 0, 0))?;
    at_level(rt, b"level 6, left now 1", 6, at(0, 1, 0, 0, 0))?;
    at_level(rt, b"level 7, left next 1", 7, at(0, 0, 1, 0, 0))?;
    at_level(
        rt,
        b"level 8, a middle bit",
        8,
        at(63, 16777215, 16777215, 16777215, 16777215),
    )?;
    at_level(rt, b"level 9, right now 1", 9, at(0, 0, 0, 1, 0))?;
    at_level(rt, b"level 10, right next 1", 10, at(0, 0, 0, 0, 1))?;
    at_level(rt, b"level 10, right next 2", 10, at(0, 0, 0, 0, 2))?;
    at_level(
        rt,
        b"level 11, a middle bit",
        11,
        at(63, 16777215, 16777215, 16777215, 16777215),
    )
}

fn last_levels(rt: &impl Print) -> io::Result<()> {
    at_level(rt, b"level 120, left now 2^19", 120, at(0, 524288, 0, 0, 0))?;
    at_level(
        rt,
        b"level 124, right next 2^19",
        124,
        at(0, 0, 0, 0, 524288),
    )?;
    at_level(
        rt,
        b"level 125, a middle bit",
        125,
        at(63, 16777215, 16777215, 16777215, 16777215),
    )?;
    at_level(
        rt,
        b"level 126, left now 2^20",
        126,
        at(0, 1048576, 0, 0, 0),
    )?;
    at_level(
        rt,
        b"level 126, left now 2^20 - 1",
        126,
        at(0, 1048575, 0, 0, 0),
    )?;
    at_level(
        rt,
        b"level 144, left now 2^23",
        144,
        at(0, 8388608, 0, 0, 0),
    )?;
    at_level(
        rt,
        b"level 145, left next 2^23",
        145,
        at(0, 0, 8388608, 0, 0),
    )?;
    at_level(
        rt,
        b"level 147, right now 2^23",
        147,
        at(0, 0, 0, 8388608, 0),
    )?;
    at_level(
        rt,
        b"level 148, right next 2^23",
        148,
        at(0, 0, 0, 0, 8388608),
    )?;
    at_level(
        rt,
        b"level 149, a middle bit",
        149,
        at(63, 16777215, 16777215, 16777215, 16777215),
    )?;
    at_level(rt, b"level 150", 150, at(0, 0, 0, 0, 0))?;
    at_level(rt, b"level 254", 254, at(0, 0, 0, 0, 0))?;
    at_level(rt, b"level 255", 255, at(0, 0, 0, 0, 0))
}

fn disorder(rt: &impl Print) -> io::Result<()> {
    two(rt, b"child deeper", 0, 0, 2, 1, 0, 3)?;
    two(rt, b"child of the same level", 1, 0, 2, 1, 0, 3)?;
    two(rt, b"child of a smaller level", 2, 0, 2, 1, 0, 7)?;
    two(rt, b"child out of order, not met", 2, 0, 2, 1, 0, 0)?;
    two(rt, b"child out of the slices", 0, 0, 4, 1, 0, 1)?;
    two(rt, b"child 2^32 - 1", 0, 0, 4294967295, 1, 0, 1)?;
    two(rt, b"its own child", 0, 3, 0, 1, 0, 0)?;
    two(rt, b"a cycle of two", 0, 2, 0, 1, 3, 0)
}

fn equal_sizes(rt: &impl Print) -> io::Result<()> {
    let two = TableSlices {
        level: &[255, 255],
        low: &[0, 1],
        high: &[0, 1],
    };
    sized(rt, b"lengths 2, 2, 2", two)?;
    let one = TableSlices {
        level: &[255],
        low: &[0],
        high: &[0],
    };
    sized(rt, b"lengths 1, 1, 1", one)?;
    let none = TableSlices {
        level: &[],
        low: &[],
        high: &[],
    };
    sized(rt, b"lengths 0, 0, 0", none)
}

fn unequal_sizes(rt: &impl Print) -> io::Result<()> {
    let short_low = TableSlices {
        level: &[255, 255, 255],
        low: &[0, 1],
        high: &[0, 1, 0],
    };
    sized(rt, b"lengths 3, 2, 3", short_low)?;
    let long_high = TableSlices {
        level: &[255, 255, 255],
        low: &[0, 1, 0],
        high: &[0, 1, 0, 0],
    };
    sized(rt, b"lengths 3, 3, 4", long_high)?;
    let short_level = TableSlices {
        level: &[255, 255],
        low: &[0, 1, 0],
        high: &[0, 1, 0],
    };
    sized(rt, b"lengths 2, 3, 3", short_level)
}

fn main(rt: HostRuntime) -> io::Result<()> {
    roots(&rt)?;
    numbers(&rt)?;
    codes(&rt)?;
    levels(&rt)?;
    last_levels(&rt)?;
    disorder(&rt)?;
    equal_sizes(&rt)?;
    unequal_sizes(&rt)?;
    built::built(&rt)
}
