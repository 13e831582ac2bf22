// For stored pairs, prints the lines of the program with other limits than the program's, so that 9 stands on one line or on both. The stored
// output was made by the independent program.
#![tactic(auto)]

use std::io;

fn show(rt: &impl Print, name: &[u8], left: &[u8], right: &[u8], limit: u64) -> io::Result<()> {
    rt.write_all(name)?;
    println!(rt)?;
    checking::print_within(rt, left, right, limit)
}

// "different" strongly after 1 round, and "equal" weakly after 3.
fn weak_later(rt: &impl Print) -> io::Result<()> {
    let left = b"000102000201\n";
    let right = b"000103000001010202\n";
    show(rt, b"both verdicts", left, right, 3)?;
    show(rt, b"9 on the weak line", left, right, 2)?;
    show(rt, b"9 on the weak line, limit 1", left, right, 1)?;
    show(rt, b"limit 0", left, right, 0)
}

// "equal" strongly after 2 rounds, and weakly after 1.
fn strong_later(rt: &impl Print) -> io::Result<()> {
    let left = b"000102000201\n01050001\n";
    let right = b"000102000001\n";
    show(rt, b"both equal", left, right, 2)?;
    show(rt, b"9 on the strong line", left, right, 1)
}

// "different" in both after 2 rounds.
fn both_later(rt: &impl Print) -> io::Result<()> {
    let left = b"000103000201010402010602\n";
    let right = b"000104000201000202010403020603\n";
    show(rt, b"both different", left, right, 2)?;
    show(rt, b"9 on both lines", left, right, 1)
}

fn refused(rt: &impl Print) -> io::Result<()> {
    show(rt, b"a text", b"000102000201\n", b"000102000201", 1)?;
    show(
        rt,
        b"8 before 9",
        b"000102000201010300\n01020000\n02020101\n",
        b"000102000201010300\n01020000\n02020101\n",
        0,
    )
}

fn main(rt: HostRuntime) -> io::Result<()> {
    weak_later(&rt)?;
    strong_later(&rt)?;
    both_later(&rt)?;
    refused(&rt)
}
