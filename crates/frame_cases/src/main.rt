// Reads texts of every kind, good and bad, and prints what reading answers: "accepted" with the lines, and
// the bits, leaf uses and states of the last line; or "refused" with the number and the line. Below it the same of the text read in pieces. Then the lines of
// texts, through the reader.
#![tactic(auto)]

mod lines;
mod pieces;

use frames::reader::Reader;
use frames::summary::Summary;
use frames::text::{TextError, read};
use std::io;

// A case is one literal: its name, a newline, and its text.
fn text_of(c: &[u8]) -> &[u8] {
    c.get(Reader::new(c).after().at..).unwrap_or(&[])
}

// What reading a text answers.
fn answer(rt: &impl Print, r: Result<Summary, TextError>) -> io::Result<()> {
    match r {
        Ok(s) => {
            let n = s.lines;
            let last = s.counts_at((n % 64 + 63) % 64);
            let (bits, uses, states) = (last.bits, last.uses, last.states);
            print!(rt; " accepted {n} {bits} {uses} {states}")
        }
        Err(e) => {
            let (n, line) = (e.refusal.number(), e.line);
            print!(rt; " refused {n} {line}")
        }
    }
}

// One case: its name, and what reading the text answers, as a whole and in pieces.
fn case(rt: &impl Print, c: &[u8]) -> io::Result<()> {
    rt.write_all(Reader::new(c).digits())?;
    print!(rt; ":")?;
    answer(rt, read(text_of(c)))?;
    println!(rt)?;
    pieces::show(rt, text_of(c))
}

fn first(rt: &impl Print) -> io::Result<()> {
    case(rt, b"empty text\n")?;
    case(rt, b"lone newline\n\n")?;
    case(rt, b"two newlines\n\n\n")?;
    case(rt, b"lower case\n00010a\n")?;
    case(rt, b"lower case later\n000102000201\n01010a\n")?;
    case(rt, b"return before newline\n000101\r\n")?;
    case(rt, b"space\n00 101\n")?;
    case(rt, b"letter G\n00010G\n")?;
    case(rt, b"slash and colon\n0/0:01\n")
}

fn second(rt: &impl Print) -> io::Result<()> {
    case(rt, b"at sign\n0001@1\n")?;
    case(rt, b"nul byte\n0001\x001\n")?;
    case(rt, b"high byte\n0001\xFF1\n")?;
    case(rt, b"odd digits\n00010\n")?;
    case(rt, b"one digit\n0\n")?;
    case(
        rt,
        b"odd and long\n000000000000000000000000000000000000000000000000000000000000000000000000000000000000000000000000000000000000000000000000000000000000000000000000000000000000000000000000000000000000000000000000000000000000000000000000000000000000000000000000000000000000000000000000000000000000000000000000000000000000000000000000000000000000000000000000000000000000000000000000000000000000000000000000000000000000000000000000000000000000000000000000000000000000000000000000000000000000000000000000000000000000000000000000000000000\n",
    )?;
    case(rt, b"unended\n000101")?;
    case(rt, b"unended after a good line\n000102000201\n010101")?;
    case(rt, b"unended rest of one digit\n000102000201\n0")
}

fn third(rt: &impl Print) -> io::Result<()> {
    case(rt, b"good line and lone newline\n000102000201\n\n")?;
    case(rt, b"one byte\n00\n")?;
    case(rt, b"two bytes\n0001\n")?;
    case(
        rt,
        b"255 bytes\n000102000201000201000201000201000201000201000201000201000201000201000201000201000201000201000201000201000201000201000201000201000201000201000201000201000201000201000201000201000201000201000201000201000201000201000201000201000201000201000201000201000201000201000201000201000201000201000201000201000201000201000201000201000201000201000201000201000201000201000201000201000201000201000201000201000201000201000201000201000201000201000201000201000201000201000201000201000201000201000201000201000201000201000201000201\n",
    )?;
    case(
        rt,
        b"256 bytes\n00030101010101010101010101010101010101010101010101010101010101010101010101010101010101010101010101010101010101010101010101010101010101010101010101010101010101010101010101010101010101010101010101010101010101010101010101010101010101010101010101010101010101010101010101010101010101010101010101010101010101010101010101010101010101010101010101010101010101010101010101010101010101010101010101010101010101010101010101010101010101010101010101010101010101010101010101010101010101010101010101010101010101010101010101010101\n",
    )?;
    case(
        rt,
        b"256 bytes later\n000102000201\n01030101010101010101010101010101010101010101010101010101010101010101010101010101010101010101010101010101010101010101010101010101010101010101010101010101010101010101010101010101010101010101010101010101010101010101010101010101010101010101010101010101010101010101010101010101010101010101010101010101010101010101010101010101010101010101010101010101010101010101010101010101010101010101010101010101010101010101010101010101010101010101010101010101010101010101010101010101010101010101010101010101010101010101010101010101\n",
    )?;
    case(
        rt,
        b"400 bytes\n00000000000000000000000000000000000000000000000000000000000000000000000000000000000000000000000000000000000000000000000000000000000000000000000000000000000000000000000000000000000000000000000000000000000000000000000000000000000000000000000000000000000000000000000000000000000000000000000000000000000000000000000000000000000000000000000000000000000000000000000000000000000000000000000000000000000000000000000000000000000000000000000000000000000000000000000000000000000000000000000000000000000000000000000000000000000000000000000000000000000000000000000000000000000000000000000000000000000000000000000000000000000000000000000000000000000000000000000000000000000000000000000000000000000000000000000000000000000000000000000000000000000000000000000000000000000000000000000000000000000000000000000000000000\n",
    )?;
    case(
        rt,
        b"stray in a long line\n00000000000000000000000000000000000000000000000000000000000000000000000000000000000000000000000000000000000000000000000000000000000000000000000000000000000000000000000000000000000000000000000000000000000000000000000000000000000000000000000000000000000000000000000000000000000000000000000000000000000000000000000000000000000000000000000000000000000000000000000000000000000000000000000000000000000000000000000000000000000000000000000000000000000000000000000000000000000000000000000000000000000000000000000000000000000000000000000000000000000000000000000000000000000000000000000000000000000000000000000000000000000000000000000000000000000000000000000000000000000000000000000000000000000000000000000000000000000000000000000000000000000000000000000000000000000000000000000000000000000000000000000000000000x\n",
    )?;
    case(rt, b"number one at first\n010101\n")
}

fn fourth(rt: &impl Print) -> io::Result<()> {
    case(rt, b"number repeated\n000102000201\n000101\n")?;
    case(rt, b"number skipped\n000102000201\n020101\n")?;
    case(rt, b"number FF\n000102000201\nFF0101\n")?;
    case(
        rt,
        b"64 lines\n000101\n010101\n020101\n030101\n040101\n050101\n060101\n070101\n080101\n090101\n0A0101\n0B0101\n0C0101\n0D0101\n0E0101\n0F0101\n100101\n110101\n120101\n130101\n140101\n150101\n160101\n170101\n180101\n190101\n1A0101\n1B0101\n1C0101\n1D0101\n1E0101\n1F0101\n200101\n210101\n220101\n230101\n240101\n250101\n260101\n270101\n280101\n290101\n2A0101\n2B0101\n2C0101\n2D0101\n2E0101\n2F0101\n300101\n310101\n320101\n330101\n340101\n350101\n360101\n370101\n380101\n390101\n3A0101\n3B0101\n3C0101\n3D0101\n3E0101\n3F0101\n",
    )?;
    case(
        rt,
        b"65 lines\n000101\n010101\n020101\n030101\n040101\n050101\n060101\n070101\n080101\n090101\n0A0101\n0B0101\n0C0101\n0D0101\n0E0101\n0F0101\n100101\n110101\n120101\n130101\n140101\n150101\n160101\n170101\n180101\n190101\n1A0101\n1B0101\n1C0101\n1D0101\n1E0101\n1F0101\n200101\n210101\n220101\n230101\n240101\n250101\n260101\n270101\n280101\n290101\n2A0101\n2B0101\n2C0101\n2D0101\n2E0101\n2F0101\n300101\n310101\n320101\n330101\n340101\n350101\n360101\n370101\n380101\n390101\n3A0101\n3B0101\n3C0101\n3D0101\n3E0101\n3F0101\n400101\n",
    )?;
    case(
        rt,
        b"64 lines and a newline\n000101\n010101\n020101\n030101\n040101\n050101\n060101\n070101\n080101\n090101\n0A0101\n0B0101\n0C0101\n0D0101\n0E0101\n0F0101\n100101\n110101\n120101\n130101\n140101\n150101\n160101\n170101\n180101\n190101\n1A0101\n1B0101\n1C0101\n1D0101\n1E0101\n1F0101\n200101\n210101\n220101\n230101\n240101\n250101\n260101\n270101\n280101\n290101\n2A0101\n2B0101\n2C0101\n2D0101\n2E0101\n2F0101\n300101\n310101\n320101\n330101\n340101\n350101\n360101\n370101\n380101\n390101\n3A0101\n3B0101\n3C0101\n3D0101\n3E0101\n3F0101\n\n",
    )?;
    case(
        rt,
        b"64 lines and a digit\n000101\n010101\n020101\n030101\n040101\n050101\n060101\n070101\n080101\n090101\n0A0101\n0B0101\n0C0101\n0D0101\n0E0101\n0F0101\n100101\n110101\n120101\n130101\n140101\n150101\n160101\n170101\n180101\n190101\n1A0101\n1B0101\n1C0101\n1D0101\n1E0101\n1F0101\n200101\n210101\n220101\n230101\n240101\n250101\n260101\n270101\n280101\n290101\n2A0101\n2B0101\n2C0101\n2D0101\n2E0101\n2F0101\n300101\n310101\n320101\n330101\n340101\n350101\n360101\n370101\n380101\n390101\n3A0101\n3B0101\n3C0101\n3D0101\n3E0101\n3F0101\n0",
    )?;
    case(
        rt,
        b"64 lines and a number 00\n000101\n010101\n020101\n030101\n040101\n050101\n060101\n070101\n080101\n090101\n0A0101\n0B0101\n0C0101\n0D0101\n0E0101\n0F0101\n100101\n110101\n120101\n130101\n140101\n150101\n160101\n170101\n180101\n190101\n1A0101\n1B0101\n1C0101\n1D0101\n1E0101\n1F0101\n200101\n210101\n220101\n230101\n240101\n250101\n260101\n270101\n280101\n290101\n2A0101\n2B0101\n2C0101\n2D0101\n2E0101\n2F0101\n300101\n310101\n320101\n330101\n340101\n350101\n360101\n370101\n380101\n390101\n3A0101\n3B0101\n3C0101\n3D0101\n3E0101\n3F0101\n000101\n",
    )?;
    case(rt, b"kind 00\n000001\n")
}

fn fifth(rt: &impl Print) -> io::Result<()> {
    case(rt, b"kind 07\n000102000201\n01070000\n")?;
    case(rt, b"kind 08\n000102000201\n01080000\n")?;
    case(rt, b"kind 09\n00090100\n")?;
    case(rt, b"kind 80\n008001\n")?;
    case(rt, b"kind FF\n00FF01\n")?;
    case(rt, b"leaf without a count\n0001\n")?;
    case(rt, b"leaf of one byte too many\n00010200\n")?;
    case(rt, b"leaf of two bytes too many\n0001020002\n")?;
    case(rt, b"leaf with the kind and one\n000101\n")
}

fn sixth(rt: &impl Print) -> io::Result<()> {
    case(rt, b"compose of one operand\n000102000201\n010200\n")?;
    case(rt, b"compose of three\n000102000201\n0102000000\n")?;
    case(rt, b"restrict of nothing\n000102000201\n0103\n")?;
    case(rt, b"relabel of two bytes\n000102000201\n01040001\n")?;
    case(rt, b"relabel of four bytes\n000102000201\n010400010203\n")?;
    case(rt, b"hide of nothing\n000102000201\n0105\n")?;
    case(rt, b"joint of one operand\n000102000201\n010600\n")?;
    case(rt, b"leaf of 0 states\n000100\n")?;
    case(rt, b"leaf of 64 states\n000140\n")
}

fn seventh(rt: &impl Print) -> io::Result<()> {
    case(rt, b"leaf of 65 states\n000141\n")?;
    case(rt, b"leaf of 255 states\n0001FF\n")?;
    case(rt, b"from out of range\n000102020201\n")?;
    case(rt, b"to out of range\n000102000202\n")?;
    case(rt, b"second triple out of range\n000102000201000202\n")?;
    case(rt, b"action 0\n000102000001\n")?;
    case(rt, b"action 1\n000102000101\n")?;
    case(rt, b"action 63\n000102003F01\n")?;
    case(rt, b"action 64\n000102004001\n")
}

fn eighth(rt: &impl Print) -> io::Result<()> {
    case(rt, b"action 255\n00010200FF01\n")?;
    case(rt, b"channel 0\n000102000201\n01030000\n")?;
    case(rt, b"channel 31\n000102000201\n0103001F\n")?;
    case(rt, b"channel 32\n000102000201\n01030020\n")?;
    case(rt, b"second channel 32\n000102000201\n0105000120\n")?;
    case(rt, b"no channels\n000102000201\n010300\n")?;
    case(rt, b"relabel from 0\n000102000201\n0104000001\n")?;
    case(rt, b"relabel to 32\n000102000201\n0104000120\n")?;
    case(rt, b"joint channel 0\n000102000201\n0106000000\n")
}

fn termination(rt: &impl Print) -> io::Result<()> {
    case(rt, b"action 61\n000102003D01\n")?;
    case(rt, b"action 62\n000102003E01\n")?;
    case(rt, b"action 63 in the second triple\n000102003E01003F01\n")?;
    case(rt, b"action 63 in an unused line\n000102003F01\n010101\n")?;
    case(rt, b"states 31, 62 and 63\n0001403E023F1F003E\n")?;
    case(rt, b"restrict channel 30\n000102003E01\n0103001E\n")?;
    case(rt, b"hide channel 30\n000102003E01\n0105001E\n")?;
    case(rt, b"joint channel 30\n000102003E01\n010600001E\n")?;
    case(rt, b"relabel 30 to 30\n000102003E01\n0104001E1E\n")
}

fn termination_listed(rt: &impl Print) -> io::Result<()> {
    case(
        rt,
        b"restrict channels 1, 31 and 2\n000102003E01\n010300011F02\n",
    )?;
    case(
        rt,
        b"restrict channels 1 and 31\n000102003E01\n010300011F\n",
    )?;
    case(rt, b"hide channel 31\n000102003E01\n0105001F\n")?;
    case(rt, b"hide channels 1 and 31\n000102003E01\n010500011F\n")?;
    case(rt, b"joint channel 31\n000102003E01\n010600001F\n")?;
    case(rt, b"joint channels 1 and 31\n000102003E01\n01060000011F\n")?;
    case(rt, b"relabel from 31\n000102003E01\n0104001F01\n")?;
    case(rt, b"relabel to 31\n000102003E01\n010400011F\n")?;
    case(rt, b"relabel 31 to 31\n000102003E01\n0104001F1F\n")
}

fn termination_and_others(rt: &impl Print) -> io::Result<()> {
    case(rt, b"joint channels 31 and 1\n000102003E01\n010600001F01\n")?;
    case(
        rt,
        b"channel 31 in an unused line\n000102003E01\n0103001F\n020101\n",
    )?;
    case(
        rt,
        b"channel 31 before 25 bits\n000140\n01020000\n02020101\n030102\n040602031F\n",
    )?;
    case(
        rt,
        b"a relabelling too long before channel 31\n000102003E01\n010400011F01\n",
    )
}

fn enabling(rt: &impl Print) -> io::Result<()> {
    case(rt, b"enabling of nothing\n000102003E01\n0107\n")?;
    case(rt, b"enabling of one operand\n000102003E01\n010700\n")?;
    case(rt, b"enabling of three\n000102003E01\n0107000000\n")?;
    case(rt, b"enabling of itself\n000102003E01\n01070001\n")?;
    case(
        rt,
        b"enabling of a later line\n000102003E01\n01070200\n020101\n",
    )?;
    case(
        rt,
        b"enabling of 3 and 5 states\n000103\n010105\n02070001\n",
    )?;
    case(
        rt,
        b"enabling of 24 bits\n000140\n010120\n02020000\n03020001\n04070203\n",
    )?;
    case(rt, b"enabling of 25 bits\n000140\n01020000\n02070101\n")?;
    case(
        rt,
        b"enabling of itself before 25 bits\n000140\n01020000\n02020101\n03070203\n",
    )
}

fn disabling(rt: &impl Print) -> io::Result<()> {
    case(rt, b"disabling of one operand\n000102003E01\n010800\n")?;
    case(rt, b"disabling of three\n000102003E01\n0108000000\n")?;
    case(rt, b"disabling of itself\n000102003E01\n01080100\n")?;
    case(
        rt,
        b"disabling of 3 and 5 states\n000103\n010105\n02080001\n",
    )?;
    case(
        rt,
        b"disabling of 5 and 3 states\n000103\n010105\n02080100\n",
    )?;
    case(
        rt,
        b"disabling of 24 bits\n000140\n010120\n02020001\n03080202\n",
    )?;
    case(
        rt,
        b"disabling of 25 bits\n000140\n010120\n02020000\n03020001\n04080203\n",
    )?;
    case(
        rt,
        b"bad unused line: disabling of 25 bits\n000140\n010120\n02020000\n03020001\n04080203\n050101\n",
    )
}

fn enabling_and_disabling(rt: &impl Print) -> io::Result<()> {
    case(
        rt,
        b"disabling of an enabling, enabling of both\n000102003E01\n01070000\n02080100\n03070201\n",
    )?;
    case(
        rt,
        b"enabling of 64 leaf uses\n000101\n01020000\n02020101\n03020202\n04020303\n05020404\n06070505\n",
    )?;
    case(
        rt,
        b"disabling of 65 leaf uses\n000101\n01020000\n02020101\n03020202\n04020303\n05020404\n06020505\n07080600\n",
    )?;
    case(
        rt,
        b"lowest number counts: a disabling too long before 5\n000102003E01\n0108010101\n",
    )
}

fn ninth(rt: &impl Print) -> io::Result<()> {
    case(rt, b"operand of itself\n000102000201\n01020001\n")?;
    case(rt, b"operand of the first line\n00020000\n")?;
    case(rt, b"operand later\n000102000201\n010300\n02050301\n")?;
    case(rt, b"operand FF\n000102000201\n0102FF00\n")?;
    case(rt, b"both operands the same\n000102000201\n01020000\n")
}

fn bits(rt: &impl Print) -> io::Result<()> {
    case(rt, b"18 bits\n000140\n01020000\n02020100\n")?;
    case(
        rt,
        b"20 bits\n000140\n01020000\n02020100\n030104\n04020203\n",
    )?;
    case(
        rt,
        b"20 bits, fewer states\n000121\n01020000\n02020100\n030103\n04020203\n",
    )?;
    case(
        rt,
        b"21 bits\n000140\n01020000\n02020100\n030108\n04020203\n",
    )?;
    case(rt, b"24 bits\n000140\n01020000\n02020101\n")?;
    case(rt, b"24 bits, fewer states\n000121\n01020000\n02020101\n")?;
    case(
        rt,
        b"25 bits\n000140\n01020000\n02020101\n030102\n04020203\n",
    )?;
    case(
        rt,
        b"25 bits, fewer states\n000121\n01020000\n02020101\n030102\n04020203\n",
    )?;
    case(rt, b"48 bits\n000140\n01020000\n02020101\n03020202\n")
}

fn unused_bits(rt: &impl Print) -> io::Result<()> {
    case(
        rt,
        b"unused line of 20 bits\n000140\n01020000\n02020100\n030104\n04020203\n050101\n",
    )?;
    case(
        rt,
        b"unused line of 21 bits\n000140\n01020000\n02020100\n030108\n04020203\n050101\n",
    )?;
    case(
        rt,
        b"unused line of 24 bits\n000140\n01020000\n02020101\n030101\n",
    )?;
    case(
        rt,
        b"bad unused line: 25 bits\n000140\n01020000\n02020101\n030102\n04020203\n050101\n",
    )
}

fn tenth(rt: &impl Print) -> io::Result<()> {
    case(
        rt,
        b"64 leaf uses\n000101\n01020000\n02020101\n03020202\n04020303\n05020404\n06020505\n",
    )?;
    case(
        rt,
        b"65 leaf uses\n000101\n01020000\n02020101\n03020202\n04020303\n05020404\n06020505\n07020600\n",
    )?;
    case(
        rt,
        b"128 leaf uses\n000101\n01020000\n02020101\n03020202\n04020303\n05020404\n06020505\n07020606\n",
    )?;
    case(
        rt,
        b"bad unused line: stray\n000102000201\n0101x1\n020101\n",
    )?;
    case(rt, b"bad unused line: kind\n000102000201\n010001\n020101\n")?;
    case(
        rt,
        b"bad unused line: state\n000102000201\n010102050201\n020101\n",
    )?;
    case(
        rt,
        b"bad unused line: limits\n000140\n01020000\n02020101\n03020202\n040101\n",
    )?;
    case(rt, b"good unused line\n000140\n010102000201\n")
}

fn eleventh(rt: &impl Print) -> io::Result<()> {
    case(rt, b"first bad line counts\n000201\n01\n")?;
    case(
        rt,
        b"lowest number counts: 3 before 4\n000102000201\n02FF\n",
    )?;
    case(rt, b"lowest number counts: 4 before 5\n000000\n")?;
    case(rt, b"lowest number counts: 1 before 3\n010\n")?;
    case(rt, b"lowest number counts: 2 before 3\n01\n")?;
    case(
        rt,
        b"row P7 left\n000102000201\n010102000301\n02020001\n03030201\n",
    )?;
    case(rt, b"row P9 left\n000102000201\n0106000001\n")?;
    case(rt, b"row P10 left\n000102000201\n0104000102\n")
}

fn main(rt: HostRuntime) -> io::Result<()> {
    first(&rt)?;
    second(&rt)?;
    third(&rt)?;
    fourth(&rt)?;
    fifth(&rt)?;
    sixth(&rt)?;
    seventh(&rt)?;
    eighth(&rt)?;
    termination(&rt)?;
    termination_listed(&rt)?;
    termination_and_others(&rt)?;
    enabling(&rt)?;
    disabling(&rt)?;
    enabling_and_disabling(&rt)?;
    ninth(&rt)?;
    bits(&rt)?;
    unused_bits(&rt)?;
    tenth(&rt)?;
    eleventh(&rt)?;
    pieces::all(&rt)?;
    lines::all(&rt)
}
