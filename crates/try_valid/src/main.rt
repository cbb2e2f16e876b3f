// Tries the check of bytes that external text does not show: strips of letters with another byte at two places, whole and cut short. Prints a line for each.
#![tactic(auto)]

use answer::{Answer, Refusal};
use settings::Look;
use std::io;
use trial::{Answered, Output, cut, look_of, put};

// The pins, the other byte, its two places, and how much of the strip is checked.
type Row = (usize, u8, usize, usize, usize);

// The first is told, at the strip's ends too, and none past its end; byte 7F is shown.
const FIRSTS: [Row; 8] = [
    (0x10, 0x80, 0, 0, 6145),
    (0x10, 0xFF, 0, 6143, 6145),
    (0x10, 0x80, 6143, 17, 6145),
    (0x1F, 0x80, 3072, 3071, 6144),
    (0x10, 0xB9, 6143, 6143, 6144),
    (0x10, 0x80, 6144, 6143, 6145),
    (0x10, 0xFF, 6144, 6144, 6145),
    (0x10, 0x7F, 0, 6143, 6145),
];

// Strips that are cut short: a byte that is lacking counts as 0. None is told but in external text.
const OTHERS: [Row; 6] = [
    (0x10, 0x80, 6143, 6143, 6143),
    (0x10, 0x80, 6143, 16, 17),
    (0x10, 0x80, 16, 17, 16),
    (0x10, 0x80, 0, 1, 0),
    (0x0F, 0x80, 0, 6143, 6145),
    (0x30, 0x80, 0, 3071, 6145),
];

// An answer after the check: a refusal that was given before stays.
fn checked(answer: Answer, look: Look, strip: &[u8]) -> Answer {
    let value = answer?;
    valid::not_valid(look, strip)?;
    Ok(value)
}

// Checks the first bytes of a strip of letters that has another byte at two places.
fn check(rt: &impl Print, answer: Answer, row: Row) -> io::Result<()> {
    let (pins, byte, first, second, length) = row;
    let mut strip = [b'A'; 6145];
    put(&mut strip, first, byte);
    put(&mut strip, second, byte);
    let told = Answered(checked(answer, look_of(pins), cut(&strip, length)));
    println!(rt; "pins {pins:02X} byte {byte:02X} at {first} and {second} of {length}: {told}")
}

// Checks by each of some rows, where nothing was refused before.
fn check_each(rt: &impl Print, rows: &[Row]) -> io::Result<()> {
    for &row in rows {
        check(rt, Ok(8), row)?;
    }
    Ok(())
}

// The rows, and then a strip that is not looked at, since something was refused before.
fn main(rt: HostRuntime) -> io::Result<()> {
    let rt = Output { rt };
    check_each(&rt, &FIRSTS)?;
    check_each(&rt, &OTHERS)?;
    check(&rt, Err(Refusal::ShortFrame), (0x10, 0x80, 0, 6143, 6145))
}
