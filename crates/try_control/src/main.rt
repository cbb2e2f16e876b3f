// Tries control writes: the figures of document 01, each bit, and corners. Prints a line for each.
#![tactic(auto)]

use std::io;
use trial::{Figure, NumberAndPlace, Output};

// Plays writes from a word, and prints at most five of them and the answer with its word.
fn play(rt: &impl Print, figure: Option<u8>, from: u16, writes: &[u16]) -> io::Result<()> {
    print!(rt; "{}play from {from:04X} writes", Figure(figure))?;
    for at in writes.iter().take(5) {
        print!(rt; " {at:04X}")?;
    }
    let told = control::play(from, writes);
    println!(rt;
        ": {} word {:04X}",
        NumberAndPlace(told),
        answer::value(told)
    )
}

// Figures P1 to P4.
fn figures(rt: &impl Print) -> io::Result<()> {
    play(rt, Some(1), 0x0000, &[0xFFC1, 0xFFC9, 0xFFD6])?;
    play(rt, Some(2), 0x0000, &[0xFFDF])?;
    play(rt, Some(3), 0xFFFF, &[0xFFC0])?;
    play(rt, Some(4), 0x0000, &[0xFFC1, 0xFFBF])
}

// Each bit of the control word: set from 0000 by its odd address, cleared from FFFF by its even one.
fn bits(rt: &impl Print) -> io::Result<()> {
    for bit in 0..16 {
        play(rt, None, 0x0000, &[0xFFC1 + 2 * bit])?;
        play(rt, None, 0xFFFF, &[0xFFC0 + 2 * bit])?;
    }
    Ok(())
}

// No writes, both neighbours of the range, the first of two elsewhere, a bit again.
fn corners(rt: &impl Print) -> io::Result<()> {
    play(rt, None, 0x1234, &[])?;
    play(rt, None, 0x1234, &[0xFFBF])?;
    play(rt, None, 0x1234, &[0xFFE0])?;
    play(rt, None, 0x1234, &[0xFFC1, 0xFFDF, 0x0000, 0xFFC3, 0xFFE0])?;
    play(rt, None, 0x0000, &[0xFFC1, 0xFFC0, 0xFFC1])
}

fn main(rt: HostRuntime) -> io::Result<()> {
    let rt = Output { rt };
    figures(&rt)?;
    bits(&rt)?;
    corners(&rt)
}
