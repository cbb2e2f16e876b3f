// Tries reading back: each refusal, what is stray, and strips read back from drawn frames by their sums. Prints a line for each call.
#![tactic(auto)]

use std::io;
use trial::{Answered, Output, cut, lay, look_of, mark, put, sum, unchanged_from};

// == Refusals and their order, with the strip held against what it was before.

// The pins, how many bytes there are of the strip and of the frame, the colour of the frame's pixels, and another at a place.
type Row = (usize, usize, usize, u8, u8, usize);

// The refusals of reading back in their order; what is stray in CG1 and RG6, and what is not.
const REFUSALS: [Row; 11] = [
    (0x40, 0, 0, 9, 9, 0),
    (0x00, 0, 0, 9, 9, 0),
    (0x20, 3071, 0, 9, 9, 0),
    (0x20, 3072, 49151, 9, 9, 0),
    (0x20, 3072, 49152, 9, 9, 0),
    (0x2E, 6144, 49152, 8, 1, 49151),
    (0x20, 3072, 49152, 0, 1, 5),
    (0x20, 3072, 49152, 0, 1, 4),
    (0x20, 3072, 49152, 0, 4, 8),
    (0x2E, 6144, 49152, 8, 0, 49151),
    (0x30, 8192, 50000, 0, 9, 49152),
];

// Reads back a frame of one colour but for the pixel at a place, of buffers as long as told.
fn read_back(rt: &impl Print, row: Row) -> io::Result<()> {
    let (pins, strip, frame, colour, pixel, place) = row;
    let mut pixels = [colour; 50000];
    put(&mut pixels, place, pixel);
    let mut buffer = [0u8; 8192];
    mark(&mut buffer);
    let room = strip.min(buffer.len());
    let told = Answered(back::read_back(look_of(pins), cut(&pixels, frame), &mut buffer[..room]));
    print!(rt;
        "back pins {pins:02X} strip {strip} frame {frame} all {colour} but {pixel} at {place}"
    )?;
    println!(rt; ": {told}, strip kept from {}", unchanged_from(&buffer))
}

// All of those.
fn refusals(rt: &impl Print) -> io::Result<()> {
    for row in REFUSALS {
        read_back(rt, row)?;
    }
    Ok(())
}

// == Strips read back from drawn frames, by their sums.

// Draws a strip of varied bytes, reads the frame back, and prints the sum of what is read.
fn drawn_and_back(rt: &impl Print, pins: usize) -> io::Result<()> {
    let mut strip = [0u8; 6144];
    let mut frame = [0u8; 49152];
    lay(&mut strip, 0, 1, 61);
    let _ = frame::draw(look_of(pins), &[], &strip, &mut frame);
    let mut again = [0u8; 6144];
    let answer = back::read_back(look_of(pins), &frame, &mut again);
    let sum = sum(cut(&again, answer::value(answer)));
    println!(rt;
        "drawn and back pins {pins:02X}: {}, sum {sum}",
        Answered(answer)
    )
}

// Every graphics mode with either CSS.
fn looks(rt: &impl Print) -> io::Result<()> {
    for pins in 0x20..0x30 {
        drawn_and_back(rt, pins)?;
    }
    Ok(())
}

fn main(rt: HostRuntime) -> io::Result<()> {
    let rt = Output { rt };
    refusals(&rt)?;
    looks(&rt)
}
