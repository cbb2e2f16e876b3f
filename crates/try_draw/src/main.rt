// Tries drawing: the dots of document 01's figures, letters, blocks and external text, all letters under each text look, each refusal, and whole frames by their sums.
// Prints a line for each.
#![tactic(auto)]

use std::io;
use std::ops::Range;
use trial::{Answered, Figure, Output, cut, lay, look_of, mark, sum, unchanged_from};

// == Dots: figures P10 to P12, the text figures, and corners of the modes.

// A figure, the pins, the byte that the strip has throughout, and the line whose first dots are printed.
type Dots = (Option<u8>, usize, u8, u8);

// The figures of graphics.
const GRAPHICS: [Dots; 2] = [(Some(10), 0x20, 0x1B, 0), (Some(11), 0x2F, 0xA5, 0)];

// Letters: inverted by DD6, exchanged by GM1, the two colours, other rows; with GM0 = 1 the same from 32 on.
const LETTERS: [Dots; 11] = [
    (None, 0x00, 0x41, 0),
    (None, 0x00, 0x01, 0),
    (None, 0x01, 0x41, 0),
    (None, 0x04, 0x41, 0),
    (None, 0x00, 0x41, 12),
    (None, 0x00, 0x41, 11),
    (None, 0x02, 0x61, 0),
    (None, 0x02, 0x41, 0),
    (None, 0x02, 0x21, 0),
    (None, 0x00, 0x21, 0),
    (None, 0x06, 0x61, 0),
];

// Lower case: dark on colour, exchanged by GM1, in orange; its first and last byte, and the byte after.
const LOWER_CASE: [Dots; 6] = [
    (None, 0x02, 0x01, 0),
    (None, 0x06, 0x01, 0),
    (None, 0x03, 0x01, 0),
    (None, 0x02, 0x00, 0),
    (None, 0x02, 0x1F, 0),
    (None, 0x02, 0x20, 0),
];

// Semigraphics 4: the unlit part is black in every colour, and GM does not matter.
const BLOCKS: [Dots; 9] = [
    (Some(12), 0x00, 0xB9, 5),
    (Some(12), 0x00, 0xB9, 6),
    (None, 0x00, 0xB9, 11),
    (None, 0x00, 0xB9, 12),
    (None, 0x04, 0xB9, 5),
    (None, 0x0F, 0xB9, 5),
    (None, 0x00, 0x80, 0),
    (None, 0x00, 0x90, 0),
    (None, 0x01, 0xFF, 0),
];

// External text: its first and last byte, on each side of DD6, GM0 without effect, exchanged by GM1, in orange; and a byte of 128.
const EXTERNAL: [Dots; 11] = [
    (None, 0x10, 0x01, 0),
    (None, 0x10, 0x00, 0),
    (None, 0x10, 0x3F, 11),
    (None, 0x10, 0x40, 12),
    (None, 0x10, 0x41, 0),
    (None, 0x10, 0x7F, 191),
    (None, 0x12, 0x01, 0),
    (None, 0x12, 0x61, 0),
    (None, 0x14, 0x41, 0),
    (None, 0x11, 0x41, 0),
    (None, 0x10, 0x80, 0),
];

// Draws a strip that has one byte throughout, and prints the answer and the dots of a line's first byte.
fn dots(rt: &impl Print, row: Dots, font: &[u8]) -> io::Result<()> {
    let (figure, pins, byte, line) = row;
    let look = look_of(pins);
    let mut frame = [0u8; 49152];
    let told = Answered(frame::draw(look, font, &[byte; 6144], &mut frame));
    print!(rt; "{}pins {pins:02X} byte {byte:02X}", Figure(figure))?;
    print!(rt; " line {line}: {told}, dots")?;
    let wide = if settings::width(look) == 16 { 16 } else { 8 };
    for pixel in frame.iter().skip(usize::from(line) * 256).take(wide) {
        print!(rt; " {pixel}")?;
    }
    println!(rt; "")
}

// The dots of each of some rows.
fn dots_each(rt: &impl Print, rows: &[Dots], font: &[u8]) -> io::Result<()> {
    for &row in rows {
        dots(rt, row, font)?;
    }
    Ok(())
}

// == Every look: the last line's first dots of one byte, and the sum of a whole frame.

// Draws a frame, and prints its sum.
fn frame_sum(rt: &impl Print, pins: usize, font: &[u8], strip: &[u8]) -> io::Result<()> {
    let mut frame = [0u8; 49152];
    let told = Answered(frame::draw(look_of(pins), font, strip, &mut frame));
    println!(rt; "frame pins {pins:02X}: {told}, sum {}", sum(&frame))
}

// Some looks: modes, or text looks, with either CSS; their borders are the values.
fn looks(
    rt: &impl Print,
    pins: Range<usize>,
    byte: u8,
    font: &[u8],
    strip: &[u8],
) -> io::Result<()> {
    for look in pins {
        dots(rt, (None, look, byte, 191), font)?;
        frame_sum(rt, look, font, strip)?;
    }
    Ok(())
}

// == All 128 letters under each of the text looks, by the sums of whole frames.

// The sum of a frame of sixteen letters, one below the other, each on all its twelve rows.
fn letters_sum(pins: usize, first: u8, font: &[u8]) -> usize {
    let mut strip = [0u8; 6144];
    let mut frame = [0u8; 49152];
    lay(&mut strip, first, 0, 384);
    let _ = frame::draw(look_of(pins), font, &strip, &mut frame);
    sum(&frame)
}

// All letters under one look, a sum for each sixteen.
fn all_letters(rt: &impl Print, pins: usize, font: &[u8]) -> io::Result<()> {
    print!(rt; "letters pins {pins:02X}, sums")?;
    for first in [0x00, 0x10, 0x20, 0x30, 0x40, 0x50, 0x60, 0x70] {
        print!(rt; " {}", letters_sum(pins, first, font))?;
    }
    println!(rt; "")
}

// All letters under some looks.
fn letters_looks(rt: &impl Print, pins: Range<usize>, font: &[u8]) -> io::Result<()> {
    for look in pins {
        all_letters(rt, look, font)?;
    }
    Ok(())
}

// == Refusals and their order, with the frame held against what it was before.

// The pins, and how many bytes there are of the font, the strip and the frame.
type Row = (usize, usize, usize, usize);

// The refusals of internal text and graphics in their order; the font's length is not asked for in graphics.
const REFUSALS: [Row; 11] = [
    (0x40, 0, 0, 0),
    (0x00, 1151, 0, 0),
    (0x00, 1153, 8192, 50000),
    (0x00, 1152, 6143, 0),
    (0x20, 1151, 3071, 0),
    (0x00, 1152, 6144, 49151),
    (0x20, 0, 3072, 49151),
    (0x00, 1152, 6144, 49152),
    (0x20, 0, 3072, 49152),
    (0x30, 1151, 8192, 50000),
    (0x00, 3072, 8192, 50000),
];

// Those of external text, of a strip that has bytes of 128 or more.
const EXTERNAL_REFUSALS: [Row; 9] = [
    (0x50, 0, 0, 0),
    (0x10, 0, 0, 0),
    (0x10, 1152, 8192, 50000),
    (0x10, 3071, 8192, 50000),
    (0x10, 3073, 8192, 50000),
    (0x10, 3072, 6143, 0),
    (0x10, 3072, 6144, 49151),
    (0x10, 3072, 6144, 49152),
    (0x1F, 3072, 8192, 50000),
];

// Draws on marked frames, of buffers as long as told.
fn draw_each(rt: &impl Print, rows: &[Row], patterns: &[u8], bytes: &[u8]) -> io::Result<()> {
    for &(pins, font, strip, frame) in rows {
        let mut buffer = [0u8; 50000];
        mark(&mut buffer);
        let room = frame.min(buffer.len());
        let told = Answered(frame::draw(
            look_of(pins),
            cut(patterns, font),
            cut(bytes, strip),
            &mut buffer[..room],
        ));
        print!(rt; "draw pins {pins:02X} font {font} strip {strip} frame {frame}")?;
        println!(rt; ": {told}, frame kept from {}", unchanged_from(&buffer))?;
    }
    Ok(())
}

// Graphics and internal text, by its font.
fn own_draws(rt: &impl Print, font: &[u8], strip: &[u8]) -> io::Result<()> {
    dots_each(rt, &GRAPHICS, font)?;
    dots_each(rt, &BLOCKS, font)?;
    dots_each(rt, &LETTERS, font)?;
    dots_each(rt, &LOWER_CASE, font)?;
    looks(rt, 0x20..0x30, 0x1B, font, strip)?;
    looks(rt, 0x00..0x10, 0x41, font, strip)?;
    letters_looks(rt, 0x00..0x10, font)
}

// External text, by the external character ROM, from a strip of letters.
fn external_draws(rt: &impl Print, rom: &[u8], strip: &[u8]) -> io::Result<()> {
    dots_each(rt, &EXTERNAL, rom)?;
    looks(rt, 0x10..0x20, 0x41, rom, strip)?;
    letters_looks(rt, 0x10..0x20, rom)
}

// All of them; the font and the strips have bytes too many, to be refused or passed over.
fn draws(rt: &impl Print, font: &[u8], strip: &[u8], letters: &[u8]) -> io::Result<()> {
    own_draws(rt, cut(font, 1152), strip)?;
    external_draws(rt, cut(font, 3072), letters)?;
    draw_each(rt, &REFUSALS, font, strip)?;
    draw_each(rt, &EXTERNAL_REFUSALS, font, strip)
}

// A font that is marked, by one more from each 64th pattern on, so that no two patterns are alike, with a row of its own for pattern 1; a
// strip of varied bytes, and one whose first 6,144 bytes are letters.
fn main(rt: HostRuntime) -> io::Result<()> {
    let rt = Output { rt };
    let mut font = [0u8; 3073];
    let mut strip = [0u8; 8192];
    let mut letters = [0u8; 8192];
    lay(&mut font, 131, 5, 768);
    font[12] = 0x18;
    lay(&mut strip, 0, 1, 61);
    lay(&mut letters, 0, 0, 61);
    draws(&rt, &font, &strip, &letters)
}
