// Tries both at once: each refusal, buffers of all lengths, banks that are not fitted, bytes that are not valid, and pairs of modes, under rule 2 too, by the sums of strip and frame.
// Prints a line for each call.
#![tactic(auto)]

use settings::FRAME_LENGTH;
use std::io;
use trial::{Answered, Output, Under, cut, lay, mark, put, settings_of, sum, unchanged_from};

// == Refusals and their order, with every buffer held against what it was before.

// The word, the pins, and how many bytes there are of the image, the font, the strip and the frame.
type Row = (usize, usize, usize, usize, usize, usize);

// The refusals of both at once in their order, of internal text and graphics.
const REFUSALS: [Row; 12] = [
    (0x1000, 0x40, 65535, 0, 0, 0),
    (0x5000, 0x40, 65536, 1152, 8192, 50000),
    (0x5000, 0x64, 65536, 1152, 8192, 50000),
    (0x1000, 0x10, 65535, 0, 0, 0),
    (0x1000, 0x00, 65535, 0, 0, 0),
    (0x0000, 0x00, 65535, 0, 0, 0),
    (0x4000, 0x00, 65536, 1151, 0, 0),
    (0x4000, 0x00, 65536, 1152, 6143, 0),
    (0x4000, 0x20, 65536, 1151, 3071, 0),
    (0x4000, 0x00, 65536, 1152, 6144, 49151),
    (0x4000, 0x00, 65536, 1152, 6144, 49152),
    (0x4000, 0x20, 65536, 0, 8192, 50000),
];

// Those of external text, of an image that has bytes of 128 or more in its window.
const EXTERNAL_REFUSALS: [Row; 7] = [
    (0x1000, 0x50, 65535, 0, 0, 0),
    (0x0000, 0x10, 65535, 0, 0, 0),
    (0x4000, 0x10, 65536, 1152, 0, 0),
    (0x4000, 0x10, 65536, 3072, 6143, 0),
    (0x4000, 0x10, 65536, 3072, 6144, 49151),
    (0x4000, 0x10, 65536, 3072, 6144, 49152),
    (0x4000, 0x1F, 65536, 3072, 8192, 50000),
];

// Those of 16 and 17: 16 before 6 and alone, 7 and 8 before 17, 17 before 15 and alone, and both banks fitted.
const BANK_REFUSALS: [Row; 8] = [
    (0x0000, 0x00, 65536, 0, 0, 0),
    (0x6000, 0x20, 32768, 0, 8192, 50000),
    (0x0040, 0x10, 4096, 3072, 6143, 0),
    (0x0006, 0x10, 4096, 3072, 6144, 49151),
    (0x0006, 0x10, 4096, 3072, 6144, 49152),
    (0x0040, 0x00, 4096, 1152, 8192, 50000),
    (0x0006, 0x2E, 4096, 0, 8192, 50000),
    (0x0006, 0x2E, 8192, 0, 8192, 50000),
];

// Both at once on marked buffers as long as told.
fn show(rt: &impl Print, row: Row, bytes: &[u8], patterns: &[u8]) -> io::Result<()> {
    let (word, pins, image, font, strip, frame) = row;
    let mut fetched = [0u8; 8192];
    let mut buffer = [0u8; 50000];
    mark(&mut fetched);
    mark(&mut buffer);
    let strip_room = strip.min(fetched.len());
    let frame_room = frame.min(buffer.len());
    let told = Answered(screen::show(
        settings_of(word, pins, 1),
        cut(bytes, image),
        cut(patterns, font),
        &mut fetched[..strip_room],
        &mut buffer[..frame_room],
    ));
    print!(rt; "show word {word:04X} pins {pins:02X} image {image} font {font}")?;
    print!(rt; " strip {strip} frame {frame}: {told}")?;
    print!(rt; ", strip kept from {}", unchanged_from(&fetched))?;
    println!(rt; ", frame kept from {}", unchanged_from(&buffer))
}

// Both at once for each of some rows.
fn show_each(rt: &impl Print, rows: &[Row], bytes: &[u8], patterns: &[u8]) -> io::Result<()> {
    for &row in rows {
        show(rt, row, bytes, patterns)?;
    }
    Ok(())
}

// == Bytes that external text does not show.

// The word, the pins, how long the image is, its other byte, and the two places of that.
type Marred = (usize, usize, usize, u8, usize, usize);

// In the window, where the first fetch is told, and beside it; with windows elsewhere and one that comes round.
// Then before a bank that is not fitted, and beside such a window.
const NOT_VALID: [Marred; 11] = [
    (0x0000, 0x10, 4096, 0x80, 0, 511),
    (0x0000, 0x10, 4096, 0xFF, 511, 31),
    (0x0000, 0x10, 4096, 0x80, 511, 511),
    (0x0000, 0x10, 4096, 0x80, 512, 4095),
    (0x0008, 0x10, 4096, 0x80, 511, 1024),
    (0x0008, 0x10, 4096, 0x80, 512, 511),
    (0x0004, 0x1F, 4096, 0x80, 2047, 2048),
    (0x007E, 0x10, 8192, 0x80, 0, 7679),
    (0x0006, 0x1F, 4096, 0x80, 2047, 2048),
    (0x003E, 0x10, 4096, 0x80, 0, 3583),
    (0x0000, 0x10, 4096, 0x7F, 0, 511),
];

// Both at once of an image of letters, as long as told, that has another byte at two places.
fn marred(rt: &impl Print, row: Marred, font: &[u8]) -> io::Result<()> {
    let (word, pins, image, byte, first, second) = row;
    let mut letters = [b'A'; 8192];
    put(&mut letters, first, byte);
    put(&mut letters, second, byte);
    print!(rt; "byte {byte:02X} at {first} and {second}, ")?;
    show(
        rt,
        (word, pins, image, font.len(), 6144, 49152),
        &letters,
        font,
    )
}

// All of those, and then one in internal text.
fn not_valid(rt: &impl Print, own: &[u8], rom: &[u8]) -> io::Result<()> {
    for row in NOT_VALID {
        marred(rt, row, rom)?;
    }
    marred(rt, (0x0000, 0x00, 4096, 0x80, 0, 511), own)
}

// == The ordinary pairs of modes.

// The word, the pins, the rule, and how long the strip is.
type Pair = (usize, usize, usize, usize);

// Text, then each graphics mode, with the SAM mode that goes with it.
const PAIRS: [Pair; 9] = [
    (0x4000, 0x00, 1, 6144),
    (0x4001, 0x20, 1, 3072),
    (0x4001, 0x22, 1, 3072),
    (0x4002, 0x24, 1, 6144),
    (0x4003, 0x26, 1, 3072),
    (0x4004, 0x28, 1, 6144),
    (0x4005, 0x2A, 1, 3072),
    (0x4006, 0x2C, 1, 6144),
    (0x4006, 0x2E, 1, 6144),
];

// Under rule 2: two ordinary pairs, and two in which it counts at every line's end.
const PAIRS_2: [Pair; 4] = [
    (0x4000, 0x00, 2, 6144),
    (0x4001, 0x20, 2, 3072),
    (0x4000, 0x20, 2, 3072),
    (0x4006, 0x26, 2, 3072),
];

// Both at once, with a strip as long as it has to be, and the sums of strip and frame.
fn pair(rt: &impl Print, row: Pair, image: &[u8], font: &[u8]) -> io::Result<()> {
    let (word, pins, rule, strip) = row;
    let mut fetched = [0u8; 6144];
    let mut frame = [0u8; FRAME_LENGTH];
    let room = strip.min(fetched.len());
    let fetched = &mut fetched[..room];
    let settings = settings_of(word, pins, rule);
    let told = Answered(screen::show(settings, image, font, fetched, &mut frame));
    print!(rt;
        "{}show word {word:04X} pins {pins:02X}: {told}",
        Under(settings.rule)
    )?;
    println!(rt; ", strip sum {}, frame sum {}", sum(fetched), sum(&frame))
}

// Both at once for each of some pairs.
fn pair_each(rt: &impl Print, rows: &[Pair], image: &[u8], font: &[u8]) -> io::Result<()> {
    for &row in rows {
        pair(rt, row, image, font)?;
    }
    Ok(())
}

// All of them, by the internal font and the external character ROM. The last has one bank, and under rule 2 it comes to the other.
fn shows(rt: &impl Print, image: &[u8], letters: &[u8], font: &[u8]) -> io::Result<()> {
    let own = cut(font, 1152);
    show_each(rt, &REFUSALS, image, own)?;
    show_each(rt, &EXTERNAL_REFUSALS, image, font)?;
    show_each(rt, &BANK_REFUSALS, image, font)?;
    not_valid(rt, own, font)?;
    pair_each(rt, &PAIRS, image, own)?;
    pair(rt, (0x4000, 0x10, 1, 6144), letters, font)?;
    pair_each(rt, &PAIRS_2, image, own)?;
    pair(rt, (0x003A, 0x20, 2, 3072), cut(image, 4096), own)
}

// An image and a font of varied bytes, and an image whose first 640 bytes are letters.
fn main(rt: HostRuntime) -> io::Result<()> {
    let rt = Output { rt };
    let mut image = [0u8; 65536];
    let mut letters = [0u8; 65536];
    let mut font = [0u8; 3072];
    lay(&mut image, 0, 1, 61);
    lay(&mut letters, 0, 0, 5);
    mark(&mut font);
    shows(&rt, &image, &letters, &font)
}
