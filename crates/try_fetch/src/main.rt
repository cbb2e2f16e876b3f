// Tries fetching: the addresses of document 01's figures, each refusal, buffers of all lengths, and whole strips by their sums; then rule 2, the banks of an image,
// and how many image bytes are touched.
// Prints a line for each.
#![tactic(auto)]

use counter::Counter;
use settings::Settings;
use std::io;
use trial::{
    Answered, Figure, Output, Under, byte_at, cut, lay, mark, settings_of, sum, unchanged_from,
};

// == Addresses: figures P5 to P9, by the counter and by fetching.

// A figure, the word, the pins, the rule, and a line and a byte of it. Kept as a tuple, as the rows of the other tables: because a name at every
// number would break a table that has a line a call.
type Place = (Option<u8>, usize, usize, usize, u8, u8);

// The figures.
const ADDRESSES: [Place; 10] = [
    (Some(5), 0x0011, 0x20, 1, 2, 15),
    (Some(5), 0x0011, 0x20, 1, 3, 0),
    (Some(5), 0x0011, 0x20, 1, 191, 15),
    (Some(6), 0x0000, 0x00, 1, 12, 0),
    (Some(6), 0x0000, 0x00, 1, 191, 31),
    (Some(7), 0x03FE, 0x2E, 1, 15, 31),
    (Some(7), 0x03FE, 0x2E, 1, 16, 0),
    (Some(8), 0x0000, 0x20, 1, 100, 0),
    (Some(9), 0x0001, 0x00, 1, 0, 16),
    (Some(9), 0x0001, 0x00, 1, 1, 16),
];

// Figure P8 and its neighbours under rule 2, each other Y, a window that comes round, B4 kept, and B4 not set.
const ADDRESSES_2: [Place; 10] = [
    (Some(8), 0x0000, 0x20, 2, 100, 0),
    (None, 0x0000, 0x20, 2, 11, 15),
    (None, 0x0000, 0x20, 2, 12, 0),
    (None, 0x0002, 0x22, 2, 191, 15),
    (None, 0x0004, 0x26, 2, 191, 15),
    (None, 0x0006, 0x2A, 2, 191, 0),
    (None, 0x03FE, 0x20, 2, 16, 0),
    (None, 0x0001, 0x20, 2, 191, 15),
    (None, 0x0000, 0x00, 2, 191, 31),
    (None, 0x0001, 0x00, 2, 1, 16),
];

// The counter after some bytes.
fn bytes_on(settings: Settings, from: Counter, bytes: usize) -> Counter {
    let mut counter = from;
    for _ in 0..bytes {
        counter = counter.advance(settings);
    }
    counter
}

// The counter before a line's first byte.
fn line_start(settings: Settings, line: u8) -> Counter {
    let mut counter = counter::start(settings);
    for _ in 0..line {
        let end = bytes_on(settings, counter, settings::width(settings.look));
        counter = end.clear(settings);
    }
    counter
}

// The byte at a place of the strip that is fetched from an image of 65,536 bytes, with M1 set for that length.
fn fetched(word: usize, pins: usize, rule: usize, image: &[u8], k: usize) -> usize {
    let mut strip = [0u8; 6144];
    let settings = settings_of(word % 16384 + 0x4000, pins, rule);
    strip::fetch(settings, image, &mut strip);
    byte_at(&strip, k)
}

// The address of a line's byte by the counter, and by what is fetched from the two images.
#[tactic(auto, using(settings::proofs::Widths::width_le))]
fn address(rt: &impl Print, row: Place, low: &[u8], high: &[u8]) -> io::Result<()> {
    let (figure, word, pins, rule, line, byte) = row;
    let settings = settings_of(word, pins, rule);
    let counter = bytes_on(settings, line_start(settings, line), usize::from(byte));
    let k = settings::width(settings.look) * usize::from(line) + usize::from(byte);
    print!(rt; "{}{}word {word:04X}", Figure(figure), Under(settings.rule))?;
    print!(rt;
        " pins {pins:02X} line {line} byte {byte}: address {:04X}",
        counter.address
    )?;
    let high_byte = fetched(word, pins, rule, high, k);
    let low_byte = fetched(word, pins, rule, low, k);
    println!(rt; ", fetched {high_byte:02X}{low_byte:02X}")
}

// The addresses of each of some rows.
fn address_each(rt: &impl Print, rows: &[Place], low: &[u8], high: &[u8]) -> io::Result<()> {
    for &row in rows {
        address(rt, row, low, high)?;
    }
    Ok(())
}

// == Refusals and their order, and lengths, with the strip held against what it was before.

// The word, the pins, the rule, and how many bytes there are of the image and of the strip.
type Row = (usize, usize, usize, usize, usize);

// The refusals of fetching in their order, but for 16 and 17, each with later conditions holding too, or alone.
const REFUSALS: [Row; 10] = [
    (0x1000, 0x40, 1, 65535, 0),
    (0x5000, 0x40, 1, 65536, 8192),
    (0x5000, 0x64, 1, 65536, 8192),
    (0x1000, 0x10, 1, 65535, 0),
    (0x5000, 0x1F, 1, 65536, 8192),
    (0x1000, 0x20, 1, 65535, 0),
    (0x5000, 0x00, 1, 65536, 8192),
    (0x0000, 0x20, 1, 65535, 0),
    (0x0000, 0x00, 1, 0, 8192),
    (0x4000, 0x20, 1, 65536, 0),
];

// Image lengths: none of the five, then some of them with M1, M0 that they are suited to.
const IMAGES: [Row; 8] = [
    (0x0000, 0x20, 1, 4095, 8192),
    (0x0000, 0x20, 1, 4097, 8192),
    (0x0000, 0x20, 1, 12288, 8192),
    (0x0000, 0x20, 1, 65535, 8192),
    (0x0000, 0x20, 1, 4096, 8192),
    (0x0000, 0x20, 1, 8192, 8192),
    (0x2000, 0x20, 1, 16384, 8192),
    (0x2000, 0x20, 1, 32768, 8192),
];

// Strip lengths, one byte short and just right, of external text too, which fetching gives with bytes of 128 or more; INT/EXT with A/G = 1; P, R0 and TY.
const STRIPS: [Row; 9] = [
    (0x4000, 0x20, 1, 65536, 3071),
    (0x4000, 0x20, 1, 65536, 3072),
    (0x4000, 0x00, 1, 65536, 6143),
    (0x4000, 0x00, 1, 65536, 6144),
    (0x4000, 0x10, 1, 65536, 6143),
    (0x4000, 0x10, 1, 65536, 6144),
    (0x4000, 0x2E, 1, 65536, 6143),
    (0x4000, 0x30, 1, 65536, 8192),
    (0xEC00, 0x2E, 1, 65536, 8192),
];

// Under rule 2: a refusal, and a strip one byte short and just right.
const STRIPS_2: [Row; 3] = [
    (0x5000, 0x20, 2, 65536, 8192),
    (0x4000, 0x20, 2, 65536, 3071),
    (0x4000, 0x20, 2, 65536, 3072),
];

// Fetches to marked strips, of buffers as long as told.
fn fetch_each(rt: &impl Print, rows: &[Row], bytes: &[u8]) -> io::Result<()> {
    for &(word, pins, rule, image, strip) in rows {
        let mut buffer = [0u8; 8192];
        mark(&mut buffer);
        let room = strip.min(buffer.len());
        let settings = settings_of(word, pins, rule);
        let f = strip::fetch(settings, cut(bytes, image), &mut buffer[..room]);
        print!(rt;
            "{}fetch word {word:04X} pins {pins:02X}",
            Under(settings.rule)
        )?;
        print!(rt; " image {image} strip {strip}: {}", Answered(f.answer))?;
        println!(rt;
            ", touched {}, strip kept from {}",
            f.touched,
            unchanged_from(&buffer)
        )?;
    }
    Ok(())
}

// == Whole strips by their sums.

// The word, the pins, the rule, and how long the image is.
type Image = (usize, usize, usize, usize);

// The first word of eight, the pins, and how long the image is.
type Window = (usize, usize, usize);

// Text, internal and external, then each graphics mode.
const SUMS: [Window; 10] = [
    (0x4000, 0x00, 65536),
    (0x4000, 0x10, 65536),
    (0x4000, 0x20, 65536),
    (0x4000, 0x22, 65536),
    (0x4000, 0x24, 65536),
    (0x4000, 0x26, 65536),
    (0x4000, 0x28, 65536),
    (0x4000, 0x2A, 65536),
    (0x4000, 0x2C, 65536),
    (0x4000, 0x2E, 65536),
];

// Starts 512 bytes before FFFF is passed, before a bank that is not fitted, before the end of two banks, and before the second.
const ENDS: [Window; 7] = [
    (0x43F8, 0x20, 65536),
    (0x43F8, 0x2E, 65536),
    (0x03F8, 0x2E, 8192),
    (0x0038, 0x2E, 4096),
    (0x0078, 0x20, 8192),
    (0x20F8, 0x2E, 32768),
    (0x21F8, 0x00, 32768),
];

// Fetches the strip of an image as long as told, and prints how many bytes are touched, and its sum.
fn strip_sum(rt: &impl Print, row: Image, bytes: &[u8]) -> io::Result<()> {
    let (word, pins, rule, image) = row;
    let mut strip = [0u8; 6144];
    let settings = settings_of(word, pins, rule);
    let f = strip::fetch(settings, cut(bytes, image), &mut strip);
    let fetched = cut(&strip, answer::value(f.answer));
    print!(rt;
        "{}strip word {word:04X} pins {pins:02X}",
        Under(settings.rule)
    )?;
    print!(rt; " image {image}: {}", Answered(f.answer))?;
    println!(rt; ", touched {}, sum {}", f.touched, sum(fetched))
}

// The strips of each of some rows.
fn sum_each(rt: &impl Print, rows: &[Image], bytes: &[u8]) -> io::Result<()> {
    for &row in rows {
        strip_sum(rt, row, bytes)?;
    }
    Ok(())
}

// Every SAM mode from a word on.
fn modes(rt: &impl Print, window: Window, rule: usize, bytes: &[u8]) -> io::Result<()> {
    let (word, pins, image) = window;
    for mode in 0..8 {
        strip_sum(rt, (word | mode, pins, rule, image), bytes)?;
    }
    Ok(())
}

// Every SAM mode of each of some windows.
fn modes_each(rt: &impl Print, windows: &[Window], rule: usize, bytes: &[u8]) -> io::Result<()> {
    for &window in windows {
        modes(rt, window, rule, bytes)?;
    }
    Ok(())
}

// == The banks of an image, by M1, M0.

// Each M1, M0 with the lengths that are not suited to it, and 11 with the one that is.
const SUITED: [Row; 15] = [
    (0x0000, 0x20, 1, 16384, 8192),
    (0x0000, 0x20, 1, 32768, 8192),
    (0x0000, 0x20, 1, 65536, 8192),
    (0x2000, 0x20, 1, 4096, 8192),
    (0x2000, 0x20, 1, 8192, 8192),
    (0x2000, 0x20, 1, 65536, 8192),
    (0x4000, 0x20, 1, 4096, 8192),
    (0x4000, 0x20, 1, 8192, 8192),
    (0x4000, 0x20, 1, 16384, 8192),
    (0x4000, 0x20, 1, 32768, 8192),
    (0x6000, 0x20, 1, 4096, 8192),
    (0x6000, 0x20, 1, 8192, 8192),
    (0x6000, 0x20, 1, 16384, 8192),
    (0x6000, 0x20, 1, 32768, 8192),
    (0x6000, 0x20, 1, 65536, 8192),
];

// What comes before 16, then 16 before 7, and 7 before 17.
const ORDERS: [Row; 8] = [
    (0x0000, 0x40, 1, 65536, 8192),
    (0x1000, 0x20, 1, 65536, 8192),
    (0x2000, 0x20, 1, 65535, 8192),
    (0x6000, 0x20, 1, 12288, 8192),
    (0x0000, 0x20, 1, 65536, 0),
    (0x2000, 0x00, 1, 8192, 6143),
    (0x0040, 0x20, 1, 4096, 3071),
    (0x2100, 0x00, 1, 16384, 6143),
];

// Windows that begin in a bank that is not fitted, that come to one on a later line, and that do so under rule 2 only.
const NOT_FITTED: [Row; 13] = [
    (0x0040, 0x20, 1, 4096, 3072),
    (0x03FE, 0x2E, 1, 4096, 8192),
    (0x2100, 0x00, 1, 16384, 6144),
    (0x23FE, 0x2E, 1, 16384, 8192),
    (0x0006, 0x2E, 1, 4096, 8192),
    (0x0039, 0x20, 1, 4096, 8192),
    (0x20AE, 0x2E, 1, 16384, 8192),
    (0x22FD, 0x2A, 1, 16384, 8192),
    (0x20AE, 0x2E, 2, 16384, 8192),
    (0x003A, 0x20, 1, 4096, 8192),
    (0x003A, 0x20, 2, 4096, 8192),
    (0x20FE, 0x20, 1, 16384, 8192),
    (0x20FE, 0x20, 2, 16384, 8192),
];

// Windows that have the fitted bank alone, then those above with both banks fitted.
const FITTED: [Image; 11] = [
    (0x00A1, 0x20, 1, 4096),
    (0x20A6, 0x2E, 1, 16384),
    (0x220E, 0x2E, 1, 16384),
    (0x0040, 0x20, 1, 8192),
    (0x2100, 0x00, 1, 32768),
    (0x0006, 0x2E, 1, 8192),
    (0x0039, 0x20, 1, 8192),
    (0x20AE, 0x2E, 1, 32768),
    (0x22FD, 0x2A, 1, 32768),
    (0x003A, 0x20, 2, 8192),
    (0x20FE, 0x20, 2, 32768),
];

// Past FFFF, M1, M0 = 11 as 10, then sums and refusals again with P, R0 and TY set.
const BITS: [Image; 9] = [
    (0x23FE, 0x2E, 1, 32768),
    (0x23F9, 0x20, 1, 32768),
    (0x63FE, 0x2E, 1, 65536),
    (0x63F9, 0x20, 1, 65536),
    (0x8C06, 0x2E, 1, 8192),
    (0xAFFE, 0x2E, 1, 32768),
    (0xCFFE, 0x2E, 1, 65536),
    (0x8C39, 0x20, 1, 4096),
    (0x8C00, 0x20, 1, 65536),
];

// == How many image bytes are touched, of each SAM mode in one line; none where the window is refused.

// Each M1, M0 but 10, with each length that is suited to it: boards with one bank from a bank that is fitted on, and others from 512 bytes before FFFF is passed.
const WINDOWS: [(usize, usize); 5] = [
    (0x0080, 4096),
    (0x03F8, 8192),
    (0x2200, 16384),
    (0x23F8, 32768),
    (0x63F8, 65536),
];

// Text, internal and external, and each graphics mode, then rule 2.
const LOOKS: [(usize, usize); 11] = [
    (0x00, 1),
    (0x10, 1),
    (0x20, 1),
    (0x22, 1),
    (0x24, 1),
    (0x26, 1),
    (0x28, 1),
    (0x2A, 1),
    (0x2C, 1),
    (0x2E, 1),
    (0x20, 2),
];

// Starts from which some SAM modes come to a bank that is not fitted.
const COMING: [Image; 5] = [
    (0x0038, 0x20, 1, 4096),
    (0x0038, 0x20, 2, 4096),
    (0x20D0, 0x20, 2, 16384),
    (0x20D0, 0x2E, 1, 16384),
    (0x20D0, 0x2E, 2, 16384),
];

// How many are touched in an image as long as told.
fn touched(row: Image, bytes: &[u8]) -> usize {
    let (word, pins, rule, image) = row;
    let mut strip = [0u8; 6144];
    let f = strip::fetch(settings_of(word, pins, rule), cut(bytes, image), &mut strip);
    f.touched
}

// Every SAM mode from a word on.
fn counts(rt: &impl Print, row: Image, bytes: &[u8]) -> io::Result<()> {
    let (word, pins, rule, image) = row;
    let settings = settings_of(word, pins, rule);
    print!(rt;
        "{}touched word {word:04X} pins {pins:02X} image {image}:",
        Under(settings.rule)
    )?;
    for mode in 0..8 {
        print!(rt; " {}", touched((word | mode, pins, rule, image), bytes))?;
    }
    println!(rt; "")
}

// Every window under one look and rule.
fn windows(rt: &impl Print, pins: usize, rule: usize, bytes: &[u8]) -> io::Result<()> {
    for (word, image) in WINDOWS {
        counts(rt, (word, pins, rule, image), bytes)?;
    }
    Ok(())
}

// Every window under each look.
fn all_windows(rt: &impl Print, bytes: &[u8]) -> io::Result<()> {
    for (pins, rule) in LOOKS {
        windows(rt, pins, rule, bytes)?;
    }
    Ok(())
}

// Every SAM mode from each of some words on.
fn counts_each(rt: &impl Print, rows: &[Image], bytes: &[u8]) -> io::Result<()> {
    for &row in rows {
        counts(rt, row, bytes)?;
    }
    Ok(())
}

// All of them: rule 1, rule 2, the banks, and what is touched.
fn fetches(rt: &impl Print, low: &[u8], high: &[u8], varied: &[u8]) -> io::Result<()> {
    address_each(rt, &ADDRESSES, low, high)?;
    fetch_each(rt, &REFUSALS, low)?;
    fetch_each(rt, &IMAGES, low)?;
    fetch_each(rt, &STRIPS, low)?;
    modes_each(rt, &SUMS, 1, varied)?;
    modes_each(rt, &ENDS, 1, varied)?;
    address_each(rt, &ADDRESSES_2, low, high)?;
    fetch_each(rt, &STRIPS_2, low)?;
    modes_each(rt, &SUMS, 2, varied)?;
    modes_each(rt, &ENDS, 2, varied)?;
    fetch_each(rt, &SUITED, low)?;
    fetch_each(rt, &ORDERS, low)?;
    fetch_each(rt, &NOT_FITTED, low)?;
    sum_each(rt, &FITTED, varied)?;
    sum_each(rt, &BITS, varied)?;
    all_windows(rt, varied)?;
    counts_each(rt, &COMING, varied)
}

// Two images that tell the low and the high bytes of their addresses, and one in which no two rows or columns of a chip are alike.
fn main(rt: HostRuntime) -> io::Result<()> {
    let rt = Output { rt };
    let mut low = [0u8; 65536];
    let mut high = [0u8; 65536];
    let mut varied = [0u8; 65536];
    lay(&mut low, 0, 1, 0);
    lay(&mut high, 0, 0, 256);
    lay(&mut varied, 0, 1, 61);
    fetches(&rt, &low, &high, &varied)
}
