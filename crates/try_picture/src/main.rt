// Tries pictures made and read again: each refusal, and what is no picture. Prints a line for each call.
#![tactic(auto)]

use answer::Answer;
use std::{fmt, io};
use trial::{Answered, Output, cut, mark, put, sum, unchanged_from};

// Puts varied pixels everywhere: those of a line differ from those above and below.
fn vary(s: &mut [u8]) {
    for (i, pixel) in s.iter_mut().enumerate() {
        *pixel = ((i + i / 61) % 9) as u8;
    }
}

// A varied frame, with three pixels behind it that are no colours.
fn varied() -> [u8; 49155] {
    let mut frame = [255u8; 49155];
    vary(&mut frame[..49152]);
    frame
}

// Prints an answer, from where on the buffer was kept, and where something was stored the sum of that.
fn tell_of(rt: &impl Print, answer: Answer, buffer: &[u8], stored: usize) -> io::Result<()> {
    print!(rt;
        ": {}, kept from {}",
        Answered(answer),
        unchanged_from(buffer)
    )?;
    if answer.is_ok() {
        print!(rt; ", sum {}", sum(cut(buffer, stored)))?;
    }
    println!(rt; "")
}

// == Pictures that are made.

// The border, how many pixels are lent, and how many bytes there is room for.
type Row = (u8, usize, usize);

// Makes the picture of as many pixels as told, in a buffer as long as told.
// Called, as the three that hold buffers below: what one of them needs is given back before the next.
#[inline(never)]
fn encode(rt: &impl Print, row: Row, frame: &[u8]) -> io::Result<()> {
    let (border, lent, size) = row;
    let mut buffer = [0u8; 38750];
    mark(&mut buffer);
    let room = size.min(buffer.len());
    let answer = picture::encode(border, cut(frame, lent), &mut buffer[..room]);
    print!(rt; "encode border {border} pixels {lent} room {size}")?;
    tell_of(rt, answer, &buffer, 38747)
}

// Makes the pictures of a frame by the rows.
fn encode_all(rt: &impl Print, rows: &[Row], frame: &[u8]) -> io::Result<()> {
    for &row in rows {
        encode(rt, row, frame)?;
    }
    Ok(())
}

// Makes the picture of one colour, border and frame.
#[inline(never)]
fn plain(rt: &impl Print, colour: u8) -> io::Result<()> {
    encode(rt, (colour, 49152, 38747), &[colour; 49152])
}

// Makes the picture of a varied frame with another pixel at a place.
#[inline(never)]
fn stained(rt: &impl Print, border: u8, pixel: u8, place: usize) -> io::Result<()> {
    let mut frame = varied();
    put(&mut frame, place, pixel);
    encode(rt, (border, 49152, 38747), cut(&frame, 49152))
}

// Varied frames with some borders, frames of one colour, and pixels behind a frame's last.
fn pictures(rt: &impl Print, frame: &[u8]) -> io::Result<()> {
    let bordered = [
        (0, 49152, 38747),
        (4, 49152, 38747),
        (8, 49152, 38747),
        (7, 49152, 38750),
    ];
    encode_all(rt, &bordered, frame)?;
    plain(rt, 0)?;
    plain(rt, 8)?;
    encode(rt, (4, 49155, 38747), frame)
}

// The refusals of making a picture in their order.
fn refusals(rt: &impl Print, frame: &[u8]) -> io::Result<()> {
    encode(rt, (4, 49151, 38747), frame)?;
    encode(rt, (9, 49151, 0), frame)?;
    stained(rt, 4, 9, 0)?;
    stained(rt, 4, 255, 49151)?;
    encode(rt, (9, 49152, 38747), frame)?;
    stained(rt, 255, 9, 49151)?;
    encode(rt, (4, 49152, 38746), frame)?;
    encode(rt, (9, 49152, 38746), frame)
}

// == Files read: a picture, and what is none.

// A file that is made of a picture: itself, with a byte more behind it, with the lowest bit of a byte turned over, with byte 3968 set, or cut short.
#[derive(Clone, Copy)]
enum File {
    Picture,
    ByteMore,
    Changed(usize),
    Set(u8),
    Cut(usize),
}

impl fmt::Display for File {
    fn fmt<W: fmt::Write>(&self, f: &mut fmt::Formatter<W>) -> fmt::Result {
        match *self {
            File::Picture => write!(f, "a picture"),
            File::ByteMore => write!(f, "a picture and a byte more"),
            File::Changed(place) => write!(f, "byte {place} changed"),
            File::Set(byte) => write!(f, "byte 3968 set to {byte}"),
            File::Cut(length) => write!(f, "a picture cut to {length} bytes"),
        }
    }
}

impl File {
    // Makes it of a picture with a byte behind it, and hands back how many bytes it has.
    fn make(self, bytes: &mut [u8]) -> usize {
        match self {
            File::Picture => 38747,
            File::ByteMore => 38748,
            File::Changed(place) => {
                if let Some(byte) = bytes.get_mut(place) {
                    *byte ^= 1;
                }
                38747
            }
            File::Set(byte) => {
                put(bytes, 3968, byte);
                38747
            }
            File::Cut(length) => length,
        }
    }
}

// A picture, in a longer buffer too, and with a byte behind it; a byte changed in each part of a picture, and one set to what no two pixels
// make; a picture cut short; and a buffer that is too short.
const FILES: [(File, usize); 22] = [
    (File::Picture, 49152),
    (File::Picture, 49155),
    (File::ByteMore, 49152),
    (File::Changed(0), 49152),
    (File::Changed(20), 49152),
    (File::Changed(45), 49152),
    (File::Changed(83), 49152),
    (File::Changed(87), 49152),
    (File::Changed(88), 49152),
    (File::Changed(3968), 49152),
    (File::Changed(38727), 49152),
    (File::Changed(38731), 49152),
    (File::Changed(38746), 49152),
    (File::Set(144), 49152),
    (File::Cut(0), 49152),
    (File::Cut(50), 49152),
    (File::Cut(88), 49152),
    (File::Cut(89), 49152),
    (File::Cut(20000), 49152),
    (File::Cut(38746), 49152),
    (File::Picture, 49151),
    (File::Changed(38731), 49151),
];

// Reads a file made of a frame's picture into a buffer as long as told, which is printed where it is not a frame's length.
#[inline(never)]
fn decode(rt: &impl Print, made: File, size: usize, frame: &[u8]) -> io::Result<()> {
    let mut file = [0u8; 38748];
    let _ = picture::encode(4, frame, &mut file);
    let length = made.make(&mut file);
    let mut buffer = [0u8; 49155];
    mark(&mut buffer);
    let room = size.min(buffer.len());
    let answer = picture_back::decode(cut(&file, length), &mut buffer[..room]);
    print!(rt; "decode {made}")?;
    if size != 49152 {
        print!(rt; ", room {size}")?;
    }
    tell_of(rt, answer, &buffer, 49152)
}

// Pictures of a varied frame, refusals, and files read.
fn main(rt: HostRuntime) -> io::Result<()> {
    let rt = Output { rt };
    let frame = varied();
    pictures(&rt, &frame)?;
    refusals(&rt, &frame)?;
    for (made, size) in FILES {
        decode(&rt, made, size, &frame)?;
    }
    Ok(())
}
