// Tries sheets: each corner of document 01's sheet, refused with its place or accepted with its fields. Prints a line for each.
#![tactic(auto)]

use arrayvec::ArrayVec;
use std::io;
use std::io::{Cursor, Write};
use trial::{NumberAndPlace, Output, Quoted, RuleNumber, cut};

// Reads a sheet, and prints what it yields: its fields, the deed, the first annotation, the last, and one past the last.
fn read(rt: &impl Print, sheet: &[u8]) -> io::Result<()> {
    let s = sheet::read(sheet);
    let (pins, writes, annotations) = (s.pins, s.write_count, s.annotations);
    print!(rt;
        ": {} pins {pins:02X} rule {}",
        NumberAndPlace(s.answer),
        RuleNumber(s.rule)
    )?;
    print!(rt;
        " writes {writes} annotations {annotations} deed {}",
        Quoted(sheet::deed(sheet))
    )?;
    print!(rt; " first {}", Quoted(sheet::annotation(sheet, 0)))?;
    if 0 < annotations {
        print!(rt;
            " last {}",
            Quoted(sheet::annotation(sheet, annotations - 1))
        )?;
    }
    println!(rt; " past {}", Quoted(sheet::annotation(sheet, annotations)))
}

// == Corners of a sheet's lines.

// The deed's line, and the pins'.
const HEADS: [&[u8]; 9] = [
    b"",
    b"deed=\n",
    b"dee",
    b"deed=K",
    b"deed=K\r\n",
    b"deed=AAAAAAAAAAAAAAAAA\n",
    b"deed=K\npins=2a\nwrites=0\n",
    b"deed=K\npins=2\n",
    b"deed=K\npins=200\n",
];

// The number of writes.
const COUNTS: [&[u8]; 6] = [
    b"writes=65\n",
    b"writes=00\n",
    b"writes=07\n",
    b"writes=7x\n",
    b"writes=\n",
    b"writes=640\n",
];

// The rule, given and broken.
const RULES: [&[u8]; 12] = [
    b"rule=1\nwrites=0\n",
    b"rule=2\nwrites=0\n",
    b"rule=2\nwrites=0\nrule=3\n",
    b"rule=2\nrule=2\nwrites=0\n",
    b"rule=0\nwrites=0\n",
    b"rule=3\n",
    b"rule=\n",
    b"rule=12\n",
    b"rules=1\n",
    b"rul",
    b"rule=2",
    b"rule=2\nwrites=65\n",
];

// The writes.
const WRITES: [&[u8]; 5] = [b"colour=\n", b"a-=\n", b"at=FFc1\n", b"at=FFC1\n", b""];

// Annotations refused, after a sheet without.
const REFUSED: [&[u8]; 9] = [
    b"",
    b"deed=x\n",
    b"pins=20\n",
    b"writes=0\n",
    b"at=0000\n",
    b"aaaaaaaaaaaaaaaaa=\n",
    b"=x\n",
    b"\n",
    b"a=x",
];

// Annotations accepted.
const ACCEPTED: [&[u8]; 5] = [
    b"deeds=x\n",
    b"aaaaaaaaaaaaaaaa=\n",
    b"a=x\r\n",
    b"a==\x00\xff\x80=\n",
    b"a=1\na=2\nb=3\n",
];

// Prints each sheet that goes on from a head, and what it yields. None of them has more bytes than there is room for.
fn corners(rt: &impl Print, head: &[u8], rests: &[&[u8]]) -> io::Result<()> {
    for &rest in rests {
        let mut sheet = ArrayVec::<u8, 512>::new();
        let _ = sheet.write(head);
        let _ = sheet.write(rest);
        print!(rt; "{}", Quoted(&sheet))?;
        read(rt, &sheet)?;
    }
    Ok(())
}

// == Long sheets.

// A sheet that goes on from a head by writes, by lines with keys and values as long as told, and by some bytes more.
#[derive(Clone, Copy)]
struct Long<'a> {
    head: &'a [u8],
    writes: usize,
    keys: usize,
    values: usize,
    lines: usize,
    more: usize,
}

// Appends a piece some times, as far as there is room.
fn append(sheet: &mut impl Write, piece: &[u8], count: usize) {
    for _ in 0..count {
        let _ = sheet.write(piece);
    }
}

impl Long<'_> {
    // One of its lines. The longest that is tried has 138 bytes.
    fn line(self) -> ArrayVec<u8, 256> {
        let mut line = ArrayVec::new();
        append(&mut line, b"k", self.keys);
        append(&mut line, b"=", 1);
        append(&mut line, b"v", self.values);
        append(&mut line, b"\n", 1);
        line
    }

    // Puts its bytes at the start of a buffer, and hands back how many they are.
    fn lay(self, buffer: &mut [u8]) -> usize {
        let line = self.line();
        let mut sheet = Cursor::new(buffer);
        append(&mut sheet, self.head, 1);
        append(&mut sheet, b"at=FFC1\n", self.writes);
        append(&mut sheet, &line, self.lines);
        append(&mut sheet, b"a", self.more);
        sheet.position() as usize
    }

    // Prints what it is, and what it yields. The longest that is tried has 28,159 bytes.
    fn read(self, rt: &impl Print) -> io::Result<()> {
        let mut buffer = [0u8; 28160];
        let len = self.lay(&mut buffer);
        let sheet = cut(&buffer, len);
        print!(rt;
            "writes {}, {} lines with keys of {} and values of {}, {} more, {} bytes",
            self.writes,
            self.lines,
            self.keys,
            self.values,
            self.more,
            sheet.len()
        )?;
        read(rt, sheet)
    }
}

// Short lines on a sheet without notes: as many as told, with values as long as told.
fn lines(rt: &impl Print, values: usize, lines: usize) -> io::Result<()> {
    let long = Long {
        head: b"deed=K\npins=20\nwrites=0\n",
        writes: 0,
        keys: 1,
        values,
        lines,
        more: 0,
    };
    long.read(rt)
}

// The longest sheet that goes on from a head, and a byte more.
fn longest(rt: &impl Print, head: &[u8]) -> io::Result<()> {
    for more in [0, 1] {
        let long = Long {
            head,
            writes: 64,
            keys: 16,
            values: 120,
            lines: 200,
            more,
        };
        long.read(rt)?;
    }
    Ok(())
}

// A value one byte too long and the longest, a line too many and the most; the longest sheet and a byte more, without the rule and with it.
fn longs(rt: &impl Print) -> io::Result<()> {
    lines(rt, 121, 1)?;
    lines(rt, 120, 1)?;
    lines(rt, 0, 201)?;
    lines(rt, 0, 200)?;
    longest(rt, b"deed=----------------\npins=FF\nwrites=64\n")?;
    longest(rt, b"deed=----------------\npins=FF\nrule=2\nwrites=64\n")
}

fn main(rt: HostRuntime) -> io::Result<()> {
    let rt = Output { rt };
    corners(&rt, b"", &HEADS)?;
    corners(&rt, b"deed=K\npins=20\n", &COUNTS)?;
    corners(&rt, b"deed=K\npins=20\n", &RULES)?;
    corners(&rt, b"deed=K\npins=20\nwrites=1\n", &WRITES)?;
    corners(&rt, b"deed=K\npins=20\nwrites=0\n", &REFUSED)?;
    corners(&rt, b"deed=K\npins=20\nwrites=0\n", &ACCEPTED)?;
    corners(&rt, b"deed=----------------\npins=FF\nwrites=0\n", &[b""])?;
    longs(&rt)
}
