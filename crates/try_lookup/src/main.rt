// Tries keys in a record's sheet and a cover: which of the two has each, and the value given. Prints a line for each.
#![tactic(auto)]

use arrayvec::ArrayVec;
use std::io;
use std::io::Write;
use trial::{Answered, Output, Quoted};

// A record's sheet, and the cover of its batch.
#[derive(Clone, Copy)]
struct RecordAndCover<'a> {
    record: &'a [u8],
    cover: &'a [u8],
}

impl RecordAndCover<'_> {
    // Prints both.
    fn show(self, rt: &impl Print) -> io::Result<()> {
        println!(rt;
            "record {} cover {}",
            Quoted(self.record),
            Quoted(self.cover)
        )
    }

    // Asks for a key, and prints the answer and the value.
    fn ask(self, rt: &impl Print, key: &[u8]) -> io::Result<()> {
        let holder = Answered(lookup::holder(self.record, self.cover, key));
        let value = Quoted(lookup::value(self.record, self.cover, key));
        println!(rt; "{}: {holder} {value}", Quoted(key))
    }

    // Asks for each of some keys.
    fn ask_each(self, rt: &impl Print, keys: &[&[u8]]) -> io::Result<()> {
        for &key in keys {
            self.ask(rt, key)?;
        }
        Ok(())
    }

    // Prints both, and asks for each of some keys.
    fn try_keys(self, rt: &impl Print, keys: &[&[u8]]) -> io::Result<()> {
        self.show(rt)?;
        self.ask_each(rt, keys)
    }

    // Asks for the keys of a long sheet's lines, and for one that only begins like the last.
    fn ask_lines(self, rt: &impl Print, which: &str) -> io::Result<()> {
        for key in LINES {
            print!(rt; "200 lines, {which} ")?;
            self.ask(rt, key)?;
        }
        Ok(())
    }
}

const RECORD: &[u8] =
    b"deed=K-104\npins=20\nwrites=1\nat=FFC1\nplan-note=north corner\ncolour=\nplan-note=second\na=b=c\n";

const COVER: &[u8] =
    b"deed=B-7\npins=00\nwrites=0\nparish=Aldmere\ncolour=red\nparish=Thornby\nplan=whole batch\n";

// A sheet with no annotation; others go on from it.
const BARE: &[u8] = b"deed=B-7\npins=00\nwrites=0\n";

// A cover with keys and values as long as may be, and a value of any bytes.
const WIDE: &[u8] =
    b"deed=B-7\npins=00\nwrites=0\naaaaaaaaaaaaaaa=first\naaaaaaaaaaaaaaaa=second\nv=vvvvvvvvvvvvvvvvvvvvvvvvvvvvvvvvvvvvvvvvvvvvvvvvvvvvvvvvvvvvvvvvvvvvvvvvvvvvvvvvvvvvvvvvvvvvvvvvvvvvvvvvvvvvvvvvvvvvvvvv\nbytes=\x00\xff\x0d==\n";

// A sheet that is refused.
const BROKEN: &[u8] = b"deed=B-7\npins=00\nwrites=0\nat=red\n";

// Keys that one sheet or both have, or that only begin like one.
const KEYS: [&[u8]; 8] = [
    b"plan-note",
    b"colour",
    b"parish",
    b"plan",
    b"a",
    b"plan-not",
    b"plan-note-",
    b"note",
];

// What can be no key.
const NO_KEYS: [&[u8]; 12] = [
    b"",
    b"deed",
    b"pins",
    b"writes",
    b"at",
    b"a=",
    b"a=b",
    b"Parish",
    b"parish\n",
    b"\nparish",
    b"plan-note=north corner",
    b"aaaaaaaaaaaaaaaaa",
];

// The keys of the wide cover, one that is longer than a key, and one that it has not.
const WIDE_KEYS: [&[u8]; 6] = [
    b"aaaaaaaaaaaaaaa",
    b"aaaaaaaaaaaaaaaa",
    b"aaaaaaaaaaaaaaaaa",
    b"v",
    b"bytes",
    b"rule",
];

// The keys of a long sheet's lines, and one that only begins like the last.
const LINES: [&[u8]; 3] = [b"k", b"last", b"las"];

// Two sheets of some.
fn sheets<'a>(record: &'a [u8], cover: &'a [u8]) -> RecordAndCover<'a> {
    RecordAndCover { record, cover }
}

// Keys that may be had and keys that may not, either way round and in one sheet twice.
fn keys(rt: &impl Print) -> io::Result<()> {
    let given = sheets(RECORD, COVER);
    given.try_keys(rt, &KEYS)?;
    given.ask_each(rt, &NO_KEYS)?;
    sheets(COVER, RECORD).try_keys(rt, &KEYS)?;
    sheets(RECORD, RECORD).try_keys(rt, &[b"a", b"parish"])
}

// The wide cover of a record without notes; then two sheets without notes.
fn wide(rt: &impl Print) -> io::Result<()> {
    sheets(BARE, WIDE).try_keys(rt, &WIDE_KEYS)?;
    sheets(BARE, BARE).try_keys(rt, &[b"a"])
}

// Sheets that are refused: the record's, the cover, both, and an empty one.
fn brokens(rt: &impl Print) -> io::Result<()> {
    sheets(BROKEN, COVER).try_keys(rt, &[b"parish", b"at"])?;
    sheets(RECORD, BROKEN).try_keys(rt, &[b"plan-note", b"parish"])?;
    sheets(b"deed=K-104\npins=2x\n", BROKEN).try_keys(rt, &[b"plan-note"])?;
    sheets(RECORD, b"deed=B-7\npins=00\nwrites=0\npar").try_keys(rt, &[b"a"])?;
    sheets(RECORD, b"").try_keys(rt, &[b"a", b""])?;
    sheets(b"", COVER).try_keys(rt, &[b"parish"])
}

// A sheet of 200 annotations, of which the last alone has another key. There is room for all of it, and each write takes its bytes whole.
fn long() -> ArrayVec<u8, 831> {
    let mut sheet = ArrayVec::new();
    let _ = sheet.write(BARE);
    for _ in 0..199 {
        let _ = sheet.write(b"k=v\n");
    }
    let _ = sheet.write(b"last=200\n");
    sheet
}

fn main(rt: HostRuntime) -> io::Result<()> {
    let rt = Output { rt };
    keys(&rt)?;
    wide(&rt)?;
    brokens(&rt)?;
    let long = long();
    sheets(&long, BARE).ask_lines(&rt, "record")?;
    sheets(BARE, &long).ask_lines(&rt, "cover")?;
    sheets(&long, &long).ask_lines(&rt, "both")
}
