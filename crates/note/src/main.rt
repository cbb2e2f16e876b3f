// A clerk's note: the first value under a key in a record's sheet, or failing that on the cover of its batch.
#![tactic(auto)]

use answer::Refusal;
use files::{Failure, LONGEST_PATH};
use std::fmt::{Display, Formatter};
use std::fs::File;
use std::rt::{Env, Files};
use std::{fmt, io};

// How each sentence on standard error begins.
const WHO: &str = "note";

// Which of the two sheets is meant.
#[derive(Clone, Copy)]
enum Holder {
    Record,
    Cover,
}

impl Display for Holder {
    fn fmt<W: fmt::Write>(&self, f: &mut Formatter<W>) -> fmt::Result {
        f.write_str(match self {
            Holder::Record => "record",
            Holder::Cover => "cover",
        })
    }
}

// What is printed, in the report's manner.

// A note that was found: which sheet has it, and its bytes as they stand there.
fn print_value(rt: &impl Print, holder: Holder, value: &[u8]) -> io::Result<()> {
    print!(rt; "status=0\nsheet={holder}\nvalue=")?;
    rt.write_all(value)?;
    println!(rt)
}

// The sheet that is broken: the record's is told before the cover.
fn broken(record: &[u8]) -> Holder {
    match sheet::read(record).answer {
        Ok(_) => Holder::Cover,
        Err(_) => Holder::Record,
    }
}

// A refusal, and where a sheet is broken, which.
fn print_refusal(rt: &impl Print, refusal: Refusal, record: &[u8]) -> io::Result<()> {
    match refusal {
        Refusal::BrokenSheet(_) => {
            let answer = Err(refusal);
            let holder = broken(record);
            println!(rt;
                "status={}\nsheet={holder}\nplace={}",
                answer::number(answer),
                answer::place(answer)
            )
        }
        _ => println!(rt; "{refusal}"),
    }
}

// Asks for the key, and prints what the clerk is told.
fn print(rt: &impl Print, record: &[u8], cover: &[u8], key: &[u8]) -> io::Result<()> {
    // Kept as a number, 0 for the record's sheet: because `holder` is public, and `holder_told` in its contract has it so.
    match lookup::holder(record, cover, key) {
        Ok(0) => print_value(rt, Holder::Record, lookup::value(record, cover, key)),
        Ok(_) => print_value(rt, Holder::Cover, lookup::value(record, cover, key)),
        Err(refusal) => print_refusal(rt, refusal, record),
    }
}

// The arguments.

// Each sheet is read with a byte more than the longest that can be accepted: what lies past that changes nothing (`note_enough` of crate
// claims). Both are read before one that cannot be ends the program, so that each is named.
fn by_names(
    rt: &(impl Files<File = File> + Print + Eprint),
    key: &[u8],
    record: &[u8],
    cover: &[u8],
) -> Result<(), Failure> {
    let mut record_room = [0u8; 28160];
    let mut cover_room = [0u8; 28160];
    let record = files::read(rt, WHO, record, &mut record_room);
    let cover = files::read(rt, WHO, cover, &mut cover_room);
    if print(rt, record?, cover?, key).is_err() {
        let _ = eprintln!(rt; "note: the output is not whole");
    }
    Ok(())
}

// Asks by three arguments; a fourth is enough to see that there are too many. A key that is too long is asked for as an empty one:
// neither can be a key.
fn run(rt: &(impl Env + Files<File = File> + Print + Eprint)) -> Result<(), Failure> {
    let mut key = [0u8; LONGEST_PATH];
    let mut record = [0u8; LONGEST_PATH];
    let mut cover = [0u8; LONGEST_PATH];
    let mut more = [0u8; 1];
    let given = [
        files::argument(rt, 1, &mut key),
        files::argument(rt, 2, &mut record),
        files::argument(rt, 3, &mut cover),
        files::argument(rt, 4, &mut more),
    ];
    match given {
        [Some(key), Some(record), Some(cover), None] if !record.is_empty() && !cover.is_empty() => {
            by_names(rt, key, record, cover)
        }
        _ => {
            let _ = eprintln!(rt; "note: give KEY RECORD COVER, the last two paths of sheets");
            Ok(())
        }
    }
}

// What failed of a file has been told.
fn main(rt: HostRuntime) {
    let _ = run(&rt);
}
