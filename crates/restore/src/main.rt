// The strip out of a picture: from the picture file of a graphics screen to the strip that it shows, by the pins.
#![tactic(auto)]

ghost use Rattle.std.specs.Prelude.{◌<◌, IfSome};

use answer::{Answer, Refusal};
use files::{Failure, LONGEST_PATH};
use picture::FILE_LENGTH;
use settings::{FRAME_LENGTH, Look};
use std::fs::File;
use std::io;
use std::rt::{Env, Files};

// How each sentence on standard error begins.
const WHO: &str = "restore";

// The value of a hex digit in capitals.
// Kept as a match: because `char::to_digit` takes small letters too, which no sheet has.
fn digit(b: u8) -> Option<u8>
    ensures { IfSome result (λ value. value < 16) }
{
    match b {
        b'0'..=b'9' => Some(b - b'0'),
        b'A'..=b'F' => Some(b - b'A' + 10),
        _ => None,
    }
}

// The pins of two hex digits, as they stand on a sheet.
fn pins_in(word: &[u8]) -> Option<u8> {
    let [high, low] = word else {
        return None;
    };
    let high = digit(*high)?;
    let low = digit(*low)?;
    Some(high * 16 + low)
}

// Prints what was answered, in the report's manner.
fn print(rt: &impl Print, answer: Answer) -> io::Result<()> {
    match answer {
        Ok(_) => println!(rt; "status=0"),
        Err(refusal) => println!(rt; "{refusal}"),
    }
}

// Says what was answered.
fn tell(rt: &(impl Print + Eprint), answer: Answer) {
    if print(rt, answer).is_err() {
        let _ = eprintln!(rt; "restore: the output is not whole");
    }
}

// Takes the strip out of a picture file, and lends it.
fn strip_of<'a>(pins: u8, png: &[u8], strip: &'a mut [u8]) -> Result<&'a [u8], Refusal> {
    let mut frame = [0u8; FRAME_LENGTH];
    picture_back::decode(png, &mut frame)?;
    let len = back::read_back(Look { pins }, &frame, strip)?;
    Ok(&strip[..len.min(strip.len())])
}

// Keeps a strip under a name that is free, and says so once it is on the disk.
fn keep(
    rt: &(impl Files<File = File> + Print + Eprint),
    path: &[u8],
    strip: &[u8],
) -> Result<(), Failure> {
    files::check_free(rt, WHO, path)?;
    files::write_new(rt, WHO, path, strip)?;
    tell(rt, Ok(strip.len()));
    Ok(())
}

// Restores the strip of a picture file.
fn restore(
    rt: &(impl Files<File = File> + Print + Eprint),
    pins: u8,
    png: &[u8],
    path: &[u8],
) -> Result<(), Failure> {
    let mut strip = [0u8; 6144];
    match strip_of(pins, png, &mut strip) {
        Ok(strip) => keep(rt, path, strip),
        Err(refusal) => {
            tell(rt, Err(refusal));
            Ok(())
        }
    }
}

// Reads the picture, with a byte more than every picture has, and restores its strip.
fn by_names(
    rt: &(impl Files<File = File> + Print + Eprint),
    pins: u8,
    picture: &[u8],
    strip: &[u8],
) -> Result<(), Failure> {
    let mut png = [0u8; FILE_LENGTH + 1];
    let png = files::read(rt, WHO, picture, &mut png)?;
    restore(rt, pins, png, strip)
}

// Says what the arguments are.
fn explain(rt: &impl Eprint) {
    let _ = eprintln!(rt;
        "restore: give PINS PICTURE STRIP; PINS are two hex digits as on a sheet"
    );
}

// Restores by three arguments; a fourth is enough to see that there are too many.
fn run(rt: &(impl Env + Files<File = File> + Print + Eprint)) -> Result<(), Failure> {
    let mut word = [0u8; LONGEST_PATH];
    let mut picture = [0u8; LONGEST_PATH];
    let mut strip = [0u8; LONGEST_PATH];
    let mut more = [0u8; 1];
    let given = [
        files::argument(rt, 1, &mut word),
        files::argument(rt, 2, &mut picture),
        files::argument(rt, 3, &mut strip),
        files::argument(rt, 4, &mut more),
    ];
    if let [Some(word), Some(picture), Some(strip), None] = given
        && let Some(pins) = pins_in(word)
    {
        return by_names(rt, pins, picture, strip);
    }
    explain(rt);
    Ok(())
}

// What failed of a file has been told.
fn main(rt: HostRuntime) {
    let _ = run(&rt);
}
