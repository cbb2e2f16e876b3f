// The clerk's copy: from a sheet, an image and a font to the strip that is kept, the picture that is shown, and the report.
#![tactic(auto)]

use answer::Refusal;
use arrayvec::ArrayVec;
use files::{Failure, LONGEST_PATH};
use picture::FILE_LENGTH;
use report_text::Text;
use settings::FRAME_LENGTH;
use std::fs::File;
use std::io::Write;
use std::rt::{Env, Files};

// How each sentence on standard error begins.
const WHO: &str = "copy";

// The files: NAME is the fourth argument, and what each file is stands behind it.
#[derive(Drop)]
struct Paths {
    strip: ArrayVec<u8, LONGEST_PATH>,
    png: ArrayVec<u8, LONGEST_PATH>,
    report: ArrayVec<u8, LONGEST_PATH>,
}

// The path of one file, as much of it as there is room for. One that is cut here has as many bytes as the system takes in no path.
fn path(name: &[u8], suffix: &[u8]) -> ArrayVec<u8, LONGEST_PATH> {
    let mut path = ArrayVec::new();
    let _ = path.write(name);
    let _ = path.write(suffix);
    path
}

impl Paths {
    // The paths of a copy by its name.
    fn of(name: &[u8]) -> Paths {
        Paths {
            strip: path(name, b".strip"),
            png: path(name, b".png"),
            report: path(name, b".report"),
        }
    }
}

// Refuses a copy of which one file cannot be made without overwriting one.
fn check_free(rt: &(impl Files + Eprint), paths: &Paths) -> Result<(), Failure> {
    files::check_free(rt, WHO, &paths.strip)?;
    files::check_free(rt, WHO, &paths.png)?;
    files::check_free(rt, WHO, &paths.report)
}

// Removes a file that was made before another failed.
fn undo(rt: &(impl Files + Eprint), path: &[u8], failure: Failure) -> Result<(), Failure> {
    files::remove(rt, WHO, path)?;
    Err(failure)
}

// Makes the picture and the report behind the strip; where one of them fails, what was made before it is removed.
fn keep_rest(
    rt: &(impl Files<File = File> + Eprint),
    paths: &Paths,
    png: &[u8],
    report: &[u8],
) -> Result<(), Failure> {
    files::write_new(rt, WHO, &paths.png, png)?;
    files::write_new(rt, WHO, &paths.report, report).or_else(|failure| undo(
        rt, &paths.png, failure,
    ))
}

// Makes all three, the report last: a copy without its report is not whole.
fn keep_all(
    rt: &(impl Files<File = File> + Eprint),
    paths: &Paths,
    strip: &[u8],
    png: &[u8],
    report: &[u8],
) -> Result<(), Failure> {
    files::write_new(rt, WHO, &paths.strip, strip)?;
    keep_rest(rt, paths, png, report).or_else(|failure| undo(rt, &paths.strip, failure))
}

// The record.

// The bytes of a report. Kept here and in `report`: because one function for both would be a public one of `report_text`.
fn bytes_of(text: &Text) -> &[u8] {
    let bytes = &text.bytes[..];
    &bytes[..text.len.min(bytes.len())]
}

// Prints what the clerk is told of the record.
fn print(rt: &(impl Print + Eprint), report: &[u8]) {
    if rt.write_all(report).is_err() {
        let _ = eprintln!(rt; "copy: the output is not whole");
    }
}

// Keeps what was made of an accepted record, and prints its report once all of it is on the disk.
fn finish(
    rt: &(impl Files<File = File> + Print + Eprint),
    name: &[u8],
    sheet: &[u8],
    strip: &[u8],
    png: &[u8],
) -> Result<(), Failure> {
    let text = report_text::report(sheet);
    let report = bytes_of(&text);
    let paths = Paths::of(name);
    check_free(rt, &paths)?;
    keep_all(rt, &paths, strip, png, report)?;
    print(rt, report);
    Ok(())
}

// Makes the strip, which is lent, and the picture of what is shown; or answers who refused, the sheet first.
fn make<'a>(
    sheet: &[u8],
    image: &[u8],
    font: &[u8],
    strip: &'a mut [u8],
    png: &mut [u8],
) -> Result<&'a [u8], Refusal> {
    let mut frame = [0u8; FRAME_LENGTH];
    let taken = intake::settings_of(sheet);
    let settings = taken.settings;
    let look = settings.look;
    taken.answer?;
    screen::show(settings, image, font, strip, &mut frame)?;
    picture::encode(settings::border(look), &frame, png)?;
    Ok(&strip[..settings::strip_length(look).min(strip.len())])
}

// Copies a record, or prints the report of a refused one: the sheet's own refusal, or what came after it.
#[inline(never)]
fn copy(
    rt: &(impl Files<File = File> + Print + Eprint),
    sheet: &[u8],
    image: &[u8],
    font: &[u8],
    name: &[u8],
) -> Result<(), Failure> {
    let mut strip = [0u8; 6144];
    let mut png = [0u8; FILE_LENGTH];
    match make(sheet, image, font, &mut strip, &mut png) {
        Ok(strip) => finish(rt, name, sheet, strip, &png),
        Err(refusal) => {
            let text = report_text::report_after(sheet, Err(refusal));
            print(rt, bytes_of(&text));
            Ok(())
        }
    }
}

// The arguments.

// Reads the font, which is `-` where none is needed.
fn read_font<'a>(
    rt: &(impl Files<File = File> + Eprint),
    path: &[u8],
    room: &'a mut [u8],
) -> Result<&'a [u8], Failure> {
    match path {
        b"-" => Ok(&room[..0]),
        _ => files::read(rt, WHO, path, room),
    }
}

// Each file is read with a byte more than the longest that can be accepted: what lies past that changes nothing. Each has its room in a
// function of its own that is called, so that there is room for a file only once the file before it is read.

// Copies a record with the font that is named.
#[inline(never)]
fn with_font(
    rt: &(impl Files<File = File> + Print + Eprint),
    sheet: &[u8],
    image: &[u8],
    font: &[u8],
    name: &[u8],
) -> Result<(), Failure> {
    let mut room = [0u8; 4096];
    let font = read_font(rt, font, &mut room)?;
    copy(rt, sheet, image, font, name)
}

// Copies a record with the image that is named.
#[inline(never)]
fn with_image(
    rt: &(impl Files<File = File> + Print + Eprint),
    sheet: &[u8],
    image: &[u8],
    font: &[u8],
    name: &[u8],
) -> Result<(), Failure> {
    let mut room = [0u8; 65537];
    let image = files::read(rt, WHO, image, &mut room)?;
    with_font(rt, sheet, image, font, name)
}

// Copies the record of the sheet that is named.
#[inline(never)]
fn by_names(
    rt: &(impl Files<File = File> + Print + Eprint),
    sheet: &[u8],
    image: &[u8],
    font: &[u8],
    name: &[u8],
) -> Result<(), Failure> {
    let mut room = [0u8; 28160];
    let sheet = files::read(rt, WHO, sheet, &mut room)?;
    with_image(rt, sheet, image, font, name)
}

// Copies the record of four arguments; a fifth is enough to see that there are too many.
fn run(rt: &(impl Env + Files<File = File> + Print + Eprint)) -> Result<(), Failure> {
    let mut sheet = [0u8; LONGEST_PATH];
    let mut image = [0u8; LONGEST_PATH];
    let mut font = [0u8; LONGEST_PATH];
    let mut name = [0u8; LONGEST_PATH];
    let mut more = [0u8; 1];
    let given = [
        files::argument(rt, 1, &mut sheet),
        files::argument(rt, 2, &mut image),
        files::argument(rt, 3, &mut font),
        files::argument(rt, 4, &mut name),
        files::argument(rt, 5, &mut more),
    ];
    match given {
        [Some(sheet), Some(image), Some(font), Some(name), None] if !name.is_empty() => {
            by_names(rt, sheet, image, font, name)
        }
        _ => {
            let _ = eprintln!(rt;
                "copy: give SHEET IMAGE FONT NAME; FONT is - where no font is needed"
            );
            Ok(())
        }
    }
}

// What failed of a file has been told.
fn main(rt: HostRuntime) {
    let _ = run(&rt);
}
