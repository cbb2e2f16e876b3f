// Reads arguments, whole files and standard input, and says in a sentence which file cannot be read.
ghost use Rattle.std.specs.Prelude.{◌≡◌, ◌≤◌, length, IfOk, IfSome, OnOk, IsUtf8};

use arrayvec::ArrayString;
use std::env::FillError;
use std::fmt::Write;
use std::fs::File;
use std::io::{Error, ErrorKind, Read, Result as IoResult};
use std::os::fd::AsRawFd;
use std::rt::{Env, Files};
use std::str;

// The system takes no path of so many bytes.
pub const LONGEST_PATH: usize = 4096;

const STDIN_FILENO: i32 = 0;

const STDERR_FILENO: i32 = 2;

// Why a program stops before its work is done: what failed has been said on standard error.
#[derive(Clone, Copy)]
pub struct Failure;

// Reads the argument of that number, where there is one, and lends it. One that has more bytes than there is room for is empty.
pub fn argument<'a>(rt: &impl Env, i: usize, room: &'a mut [u8]) -> Option<&'a [u8]>
    ensures { IfSome result (λ bytes. length bytes.now ≤ length room.old) }
{
    match rt.arg(i, room) {
        Ok(n) => Some(&room[..n]),
        Err(FillError::TooLong) => Some(&room[..0]),
        Err(FillError::NotPresent) => None,
    }
}

// A path as std takes it, which is text.
pub(crate) fn path_text(path: &[u8]) -> IoResult<&str>
    ensures same { IfOk result (λ text. text.now ≡ path.now) }
    ensures named { OnOk result (IsUtf8 path.now) }
{
    str::from_utf8(path).map_err(|_| Error::new(
        ErrorKind::InvalidFilename,
        "The name is not UTF-8 text",
    ))
}

// Says who failed at what, of which file, and why. What standard error does not take is lost.
pub(crate) fn say(rt: &impl Eprint, who: &str, what: &str, path: &[u8], reason: &str) {
    let _ = eprint!(rt; "{who}: {what} ");
    // Kept as io::write_all: because a path may be no text, and Eprint takes nothing else.
    io::write_all(STDERR_FILENO, path);
    let _ = eprintln!(rt; ": {reason}");
}

// The reason in an error's text: std puts the system's number behind it.
fn reason(text: &str) -> &str {
    match text.split_once(" (os error ") {
        Some((reason, _)) => reason,
        None => text,
    }
}

// Says it with the system's reason, and answers the failure that is told. The text of every error has room here.
pub(crate) fn complain(
    rt: &impl Eprint,
    who: &str,
    what: &str,
    path: &[u8],
    error: &Error,
) -> Failure {
    let mut text = ArrayString::<512>::new();
    let _ = write!(text, "{error}");
    say(rt, who, what, path, reason(text.as_str()));
    Failure
}

// Reads as far as there is room, and lends what was read. One read more then answers 0, and an error where it cannot be read.
// Kept as two steps: because `read_to_end` would stop at a terminal's first end of input, where this asks once more.
fn fill<'a, R: Read>(fd: i32, again: &mut R, room: &'a mut [u8]) -> IoResult<&'a [u8]>
    ensures { IfOk result (λ bytes. length bytes.now ≤ length room.old) }
{
    let n = io::read_full(fd, room);
    if n < room.len() && again.read(&mut [0u8; 1])? != 0 {
        return Err(Error::from(ErrorKind::Interrupted));
    }
    Ok(&room[..n])
}

// Opens a file and reads it.
fn open_and_fill<'a>(
    rt: &impl Files<File = File>,
    path: &[u8],
    room: &'a mut [u8],
) -> IoResult<&'a [u8]>
    ensures within { IfOk result (λ bytes. length bytes.now ≤ length room.old) }
    ensures named { OnOk result (IsUtf8 path.now) }
{
    let mut file = File::open(rt, path_text(path)?)?;
    fill(file.as_raw_fd(), &mut file, room)
}

// Reads a file, as far as there is room, and lends what was read.
pub fn read<'a>(
    rt: &(impl Files<File = File> + Eprint),
    who: &str,
    path: &[u8],
    room: &'a mut [u8],
) -> Result<&'a [u8], Failure>
    ensures within { IfOk result (λ bytes. length bytes.now ≤ length room.old) }
    ensures named { OnOk result (IsUtf8 path.now) }
{
    open_and_fill(rt, path, room).map_err(|error| complain(rt, who, "cannot read", path, &error))
}

// Reads standard input, as far as there is room, and lends what was read.
pub fn read_input<'a>(rt: &impl Input, room: &'a mut [u8]) -> IoResult<&'a [u8]>
    ensures { IfOk result (λ bytes. length bytes.now ≤ length room.old) }
{
    fill(STDIN_FILENO, &mut rt.reader(), room)
}
