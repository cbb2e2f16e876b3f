// Makes new files, flushed to the disk, and removes them; says in a sentence which cannot be written.
ghost use Rattle.std.specs.Prelude.{IsTrue, OnOk, OnErr, IsUtf8};

use crate::reading::{Failure, complain, path_text, say};
use std::fs;
use std::fs::File;
use std::io::{Result as IoResult, Write};
use std::rt::Files;

// Writes all bytes, flushes them to the disk and closes the file.
fn put(mut file: File, bytes: &[u8]) -> IoResult<()> {
    file.write_all(bytes)?;
    file.sync_all()
}

// The part of a path that names its folder: what stands up to the last slash.
fn folder(path: &[u8]) -> &[u8] {
    match path.iter().rposition(|b| *b == b'/') {
        Some(slash) => &path[..=slash],
        None => b".",
    }
}

// Flushes the folder in which a path lies, so that the names in it are on the disk.
fn put_folder(rt: &impl Files<File = File>, path: &[u8]) -> IoResult<()> {
    File::open(rt, path_text(folder(path))?)?.sync_all()
}

// Removes a name.
fn unlink(rt: &impl Files, path: &[u8]) -> IoResult<()>
    ensures { OnOk result (IsUtf8 path.now) }
{
    fs::remove_file(rt, path_text(path)?)
}

// Removes a file that was made.
pub fn remove(rt: &(impl Files + Eprint), who: &str, path: &[u8]) -> Result<(), Failure>
    ensures { OnOk result (IsUtf8 path.now) }
{
    unlink(rt, path).map_err(|error| complain(rt, who, "cannot remove", path, &error))
}

// Whether a name is taken, also by a link that leads nowhere: the link itself is looked at.
fn taken(rt: &impl Files, path: &[u8]) -> bool
    ensures { IsTrue result → IsUtf8 path.now }
{
    path_text(path).is_ok_and(|text| fs::symlink_metadata(rt, text).is_ok())
}

// Refuses a name under which a file would be overwritten, and says so.
pub fn check_free(rt: &(impl Files + Eprint), who: &str, path: &[u8]) -> Result<(), Failure>
    ensures { OnErr result (IsUtf8 path.now) }
{
    if taken(rt, path) {
        say(rt, who, "cannot write", path, "it is there already");
        return Err(Failure);
    }
    Ok(())
}

// Makes a file that was not there, and opens it to be written.
fn create(rt: &impl Files<File = File>, path: &[u8]) -> IoResult<File>
    ensures { OnOk result (IsUtf8 path.now) }
{
    File::options()
        .write(true)
        .create_new(true)
        .open(rt, path_text(path)?)
}

// Writes all bytes into a new file, and flushes it and its folder to the disk.
fn put_new(rt: &impl Files<File = File>, file: File, path: &[u8], bytes: &[u8]) -> IoResult<()> {
    put(file, bytes)?;
    put_folder(rt, path)
}

// Makes a file that was not there, with these bytes, and flushes it and its folder to the disk. Where that fails it is removed.
pub fn write_new(
    rt: &(impl Files<File = File> + Eprint),
    who: &str,
    path: &[u8],
    bytes: &[u8],
) -> Result<(), Failure>
    ensures { OnOk result (IsUtf8 path.now) }
{
    let file = create(rt, path).map_err(|error| complain(rt, who, "cannot write", path, &error))?;
    put_new(rt, file, path, bytes).or_else(|error| {
        let failure = complain(rt, who, "cannot write", path, &error);
        remove(rt, who, path)?;
        Err(failure)
    })
}
