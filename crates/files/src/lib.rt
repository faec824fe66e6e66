// What the programs read and write: thin, since no contract can say what a file holds.
#![tactic(auto)]

ghost use Rattle.std.specs.Prelude.{ℕ, ◌-◌, ◌≤◌, ◌<◌, ◌≡◌, ◌++◌, length, get_or, IfErr};
ghost use Rattle.std.specs.Io.{ReadsAtMost};
ghost use Rattle.io.specs.Counts.{IsPrefixLen};
ghost use Rattle.text.specs.Text.{text, decimal};

use std::fs::{OpenFile, OpenOptions, Permissions};
use std::io::{Error, ErrorKind, Read, Result, Write};
use std::os::unix::fs::{OpenOptionsExt, PermissionsExt};
use std::rt::Files;
use std::{fs, result};
use text::Text;

// A read that failed, and how many bytes had come before it.
#[derive(Clone, Copy)]
pub struct Cut {
    pub came: usize,
    pub why: Error,
}

// A file that could not be opened: nothing came.
impl From<Error> for Cut {
    ghost from_gives = { λ why cut. (cut.came ≡ 0) × (cut.why ≡ why) };

    fn from(why: Error) -> Cut {
        Cut { came: 0, why }
    }
}

// Reads until buf is full or the input ends, and tells how many bytes came, also where a read fails. A read moves the place on by what it says came, so no `for`
// counts it, and std has only `read_exact`, for which the end of the input is an error, and `read_to_end`, which needs a heap.
pub fn read_all<R: Read>(input: &mut R, buf: &mut [u8]) -> result::Result<usize, Cut>
    ensures all { ReadsAtMost result buf.new }
    ensures cut { IfErr result (λ cut. IsPrefixLen cut.came buf.new) }
{
    let mut done = 0;
    while done < buf.len() {
        let n = match input.read(&mut buf[done..]) {
            Ok(n) => n,
            Err(why) => return Err(Cut { came: done, why }),
        };
        if n == 0 {
            break;
        }
        done += n;
    }
    Ok(done)
}

// The library's paths are text in UTF-8; other bytes name no file here.
fn as_text(path: &[u8]) -> Result<&str> {
    str::from_utf8(path).map_err(|_| Error::from(ErrorKind::InvalidInput))
}

fn open_as<R: Files>(rt: &R, how: &OpenOptions, path: &[u8]) -> Result<R::File> {
    how.open(rt, as_text(path)?)
}

// To read it.
pub fn open<R: Files>(rt: &R, path: &[u8]) -> Result<R::File> {
    open_as(rt, OpenOptions::new().read(true), path)
}

// As much of the file as buf has room for.
pub fn load<R: Files>(rt: &R, path: &[u8], buf: &mut [u8]) -> result::Result<usize, Cut>
    ensures all { ReadsAtMost result buf.new }
    ensures cut { IfErr result (λ cut. IsPrefixLen cut.came buf.new) }
{
    let mut file = open(rt, path)?;
    read_all(&mut file, buf)
}

// Ok if a file may take this name: there is none, or there is one that we may write. A device or a pipe has nothing to sync, and
// renaming a file over it would take it away.
fn check_free<R: Files>(rt: &R, path: &[u8]) -> Result<()> {
    match open_as(rt, OpenOptions::new().read(true).write(true), path) {
        Ok(file) => file.sync_all(),
        Err(e) if e.kind() == ErrorKind::NotFound => Ok(()),
        Err(e) => Err(e),
    }
}

// All of the bytes, down to the disk, and the file is closed. A new file is its maker's alone; this one is for others to read. That is passed
// over where the file system keeps no modes: the bytes are what is asked for.
fn fill<F: Write + OpenFile + Drop>(mut file: F, bytes: &[u8]) -> Result<()> {
    let written = file.write_all(bytes);
    let _ = file.set_permissions(Permissions::from_mode(0o644));
    let synced = file.sync_all();
    written.and(synced)
}

// A name for the new file, of which there are many.
fn beside(path: &[u8], i: u32) -> Text<240>
    requires { length path.now ≤ 200 }
    ensures { result ≡ path.now ++ text "." ++ decimal i }
{
    let mut name = Text::new();
    name.push(path);
    name.push(b".");
    name.push_decimal(u64::from(i));
    name
}

// How many bytes of a path name its folder: all to its last '/', with it, so that the root is no case of its own; 0 where there is none.
fn folder_len(path: &[u8]) -> usize
    ensures within { IsPrefixLen result path.now }
    ensures slash { 0 < result → get_or path.now (result - 1) 0 ≡ 47 }
    ensures last { (k : ℕ) → result ≤ k → k < length path.now → get_or path.now k 0 ≡ 47 → ⊥ }
{
    match path.iter().rposition(|b| *b == b'/') {
        Some(slash) => slash + 1,
        None => 0,
    }
}

fn open_folder<R: Files>(rt: &R, path: &[u8]) -> Result<R::File> {
    match folder_len(path) {
        0 => open(rt, b"."),
        n => open(rt, &path[..n]),
    }
}

// The name of a file that was renamed, down to the disk, where the file system can do that.
fn sync_folder<R: Files>(rt: &R, path: &[u8]) -> Result<()> {
    open_folder(rt, path)?.sync_all()
}

fn rename<R: Files>(rt: &R, from: &[u8], to: &[u8]) -> Result<()> {
    fs::rename(rt, as_text(from)?, as_text(to)?)
}

fn remove<R: Files>(rt: &R, name: &[u8]) -> Result<()> {
    fs::remove_file(rt, as_text(name)?)
}

// A file of these bytes, made under a new name and renamed to path; where that fails, nothing stays behind. Some file systems cannot sync
// a folder, and it is not an answer: the new file is in its place by then, and to say that it is not would be false.
fn replace_by<R: Files>(
    rt: &R,
    file: R::File,
    name: &[u8],
    path: &[u8],
    bytes: &[u8],
) -> Result<()> {
    let replaced = fill(file, bytes).and_then(|()| rename(rt, name, path));
    let _ = match replaced {
        Ok(()) => sync_folder(rt, path),
        Err(_) => remove(rt, name),
    };
    replaced
}

// Puts a file of these bytes at a path of at most 200, whole or not at all: what was there stays until the new file is complete. No two
// runs write into one file, since one that is there is never taken.
pub fn replace<R: Files>(rt: &R, path: &[u8], bytes: &[u8]) -> Result<()> {
    if path.len() > 200 {
        return Err(Error::from(ErrorKind::InvalidInput));
    }
    check_free(rt, path)?;
    for i in 100000..1000000 {
        let name = beside(path, i);
        match open_as(
            rt,
            OpenOptions::new().write(true).create_new(true).mode(0o600),
            name.as_slice(),
        ) {
            Ok(file) => return replace_by(rt, file, name.as_slice(), path, bytes),
            Err(e) if e.kind() == ErrorKind::AlreadyExists => {}
            Err(e) => return Err(e),
        }
    }
    Err(Error::from(ErrorKind::AlreadyExists))
}
