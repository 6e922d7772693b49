// The files that a program's arguments name, read whole or a piece at a time, and replaced whole.
//
// One guard stands before everything that a program writes (`begin`): a file is replaced only where it is a plain one, is not given as
// another argument, may be written, and has one name alone. What its octets may be is the program's to say (`words::may_replace`).
#![tactic(auto)]

mod error;
mod facts;
mod host;
mod lock;
mod path;

ghost use Rattle.std.specs.Prelude.{IfOk, IfErr};
ghost use Rattle.io.specs.Counts.{IsPrefixLen};

pub use error::print_long;
use error::{EEXIST, EISDIR, ENOENT, FileError, print_beside, print_busy, print_error};
use facts::{Found, look_at};
pub use host::Host;
use lock::NoLock;
use path::{beside, text_of};
pub use path::{put_at, target_of};
use std::fs;
use std::fs::{File, OpenOptions, Permissions};
use std::io::{Read, Write};
use std::os::unix::fs::{PermissionsExt, fchown};

// What a program may write over: a file that is there, or a name that is free, and not the files of the two arguments.
#[derive(Clone, Copy, Debug, PartialEq, Eq)]
pub struct Rules {
    pub is_old: bool,
    pub is_new: bool,
    pub first: Option<usize>,
    pub second: Option<usize>,
}

// Reads until buf is full, the file ends or a read fails, and answers how many octets were read, and how that ended.
fn fill(file: &mut File, buf: &mut [u8]) -> (usize, Result<(), FileError>)
    ensures { IsPrefixLen result.0 buf.new }
{
    let mut octets = 0;
    // While: the step is what was read.
    while octets < buf.len() {
        match file.read(&mut buf[octets..]) {
            Ok(0) => break,
            Ok(n) => octets += n,
            Err(e) => return (octets, Err(e.into())),
        }
    }
    (octets, Ok(()))
}

// Reads the file of argument i into buf, up to its end or buf's, and answers how many octets it has; Err where it could not be read, which an
// error line has said, with how many it gave before. An octet more than the longest that can be shows a file too long.
pub fn read(rt: &impl Host, i: usize, name: &[u8], buf: &mut [u8]) -> Result<usize, usize>
    ensures all { IfOk result (λ n. IsPrefixLen n buf.new) }
    ensures some { IfErr result (λ n. IsPrefixLen n buf.new) }
{
    let mut path = io::buffer();
    let n = path::path_of(rt, i, &mut path);
    read_at(rt, i, name, &path[..n], buf)
}

// The same of the path to which argument i leads.
pub fn read_at(
    rt: &impl Host,
    i: usize,
    name: &[u8],
    path: &[u8],
    buf: &mut [u8],
) -> Result<usize, usize>
    ensures all { IfOk result (λ n. IsPrefixLen n buf.new) }
    ensures some { IfErr result (λ n. IsPrefixLen n buf.new) }
{
    let Some(mut file) = open_at(rt, i, name, path) else {
        return Err(0);
    };
    read_piece(rt, i, name, &mut file, buf)
}

// The file at the path, to be read.
fn opened(rt: &impl Host, path: &[u8]) -> Result<File, FileError> {
    Ok(fs::open(rt, text_of(path)?)?)
}

fn open_at(rt: &impl Host, i: usize, name: &[u8], path: &[u8]) -> Option<File> {
    match opened(rt, path) {
        Ok(file) => Some(file),
        Err(error) => {
            print_error(rt, i, name, error);
            None
        }
    }
}

// Opens the file of argument i, to be read a piece at a time; none where it can't be, which an error line has said.
pub fn open(rt: &impl Host, i: usize, name: &[u8]) -> Option<File> {
    let mut path = io::buffer();
    let n = path::path_of(rt, i, &mut path);
    open_at(rt, i, name, &path[..n])
}

// Reads the next piece of the file of argument i, which is open, into buf: fewer octets than buf has where the file ends.
pub fn read_piece(
    rt: &impl Host,
    i: usize,
    name: &[u8],
    file: &mut File,
    buf: &mut [u8],
) -> Result<usize, usize>
    ensures all { IfOk result (λ n. IsPrefixLen n buf.new) }
    ensures some { IfErr result (λ n. IsPrefixLen n buf.new) }
{
    let (octets, ended) = fill(file, buf);
    if let Err(error) = ended {
        print_error(rt, i, name, error);
        return Err(octets);
    }
    Ok(octets)
}

pub fn is_there(rt: &impl Host, path: &[u8]) -> bool {
    look_at(rt, path).is_ok()
}

// Whether the system lets this process write the file at the path, or why not. The file is opened and left as it is.
fn test_writing(rt: &impl Host, path: &[u8]) -> Result<(), FileError> {
    OpenOptions::new().write(true).open(rt, text_of(path)?)?;
    Ok(())
}

fn is_among(rt: &impl Host, f: Found, i: Option<usize>) -> bool {
    i.is_some_and(|i| facts::is_given(rt, f, i))
}

// Whether a file that is there may be replaced, or why not.
fn test_old(rt: &impl Host, path: &[u8], f: Found, rules: Rules) -> Result<(), FileError> {
    if facts::is_folder(f) {
        return Err(FileError::System(EISDIR));
    }
    if !facts::is_plain(f) {
        return Err(FileError::NotPlain);
    }
    if is_among(rt, f, rules.first) || is_among(rt, f, rules.second) {
        return Err(FileError::Given);
    }
    if facts::is_read_only(f) {
        return Err(FileError::ReadOnly);
    }
    if 1 < f.names {
        return Err(FileError::Several);
    }
    test_writing(rt, path)
}

fn test(rt: &impl Host, path: &[u8], rules: Rules) -> Result<(), FileError> {
    match look_at(rt, path) {
        Err(FileError::System(ENOENT)) if rules.is_new && !path.is_empty() => Ok(()),
        Err(error) => Err(error),
        Ok(_) if !rules.is_old => Err(FileError::System(EEXIST)),
        Ok(f) => test_old(rt, path, f, rules),
    }
}

fn may_go(rt: &impl Host, i: usize, name: &[u8], path: &[u8], rules: Rules) -> bool {
    let tested = test(rt, path, rules);
    if let Err(error) = tested {
        print_error(rt, i, name, error);
    }
    tested.is_ok()
}

// Makes the file at the path, which is not there yet, to be written.
fn create(rt: &impl Host, path: &[u8]) -> Result<File, FileError> {
    let path = text_of(path)?;
    Ok(
        OpenOptions::new()
            .write(true)
            .create_new(true)
            .open(rt, path)?,
    )
}

// Whether the file at the path could be taken away.
fn unlink(rt: &impl Host, path: &[u8]) -> bool {
    let Ok(path) = text_of(path) else {
        return false;
    };
    fs::remove_file(rt, path).is_ok()
}

fn rename(rt: &impl Host, from: &[u8], to: &[u8]) -> Result<(), FileError> {
    fs::rename(rt, text_of(from)?, text_of(to)?)?;
    Ok(())
}

fn remove_new(rt: &impl Host, path: &[u8]) {
    let mut new = io::buffer();
    let n = beside(path, b".new", &mut new);
    unlink(rt, &new[..n]);
}

fn create_new(rt: &impl Host, path: &[u8]) -> Result<File, FileError> {
    let mut new = io::buffer();
    let n = beside(path, b".new", &mut new);
    create(rt, &new[..n])
}

fn rename_new(rt: &impl Host, path: &[u8]) -> Result<(), FileError> {
    let mut new = io::buffer();
    let n = beside(path, b".new", &mut new);
    rename(rt, &new[..n], path)
}

// A rename lasts once its folder is flushed; a folder that can't be read can't be flushed either.
fn flush_folder(rt: &impl Host, path: &[u8]) {
    let n = path::folder_of(path);
    let folder = if n == 0 { b"." } else { &path[..n] };
    if let Ok(folder) = opened(rt, folder) {
        let _ = folder.sync_all();
    }
}

// Gives the new file the owner, group and mode of the old one, if there is one, before an octet stands in it.
fn is_kept(file: &File, old: Option<Found>) -> bool {
    let Some(f) = old else {
        return true;
    };
    fchown(file, Some(f.owner), Some(f.group)).is_ok()
        && file
            .set_permissions(Permissions::from_mode(f.mode & 0o7777))
            .is_ok()
}

fn left(error: FileError) -> FileError {
    match error {
        FileError::System(EEXIST) => FileError::Left,
        _ => error,
    }
}

// Makes the new file, under the lock. A new file that is there is not this program's, and stays.
fn begin_new(rt: &impl Host, i: usize, name: &[u8], path: &[u8]) -> Option<File> {
    let old = look_at(rt, path).ok();
    match create_new(rt, path) {
        Ok(file) => keep_new(rt, i, name, path, file, old),
        Err(error) => {
            print_beside(name, path, b".new", left(error));
            None
        }
    }
}

fn keep_new(
    rt: &impl Host,
    i: usize,
    name: &[u8],
    path: &[u8],
    file: File,
    old: Option<Found>,
) -> Option<File> {
    if is_kept(&file, old) {
        return Some(file);
    }
    remove_new(rt, path);
    print_error(rt, i, name, FileError::NotKept);
    None
}

fn is_locked(rt: &impl Host, name: &[u8], path: &[u8]) -> bool {
    let locked = lock::wait(rt, path);
    match locked {
        Ok(()) => {}
        Err(NoLock::Busy(owner)) => print_busy(name, path, owner),
        Err(NoLock::Unmade(error)) => print_beside(name, path, b".lock", error),
    }
    locked.is_ok()
}

// Begins to replace the file to which argument i leads: waits for its lock, and makes the file with `.new` behind its name. None where
// that is not to be or cannot be, which an error line has said. The guard stands before the lock, which is made beside no device, and
// behind it, since the file may be another one by then.
pub fn begin(rt: &impl Host, i: usize, name: &[u8], path: &[u8], rules: Rules) -> Option<File> {
    if !may_go(rt, i, name, path, rules) || !is_locked(rt, name, path) {
        return None;
    }
    let file = if may_go(rt, i, name, path, rules) {
        begin_new(rt, i, name, path)
    } else {
        None
    };
    if file.is_none() {
        lock::give_back(rt, path);
    }
    file
}

// Whether all octets have reached the file, which is closed either way.
fn write_closed(file: File, octets: &[u8]) -> bool {
    let mut file = file;
    let is_written = file.write_all(octets).is_ok();
    let is_kept = file.sync_all().is_ok();
    is_written && is_kept
}

fn put(rt: &impl Host, i: usize, name: &[u8], path: &[u8], file: File, octets: &[u8]) -> bool {
    if !write_closed(file, octets) {
        remove_new(rt, path);
        print_beside(name, path, b".new", FileError::Unwritten);
        return false;
    }
    if let Err(error) = rename_new(rt, path) {
        remove_new(rt, path);
        print_error(rt, i, name, error);
        return false;
    }
    flush_folder(rt, path);
    true
}

// Ends what `begin` began: the new file takes the old one's name once all octets are written. Otherwise the old one stays as it was.
pub fn commit(
    rt: &impl Host,
    i: usize,
    name: &[u8],
    path: &[u8],
    file: File,
    octets: &[u8],
) -> bool {
    let ok = put(rt, i, name, path, file, octets);
    lock::give_back(rt, path);
    ok
}

// Ends what `begin` began, with the old file as it was.
pub fn drop_new(rt: &impl Host, path: &[u8], file: File) {
    drop(file);
    remove_new(rt, path);
    lock::give_back(rt, path);
}

// Makes the file of argument i, which is not there yet: whole, or not at all.
pub fn make(rt: &impl Host, i: usize, name: &[u8], octets: &[u8]) -> bool {
    let mut path = io::buffer();
    let n = target_of(rt, i, &mut path);
    let rules = Rules {
        is_old: false,
        is_new: true,
        first: None,
        second: None,
    };
    match begin(rt, i, name, &path[..n], rules) {
        Some(file) => commit(rt, i, name, &path[..n], file, octets),
        None => false,
    }
}
