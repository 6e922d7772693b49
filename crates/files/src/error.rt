// What is wrong with a file, in an error line.
ghost use Rattle.std.specs.Prelude.{◌≤◌};
ghost use Rattle.saying.specs.Lines.{InRoom};

use crate::host::Host;
use crate::lock::Owner;
use saying::{Line, print, say, say_error, say_number, say_quoted};

// The system's numbers.
pub const EPERM: i32 = 1;

pub const ENOENT: i32 = 2;

pub const EACCES: i32 = 13;

pub const EEXIST: i32 = 17;

pub const ENOTDIR: i32 = 20;

pub const EISDIR: i32 = 21;

pub const EROFS: i32 = 30;

pub const ENAMETOOLONG: i32 = 36;

pub const ELOOP: i32 = 40;

// What is against a file: an error of the system, by its number, or what these programs themselves have against it.
#[derive(Clone, Copy, Debug, PartialEq, Eq)]
pub enum FileError {
    System(i32),
    // std has found it, without a number.
    Unusable,
    Unwritten,
    Left,
    NotPlain,
    Given,
    ReadOnly,
    Several,
    NotKept,
    NotText,
}

impl From<std::io::Error> for FileError {
    fn from(e: std::io::Error) -> FileError {
        match e.raw_os_error() {
            Some(n) => FileError::System(n),
            None => FileError::Unusable,
        }
    }
}

fn say_number_of(line: Line, n: i32) -> Line
    ensures { InRoom line.at result.at }
{
    match n {
        ENOENT => say(line, b"no such file or folder"),
        EACCES | EPERM => say(line, b"not permitted"),
        EROFS => say(line, b"is read-only"),
        EEXIST => say(line, b"exists already"),
        EISDIR => say(line, b"is a folder"),
        ENOTDIR => say(line, b"not in a folder"),
        ENAMETOOLONG => say(line, b"the path is too long"),
        ELOOP => say(line, b"too many links"),
        _ => say(line, b"cannot be used"),
    }
}

fn say_why(line: Line, error: FileError) -> Line
    ensures { InRoom line.at result.at }
{
    match error {
        FileError::System(n) => say_number_of(line, n),
        FileError::Unusable => say(line, b"cannot be used"),
        FileError::Unwritten => say(line, b"cannot be written"),
        FileError::Left => say(line, b"exists; remove it if no program is at work"),
        FileError::NotPlain => say(line, b"is no plain file"),
        FileError::Given => say(line, b"is given twice"),
        FileError::ReadOnly => say(line, b"is read-only"),
        FileError::Several => say(
            line,
            b"has several names (hard links), and only one would be replaced",
        ),
        FileError::NotKept => say(line, b"its owner and mode cannot be kept"),
        FileError::NotText => say(line, b"the path is no text in UTF-8"),
    }
}

// The error line on the file of argument i.
pub fn print_error(rt: &impl Host, i: usize, name: &[u8], error: FileError) {
    print(say_why(say_error(rt, i, name, b""), error));
}

// The error line on a file beside it, whose path is given up to its ending.
pub fn print_beside(name: &[u8], path: &[u8], ending: &[u8], error: FileError) {
    print(say_why(say_beside(b"error: ", name, path, ending), error));
}

fn say_beside(head: &[u8], name: &[u8], path: &[u8], ending: &[u8]) -> Line
    ensures { result.at ≤ 240 }
{
    let l = say(say(say(saying::empty(), head), name), b" ");
    say(say_quoted(l, path, ending), b": ")
}

// The error line for a lock that was waited for in vain: whose it is, and what to do.
pub fn print_busy(name: &[u8], path: &[u8], owner: Option<Owner>) {
    let l = say_beside(b"error: busy: ", name, path, b".lock");
    let Some(owner) = owner else {
        print(say(l, b"names no process; remove it if no program is at work"));
        return;
    };
    let l = say_number(say(l, b"process "), owner.pid);
    if owner.is_gone {
        print(say(
            l,
            b" left it and is gone; remove it, and the .unlock beside it",
        ));
        return;
    }
    print(say(l, b" holds it; remove it if that is no writer of this file"));
}

// The error line for a file that is longer than it can be.
pub fn print_long(rt: &impl Host, i: usize, name: &[u8], most: u64) {
    let l = say_number(say(say_error(rt, i, name, b""), b"more than "), most);
    print(say(l, b" octets"));
}
