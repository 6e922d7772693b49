// Paths as octets: that of an argument, where links lead from there, the folder of one, and names beside one.
ghost use Rattle.std.specs.Prelude.{IfSome};
ghost use Rattle.io.specs.Counts.{IsPrefixLen};

use crate::error::{ENAMETOOLONG, FileError};
use crate::host::Host;
use std::env::FillError;
use std::fs;

// The system takes no longer path, an octet less.
const PATH_MAX: usize = 4096;

// An octet that stands in no text.
const NO_TEXT: &[u8] = b"\xff";

// As many links as the system itself follows.
const LINKS: usize = 40;

// The path of argument i; all of the buffer, which is no path, where it is longer.
pub fn path_of(rt: &impl Host, i: usize, path: &mut [u8]) -> usize
    ensures { IsPrefixLen result path.new }
{
    match rt.arg(i, path) {
        Ok(n) => n,
        Err(FillError::TooLong) => path.len(),
        Err(FillError::NotPresent) => 0,
    }
}

// The path as std takes it, or why that is none.
pub fn text_of(path: &[u8]) -> Result<&str, FileError> {
    if PATH_MAX <= path.len() {
        return Err(FileError::System(ENAMETOOLONG));
    }
    std::str::from_utf8(path).map_err(|_| FileError::NotText)
}

// Puts a text into the buffer, and answers where it ends: where there is no room, at the buffer's end, and nothing is put.
pub fn put_at(buf: &mut [u8], from: usize, text: &[u8]) -> usize
    ensures { IsPrefixLen result buf.new }
{
    if buf.len() < from || buf.len() - from < text.len() {
        return buf.len();
    }
    let end = from + text.len();
    buf[from..end].copy_from_slice(text);
    end
}

// The path with an ending behind it; empty where it is empty, and all of the buffer, which is no path, where it is longer.
pub fn beside(path: &[u8], ending: &[u8], buf: &mut [u8]) -> usize
    ensures { IsPrefixLen result buf.new }
{
    if path.is_empty() {
        return 0;
    }
    let n = put_at(buf, 0, path);
    put_at(buf, n, ending)
}

// How many octets of the path name its folder, the stroke among them.
pub fn folder_of(path: &[u8]) -> usize
    ensures { IsPrefixLen result path.now }
{
    match path.iter().rev().position(|&x| x == b'/') {
        Some(behind) => path.len() - behind,
        None => 0,
    }
}

// The text of a link; empty where the path names none, and no text where the link's is none.
pub fn link_text(rt: &impl Host, path: &[u8], text: &mut [u8]) -> usize
    ensures { IsPrefixLen result text.new }
{
    let Ok(path) = text_of(path) else {
        return 0;
    };
    match fs::read_link(rt, path) {
        Ok(link) => put_at(text, 0, link.as_str().as_bytes()),
        Err(e) if e.raw_os_error().is_some() => 0,
        Err(_) => put_at(text, 0, NO_TEXT),
    }
}

// Where the link of that path leads, put in its place; None where it is no link.
fn follow(rt: &impl Host, path: &mut [u8], n: usize) -> Option<usize>
    requires { IsPrefixLen n path.old }
    ensures { IfSome result (λ k. IsPrefixLen k path.new) }
{
    let mut text = io::buffer();
    let k = link_text(rt, &path[..n], &mut text);
    if k == 0 {
        return None;
    }
    let from = if text[0] == b'/' {
        0
    } else {
        folder_of(&path[..n])
    };
    Some(put_at(path, from, &text[..k]))
}

// The path of the file that argument i names, by way of all links: what is replaced is the file, and the links stay.
pub fn target_of(rt: &impl Host, i: usize, path: &mut [u8]) -> usize
    ensures { IsPrefixLen result path.new }
{
    let mut n = path_of(rt, i, path);
    for _ in 0..LINKS {
        let Some(target) = follow(rt, path, n) else {
            break;
        };
        n = target;
    }
    n
}
