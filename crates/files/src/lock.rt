// One writer of a file at a time: FILE.lock names the process that is at work, and the next one waits for it.
ghost use Rattle.io.specs.Counts.{IsPrefixLen};

use crate::error::{EEXIST, FileError};
use crate::host::Host;
use crate::path::{beside, link_text, put_at, text_of};
use crate::{create, fill, opened, unlink};
use std::fs::{File, Permissions};
use std::io::Write;
use std::os::unix::fs::PermissionsExt;
use std::time::Duration;
use std::{fs, thread};

// A writer looks again after 20 ms by the clock, and gives up after five seconds with one and the same owner, or after a minute.
const PAUSE: u64 = 20;

const SAME: usize = 250;

const MOST: usize = 3000;

const PIDS: u64 = 2147483647;

// Which process a lock names, and whether that one is gone.
#[derive(Clone, Copy, Debug, PartialEq, Eq)]
pub struct Owner {
    pub pid: u64,
    pub is_gone: bool,
}

// Why there is no lock: others are at work all the while, the last one under that name if it has one, or it can't be made at all.
#[derive(Clone, Copy, Debug, PartialEq, Eq)]
pub enum NoLock {
    Busy(Option<Owner>),
    Unmade(FileError),
}

fn pause(rt: &impl Host) {
    thread::sleep(rt, Duration::from_millis(PAUSE));
}

// How many octets stand before the first of that value, or all of them.
fn before(text: &[u8], octet: u8) -> usize
    ensures { IsPrefixLen result text.now }
{
    text.iter().position(|&x| x == octet).unwrap_or(text.len())
}

// What stands at the path, as far as there is room and as far as it can be read.
fn read_into(rt: &impl Host, path: &[u8], text: &mut [u8]) -> usize
    ensures { IsPrefixLen result text.new }
{
    let Ok(mut file) = opened(rt, path) else {
        return 0;
    };
    fill(&mut file, text).0
}

fn put_host(rt: &impl Host, buf: &mut [u8], from: usize) -> usize
    ensures { IsPrefixLen result buf.new }
{
    let mut host = [0u8; 65];
    let n = read_into(rt, b"/proc/sys/kernel/hostname", &mut host);
    let k = before(&host[..n], b'\n');
    put_at(buf, from, &host[..k])
}

// The set of processes whose numbers this one sees: the same number in another container is another process.
fn put_space(rt: &impl Host, buf: &mut [u8], from: usize) -> usize
    ensures { IsPrefixLen result buf.new }
{
    let mut space = [0u8; 40];
    let n = link_text(rt, b"/proc/self/ns/pid", &mut space);
    put_at(buf, from, &space[..n])
}

// A space, the machine's name and that set: where a process's number means something.
fn put_place(rt: &impl Host, buf: &mut [u8], from: usize) -> usize
    ensures { IsPrefixLen result buf.new }
{
    let n = put_at(buf, from, b" ");
    let n = put_host(rt, buf, n);
    let n = put_at(buf, n, b" ");
    let n = put_space(rt, buf, n);
    put_at(buf, n, b"\n")
}

fn own_pid(rt: &impl Host) -> u64 {
    rt.pid() as u64
}

fn put_number(buf: &mut [u8], from: usize, n: u64) -> usize
    ensures { IsPrefixLen result buf.new }
{
    let mut digits = [0u8; 20];
    let k = io::decimal(n, &mut digits);
    put_at(buf, from, &digits[..k])
}

// Writes into a lock whose it is.
fn sign(rt: &impl Host, file: File) -> bool {
    let mut file = file;
    let mut text = [0u8; 160];
    let n = put_number(&mut text, 0, own_pid(rt));
    let n = put_place(rt, &mut text, n);
    // Whoever waits has to read it, whatever the umask.
    let _ = file.set_permissions(Permissions::from_mode(0o644));
    file.write_all(&text[..n]).is_ok()
}

fn remove(rt: &impl Host, path: &[u8], ending: &[u8]) -> bool {
    let mut name = io::buffer();
    let n = beside(path, ending, &mut name);
    unlink(rt, &name[..n])
}

// Makes the lock. One that could not be signed is taken away again.
fn make(rt: &impl Host, path: &[u8]) -> Result<(), FileError> {
    let mut name = io::buffer();
    let n = beside(path, b".lock", &mut name);
    let file = create(rt, &name[..n])?;
    if sign(rt, file) {
        return Ok(());
    }
    unlink(rt, &name[..n]);
    Err(FileError::Unwritten)
}

// What stands in the lock; nothing where it is gone by now.
fn read(rt: &impl Host, path: &[u8], text: &mut [u8]) -> usize
    ensures { IsPrefixLen result text.new }
{
    let mut name = io::buffer();
    let n = beside(path, b".lock", &mut name);
    read_into(rt, &name[..n], text)
}

// Whether the system's list of processes has the number, or None where it can't be asked.
fn is_listed(rt: &impl Host, pid: u64) -> Option<bool> {
    let mut name = [0u8; 40];
    let n = put_at(&mut name, 0, b"/proc/");
    let n = put_number(&mut name, n, pid);
    fs::exists(rt, text_of(&name[..n]).ok()?).ok()
}

// Whether that list tells of every process: it numbers this one as the system does, and does not hide those of others, of which 1 is one.
fn is_whole(rt: &impl Host) -> bool {
    let mut digits = [0u8; 20];
    let k = io::decimal(own_pid(rt), &mut digits);
    let mut own = [0u8; 20];
    let n = link_text(rt, b"/proc/self", &mut own);
    check::same(&own[..n], &digits[..k]) && is_listed(rt, 1) == Some(true)
}

// Whether no process has the number. This one waits for the lock, so one that names it was left by another.
fn is_gone(rt: &impl Host, pid: u64) -> bool {
    pid == own_pid(rt) || is_whole(rt) && is_listed(rt, pid) == Some(false)
}

// Whether a lock was signed where this process runs: of another machine's processes it knows nothing.
fn is_here(rt: &impl Host, place: &[u8]) -> bool {
    let mut here = [0u8; 160];
    let n = put_place(rt, &mut here, 0);
    check::same(place, &here[..n])
}

// The process that the lock names; there is none of the number 0.
fn owner_of(rt: &impl Host, path: &[u8]) -> Option<Owner> {
    let mut text = [0u8; 160];
    let n = read(rt, path, &mut text);
    let t = &text[..n];
    let k = before(t, b' ');
    let pid = saying::parse(&t[..k], PIDS).filter(|&pid| pid != 0)?;
    Some(Owner {
        pid,
        is_gone: is_here(rt, &t[k..]) && is_gone(rt, pid),
    })
}

fn has_gone(owner: Option<Owner>) -> bool {
    owner.is_some_and(|o| o.is_gone)
}

// Whether what a process left that is gone could be taken away. FILE.unlock keeps two from doing so at once, where the slower one would
// take away the lock that the quicker one has made by then.
fn free(rt: &impl Host, path: &[u8]) -> bool {
    let mut name = io::buffer();
    let n = beside(path, b".unlock", &mut name);
    let Ok(mark) = create(rt, &name[..n]) else {
        return false;
    };
    drop(mark);
    let ok = if has_gone(owner_of(rt, path)) {
        remove(rt, path, b".new");
        remove(rt, path, b".lock")
    } else {
        true
    };
    unlink(rt, &name[..n]);
    ok
}

fn is_same(a: Option<Owner>, b: Option<Owner>) -> bool {
    a.map(|o| o.pid) == b.map(|o| o.pid)
}

// Waits for the lock of a path, and makes it.
pub fn wait(rt: &impl Host, path: &[u8]) -> Result<(), NoLock> {
    let mut owner = None;
    let mut same = 0;
    for _ in 0..MOST {
        match make(rt, path) {
            Ok(()) => return Ok(()),
            Err(FileError::System(EEXIST)) => {}
            Err(error) => return Err(NoLock::Unmade(error)),
        }
        let now = owner_of(rt, path);
        if has_gone(now) && free(rt, path) {
            continue;
        }
        pause(rt);
        same = if is_same(owner, now) { same } else { 0 };
        owner = now;
        if SAME <= same {
            break;
        }
        same += 1;
    }
    Err(NoLock::Busy(owner))
}

pub fn give_back(rt: &impl Host, path: &[u8]) {
    remove(rt, path, b".lock");
}
