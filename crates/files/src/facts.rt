// What is known of the file at a path, as numbers.
use crate::error::FileError;
use crate::host::Host;
use crate::path::{path_of, text_of};
use std::fs;
use std::os::unix::fs::MetadataExt;

// The bits of a mode that tell the kind of a file, a folder's and a plain file's.
const KIND: u32 = 0o170000;

const FOLDER: u32 = 0o040000;

const PLAIN: u32 = 0o100000;

#[derive(Clone, Copy, Debug, PartialEq, Eq)]
pub struct Found {
    pub mode: u32,
    pub owner: u32,
    pub group: u32,
    pub names: u64,
    pub device: u64,
    pub inode: u64,
}

// What stands at the path, by way of links. It is not opened, so that a pipe or a device notices nothing.
pub fn look_at(rt: &impl Host, path: &[u8]) -> Result<Found, FileError> {
    let m = fs::metadata(rt, text_of(path)?)?;
    Ok(Found {
        mode: m.mode(),
        owner: m.uid(),
        group: m.gid(),
        names: m.nlink(),
        device: m.dev(),
        inode: m.ino(),
    })
}

// Whether it is the file of argument i, under whichever name.
pub fn is_given(rt: &impl Host, f: Found, i: usize) -> bool {
    let mut path = io::buffer();
    let n = path_of(rt, i, &mut path);
    look_at(rt, &path[..n]).is_ok_and(|g| f.device == g.device && f.inode == g.inode)
}

pub fn is_folder(f: Found) -> bool {
    f.mode & KIND == FOLDER
}

pub fn is_plain(f: Found) -> bool {
    f.mode & KIND == PLAIN
}

// Whether nobody may write it. Root could, and is held to the mode all the same.
pub fn is_read_only(f: Found) -> bool {
    f.mode & 0o222 == 0
}
