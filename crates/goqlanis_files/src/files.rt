//! Writes files atomically.

use std::alloc::AllocError;
use std::fs::{File, Metadata, OpenOptions, Permissions};
use std::io::{ErrorKind, Write};
use std::os::fd::AsRawFd;
use std::os::unix::fs::{MetadataExt, OpenOptionsExt, PermissionsExt, fchown};
use std::{fs, io};
use thiserror::Error;

/// Why a file is not written.
#[derive(Debug, Drop, Error)]
pub enum WriteError {
    /// The path cannot be opened, written or looked up.
    #[error("{0}")]
    File(#[from] io::Error),
    /// No file can be created in this folder.
    #[error("cannot create a file in {0}: {1}")]
    Folder(String, io::Error),
    /// The user may not read this folder, in which the file would be created.
    #[error("its folder {0} cannot be read by this user: name another one, or allow it with chmod +r")]
    Closed(String),
    /// The path names a folder.
    #[error("it is a folder; name a file in it")]
    IsFolder,
    /// The path names a file that nobody may write to.
    #[error("it is write-protected: allow writing with chmod u+w, or name another file")]
    Protected,
    /// The new file was written under a temporary name, and cannot be renamed to its path.
    #[error("cannot replace it: {0}")]
    Place(io::Error),
    /// The path names a file of another user, who could not read the new one.
    #[error("it belongs to another user, who could not read the new one: remove it first")]
    Owner,
    /// The path names another user's file, link or pipe in a folder that everybody may write to.
    #[error("it belongs to another user, in a folder writable by everybody: remove it, or take another name")]
    Strange,
    /// The path names a file that is open, but not for writing.
    #[error("it is open for reading only; name the file itself")]
    ReadOnly,
    /// All temporary names are taken in this folder.
    #[error("its folder {0} has goqlanis-0.new to goqlanis-9999.new: remove those of ended runs")]
    Taken(String),
    #[error("out of memory")]
    OutOfMemory(#[from(alloc)] AllocError),
}

// The maximum number of links that are followed, as in Linux.
const LINKS: u32 = 40;

// How many temporary names are tried; bounded, since others may have taken many on purpose.
const NAMES: u32 = 10_000;

// An open folder. Names are looked up in the folder that was opened once, so a folder or link that
// takes its place meanwhile is not followed.
#[derive(Drop)]
struct Folder {
    // The name as it was given, with a slash at the end.
    name: String,
    // The path for look-ups: the open file under /proc/self/fd; or, where there is no /proc, the
    // name, which a folder that takes its place could redirect.
    way: String,
    open: File,
}

// Opens a folder. One that cannot be opened is rejected: with only its name, the output would go to
// whatever takes its place.
fn open_folder(rt: &HostRuntime, name: &str) -> Result<Folder, WriteError> {
    let name = format!(in rt.alloc(); "{name}/")?;
    let open = match File::open(rt, name.as_str()) {
        Ok(open) => open,
        Err(error) if error.kind() == ErrorKind::PermissionDenied => {
            return Err(WriteError::Closed(name));
        }
        Err(error) => return Err(WriteError::Folder(name, error)),
    };
    let way = if fs::metadata(rt, "/proc/self/fd").is_ok() {
        format!(in rt.alloc(); "/proc/self/fd/{}/", open.as_raw_fd())?
    } else {
        String::from_str(rt.alloc(), name.as_str())?
    };
    Ok(Folder { name, way, open })
}

/// A file that is being written. A regular one has another name until it is whole.
#[derive(Drop)]
pub struct Draft {
    file: File,
    // What it becomes, unless it is a pipe, a device or a file that was already open.
    fresh: Option<Fresh>,
}

// A new file, which only its owner can read until it is whole.
#[derive(Drop)]
struct Fresh {
    // Its path until then.
    beside: String,
    // The path that it gets, in this folder, and the old file there.
    path: String,
    old: Option<Metadata>,
    _folder: Folder,
    // The permissions that new files usually get in the folder.
    usual: u32,
}

impl Draft {
    /// Begins to write the file at `path`: as a temporary file in the same folder, which only its
    /// owner can read. Links are followed. Pipes, devices and files that are already open are
    /// written directly. A write-protected file is rejected; so is another user's link, pipe or
    /// file in a folder that everybody may write to.
    ///
    /// Errors: the `WriteError` that says why.
    pub fn begin(rt: &HostRuntime, path: &str) -> Result<Draft, WriteError> {
        let mut place = String::from_str(rt.alloc(), path)?;
        for _ in 0..LINKS {
            let (within, name) = parts_of(place.as_str());
            let folder = open_folder(rt, within)?;
            let inside = format!(in rt.alloc(); "{}{name}", folder.way.as_str())?;
            let found = match fs::symlink_metadata(rt, inside.as_str()) {
                Ok(found) => found,
                Err(error) if error.kind() == ErrorKind::NotFound => {
                    return make_fresh(rt, folder, inside, None);
                }
                Err(error) => return Err(WriteError::File(error)),
            };
            if is_open_file(rt, name, &found) {
                // The owner's rights of such a link say for what the file is open.
                if found.mode() & 0o200 == 0 {
                    return Err(WriteError::ReadOnly);
                }
                return straight(rt, inside.as_str(), true);
            }
            if is_strange(rt, folder.way.as_str(), &found)? {
                return Err(WriteError::Strange);
            }
            if found.is_file() {
                return make_fresh(rt, folder, inside, Some(found));
            }
            if found.is_dir() {
                return Err(WriteError::IsFolder);
            }
            if !found.is_symlink() {
                return straight(rt, inside.as_str(), false);
            }
            place = link_target(rt, inside.as_str(), within)?;
        }
        // Opens it, so that the error is the one that Linux gives for this many links.
        straight(rt, place.as_str(), false)
    }

    /// Appends `bytes`.
    pub fn write(&mut self, bytes: &[u8]) -> io::Result<()> {
        self.file.write_all(bytes)
    }

    /// Ends the file: gives it its permissions, waits until it is on disk if it `is_flushed`, and
    /// renames it to its path. If anything fails, removes it.
    ///
    /// Errors: the `WriteError` that says why; an old regular file is then as it was.
    pub fn end(self, rt: &HostRuntime, is_flushed: bool) -> Result<(), WriteError> {
        let Some(fresh) = &self.fresh else {
            return Ok(());
        };
        let done = fresh.put_in_place(rt, &self.file, is_flushed);
        if done.is_err() {
            self.remove(rt);
        }
        done
    }

    /// Removes the temporary file, if there is one.
    pub fn remove(self, rt: &HostRuntime) {
        if let Some(fresh) = &self.fresh {
            let _ = fs::remove_file(rt, fresh.beside.as_str());
        }
    }
}

/// Waits until the folder of `path` is on disk, with the names of its files, on file systems that
/// know this.
///
/// Errors: the `WriteError` that says why.
pub fn flush_folder(rt: &HostRuntime, path: &str) -> Result<(), WriteError> {
    let (within, _) = parts_of(path);
    match open_folder(rt, within)?.open.sync_all() {
        Err(error) if error.kind() != ErrorKind::InvalidInput => Err(WriteError::File(error)),
        _ => Ok(()),
    }
}

// Whether `found` is the link to an open file of this or another process, as /dev/stdout is: among
// the links in /proc only these have a number as their name.
fn is_open_file(rt: &HostRuntime, name: &str, found: &Metadata) -> bool {
    found.is_symlink()
        && !name.is_empty()
        && name.bytes().all(|byte| byte.is_ascii_digit())
        && fs::metadata(rt, "/proc/self").is_ok_and(|proc| proc.dev() == found.dev())
}

// Returns the path that a link in `folder` points to.
fn link_target(rt: &HostRuntime, link: &str, folder: &str) -> Result<String, WriteError> {
    let named = fs::read_link(rt, link)?;
    let target = named.as_path().as_str();
    if target.starts_with('/') {
        return Ok(String::from_str(rt.alloc(), target)?);
    }
    Ok(format!(in rt.alloc(); "{folder}/{target}")?)
}

// Whether `found` belongs neither to this user nor to the folder's owner, in a folder where
// everybody may create files and nobody may remove another's (sticky). Linux refuses to open such
// links, pipes and files when asked to create them, which is not asked here.
fn is_strange(rt: &HostRuntime, folder: &str, found: &Metadata) -> io::Result<bool> {
    let folder = fs::metadata(rt, folder)?;
    if folder.mode() & 0o1002 != 0o1002 || found.uid() == folder.uid() {
        return Ok(false);
    }
    Ok(found.uid() != fs::metadata(rt, "/proc/self")?.uid())
}

// Splits a path into its folder, without the slash at its end, and the name in it.
fn parts_of(path: &str) -> (&str, &str) {
    path.rsplit_once('/').unwrap_or((".", path))
}

// Opens a pipe or device, or a file that is already open, at its end. A regular file that took its
// place meanwhile is left alone.
fn straight(rt: &HostRuntime, place: &str, is_open: bool) -> Result<Draft, WriteError> {
    let file = OpenOptions::new()
        .write(true)
        .append(is_open)
        .open(rt, place)?;
    if !is_open && file.metadata()?.is_file() {
        return Err(WriteError::File(io::Error::from(ErrorKind::AlreadyExists)));
    }
    Ok(Draft { file, fresh: None })
}

// Creates a temporary file under the first free name, which becomes the one at `path`, where an old
// file may be.
fn make_fresh(
    rt: &HostRuntime,
    folder: Folder,
    path: String,
    old: Option<Metadata>,
) -> Result<Draft, WriteError> {
    if old.as_ref().is_some_and(|old| old.mode() & 0o222 == 0) {
        return Err(WriteError::Protected);
    }
    for number in 0..NAMES {
        let beside = format!(in rt.alloc(); "{}goqlanis-{number}.new", folder.way.as_str())?;
        match private_file(rt, beside.as_str()) {
            Ok((file, usual)) => {
                let fresh = Some(Fresh {
                    beside,
                    path,
                    old,
                    _folder: folder,
                    usual,
                });
                return Ok(Draft { file, fresh });
            }
            Err(error) if error.kind() == ErrorKind::AlreadyExists => {}
            Err(error) => return Err(WriteError::Folder(folder.name, error)),
        }
    }
    Err(WriteError::Taken(folder.name))
}

// Creates a file that only its owner can access. Also returns the permissions that a new file
// usually gets in this folder: those of an empty one that is created first, and removed.
fn private_file(rt: &HostRuntime, path: &str) -> io::Result<(File, u32)> {
    let usual = create(rt, path, 0o666)?.metadata()?.mode() & 0o777;
    fs::remove_file(rt, path)?;
    Ok((create(rt, path, 0o600)?, usual))
}

fn create(rt: &HostRuntime, path: &str, mode: u32) -> io::Result<File> {
    OpenOptions::new()
        .write(true)
        .create_new(true)
        .mode(mode)
        .open(rt, path)
}

impl Fresh {
    // Gives a whole file its permissions and its name. From opening to renaming, the file is never
    // looked up by name, since others may have given that name to another file.
    fn put_in_place(&self, rt: &HostRuntime, file: &File, flush: bool) -> Result<(), WriteError> {
        let rights = match &self.old {
            Some(old) => rights_after(file, self.usual, old)?,
            None => self.usual,
        };
        file.set_permissions(Permissions::from_mode(rights))?;
        if flush {
            file.sync_all()?;
        }
        fs::rename(rt, self.beside.as_str(), self.path.as_str()).map_err(WriteError::Place)
    }
}

// Gives a new file the owner and group of the old one if that is allowed, and returns its
// permissions. If it replaces another user's file but stays this user's, it gets no more rights
// than any new file, and the old owner must be able to read it.
fn rights_after(file: &File, usual: u32, old: &Metadata) -> Result<u32, WriteError> {
    // Kept are the owner's, and those that both group and others had: the group's bits may stand for
    // an ACL of single users, which std cannot read.
    let shared = old.mode() & old.mode() >> 3 & 0o7;
    let kept = old.mode() & 0o700 | shared << 3 | shared;
    let is_given = fchown(file, Some(old.uid()), Some(old.gid())).is_ok();
    if is_given || file.metadata()?.uid() == old.uid() {
        return Ok(kept);
    }
    let rights = kept & usual;
    if rights & 0o4 != 0 {
        Ok(rights)
    } else {
        Err(WriteError::Owner)
    }
}
