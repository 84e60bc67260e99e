//! Writes a file whole or not at all: as a new file next to it, which is renamed over it.

use std::fs::{self, File, OpenFile, OpenOptions, Permissions};
use std::io::{self, ErrorKind, Write};
use std::path::PathBuf;
use std::rt::Files;
use std::time::Clock;

/// The most links that a name may lead through; Linux follows as many.
const LINKS: usize = 40;

/// The most names that are tried for a new file.
const TRIES: u32 = 8;

/// True if a name is one of the system's, next to which no file can be created: a process's open
/// file, as `/dev/stdout` leads to.
fn is_of_system(name: &str) -> bool {
    name.starts_with("/proc/") || name.starts_with("/dev/fd/")
}

/// True if the name itself is a symbolic link.
fn is_link<R: Files>(rt: &R, name: &str) -> io::Result<bool> {
    match fs::symlink_metadata(rt, name) {
        Ok(found) => Ok(found.is_symlink()),
        Err(error) if error.kind() == ErrorKind::NotFound => Ok(false),
        Err(error) => Err(error),
    }
}

/// The name that a name leads to through symbolic links, whether there is a file or not; none of
/// the system's.
fn target_of<R: Files + AllocGlobal>(rt: &R, name: &str) -> io::Result<Option<PathBuf>> {
    let mut path = PathBuf::from_str(rt.alloc(), name)?;
    for _ in 0..LINKS {
        if is_of_system(path.as_str()) {
            return Ok(None);
        }
        if !is_link(rt, path.as_str())? {
            return Ok(Some(path));
        }
        let link = fs::read_link(rt, path.as_str())?;
        path = path.with_file_name(rt.alloc(), link.as_str())?;
    }
    Err(io::Error::from(ErrorKind::FilesystemLoop))
}

/// A new file in the folder of another, of a name that nothing there has. The name doesn't grow
/// with that of the other, which may be as long as the system takes.
fn new_beside<R: Files + AllocGlobal + Clock>(
    rt: &R,
    target: &PathBuf,
) -> io::Result<(PathBuf, R::File)> {
    let now = rt.since_1970()?.as_nanos();
    for n in 0..TRIES {
        let name = format!(in rt.alloc(); ".radoscls-{}", now.wrapping_add(u128::from(n)))?;
        let path = target.with_file_name(rt.alloc(), name.as_str())?;
        match File::create_new(rt, path.as_str()) {
            Ok(file) => return Ok((path, file)),
            Err(error) if error.kind() == ErrorKind::AlreadyExists => {}
            Err(error) => return Err(error),
        }
    }
    Err(io::Error::from(ErrorKind::AlreadyExists))
}

/// Fills a new file. It has the permissions of the one whose place it takes before it has bytes.
fn fill<F: Write + OpenFile>(
    file: &mut F,
    bytes: &[u8],
    permissions: Option<Permissions>,
) -> io::Result<()> {
    if let Some(permissions) = permissions {
        file.set_permissions(permissions)?;
    }
    file.write_all(bytes)?;
    file.sync_all()
}

/// Puts a new file in the place of a file, or of none. If that fails the new one is removed.
fn replace<R: Files + AllocGlobal + Clock>(
    rt: &R,
    target: &PathBuf,
    bytes: &[u8],
    permissions: Option<Permissions>,
) -> io::Result<()> {
    let (path, mut file) = new_beside(rt, target)?;
    let filled = fill(&mut file, bytes, permissions);
    drop(file);
    let replaced = match filled {
        Ok(()) => fs::rename(rt, path.as_str(), target.as_str()),
        Err(error) => Err(error),
    };
    if replaced.is_err() {
        let _ = fs::remove_file(rt, path.as_str());
    }
    replaced
}

/// Writes a regular file, or one that isn't there.
fn write_regular<R: Files + AllocGlobal + Clock>(
    rt: &R,
    name: &str,
    bytes: &[u8],
    permissions: Option<Permissions>,
) -> io::Result<()> {
    match target_of(rt, name)? {
        Some(target) => replace(rt, &target, bytes, permissions),
        None => fs::write(rt, name, bytes),
    }
}

/// Writes a file that is open for it: in place if it is no regular one.
fn write_open<R: Files + AllocGlobal + Clock>(
    rt: &R,
    name: &str,
    bytes: &[u8],
    mut file: R::File,
) -> io::Result<()> {
    let found = file.metadata()?;
    if !found.is_file() {
        return file.write_all(bytes);
    }
    drop(file);
    write_regular(rt, name, bytes, Some(found.permissions()))
}

/// Makes those bytes the whole of the file of that name. If it fails, a regular file is as it was,
/// and there is no other. Of a symbolic link the target is written. A file that may not be written
/// isn't replaced, nor is one in whose folder no file may be created. The file's mode stays.
pub(crate) fn write_whole<R: Files + AllocGlobal + Clock>(
    rt: &R,
    name: &str,
    bytes: &[u8],
) -> io::Result<()> {
    match OpenOptions::new().write(true).open(rt, name) {
        Ok(file) => write_open(rt, name, bytes, file),
        Err(error) if error.kind() == ErrorKind::NotFound => write_regular(rt, name, bytes, None),
        Err(error) => Err(error),
    }
}
