//! Files that are written beside the ones that they replace.

use crate::target::parts_of;
use std::fs::{File, Metadata, OpenOptions, Permissions};
use std::io::Write;
use std::os::unix::fs::{MetadataExt, OpenOptionsExt, PermissionsExt, fchown};
use std::path::{Path, PathBuf};
use std::{fs, io};

/// The length of a file's name up to which that of the file beside it begins with it.
const LONG_NAME: usize = 200;

/// A file that is written beside another one, which it replaces when it is put in place. It is removed where it is
/// dropped before.
pub(crate) struct NewFile<'a> {
    rt: &'a HostRuntime,
    file: File,
    /// Where it is written.
    beside: PathBuf,
    /// The file that it replaces.
    target: PathBuf,
}

impl Drop for NewFile<'_> {
    fn drop(self) {
        let NewFile {
            rt,
            file: _,
            beside,
            target: _,
        } = self;
        let _ = fs::remove_file(rt, beside.as_str());
    }
}

impl Write for NewFile<'_> {
    fn write(&mut self, bytes: &[u8]) -> io::Result<usize> {
        self.file.write(bytes)
    }

    /// Waits until the storage has what was written.
    fn flush(&mut self) -> io::Result<()> {
        self.file.sync_all()
    }
}

impl<'a> NewFile<'a> {
    /// Begins a file that will replace another one, if that is there, and else be new. It has the mode of that one, and
    /// its owner and group where the system allows it.
    pub(crate) fn begin(rt: &'a HostRuntime, target: PathBuf) -> io::Result<NewFile<'a>> {
        let old = fs::metadata(rt, target.as_str()).ok();
        let (file, beside) = create_beside(rt, target.as_str(), old.is_some())?;
        let new = NewFile {
            rt,
            file,
            beside,
            target,
        };
        if let Some(old) = old {
            take_over(&new.file, &old)?;
        }
        Ok(new)
    }

    /// Puts the file in the place of the one that it replaces.
    pub(crate) fn put_in_place(self) -> io::Result<()> {
        let NewFile {
            rt,
            file,
            beside,
            target,
        } = self;
        let placed = place(rt, file, beside.as_str(), target.as_str());
        if placed.is_err() {
            let _ = fs::remove_file(rt, beside.as_str());
        }
        placed
    }
}

/// Closes a file and renames it. What was written is in the storage by then, so its close has nothing to tell.
fn place(rt: &HostRuntime, file: File, from: &str, to: &str) -> io::Result<()> {
    drop(file);
    fs::rename(rt, from, to)
}

/// Makes a file in the folder of another one, by a name that nobody has: that of the other one and `.part1`, or the
/// next number that is free. Nobody else may open it where it replaces a file.
fn create_beside(rt: &HostRuntime, target: &str, replaces: bool) -> io::Result<(File, PathBuf)> {
    let Some(parts) = parts_of(target) else {
        return Err(io::Error::from(io::ErrorKind::InvalidInput));
    };
    let stem = if parts.name.len() > LONG_NAME {
        "klog"
    } else {
        parts.name
    };
    let mode = if replaces { 0o600 } else { 0o666 };
    for number in 1..u64::MAX {
        let name = format!(in rt.alloc(); "{stem}.part{number}")?;
        let beside = Path::new(parts.folder).join(rt.alloc(), name.as_str())?;
        match create_new(rt, beside.as_str(), mode) {
            Ok(file) => return Ok((file, beside)),
            Err(error) if error.kind() == io::ErrorKind::AlreadyExists => {}
            Err(error) => return Err(error),
        }
    }
    Err(io::Error::from(io::ErrorKind::AlreadyExists))
}

/// Makes a file that is not there, and follows no link of that name.
fn create_new(rt: &HostRuntime, path: &str, mode: u32) -> io::Result<File> {
    OpenOptions::new()
        .write(true)
        .create_new(true)
        .mode(mode)
        .open(rt, path)
}

/// Gives a file the mode of another one, and its owner and group as far as the system allows. The right to run as the
/// owner or the group goes only with them.
fn take_over(file: &File, old: &Metadata) -> io::Result<()> {
    let is_owned = fchown(file, Some(old.uid()), Some(old.gid())).is_ok();
    let bits = if is_owned { 0o7777 } else { 0o777 };
    file.set_permissions(Permissions::from_mode(old.mode() & bits))
}
