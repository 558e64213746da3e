//! Where the file of a name is written.

use std::path::{Path, PathBuf};
use std::{fs, io};

/// Where the file of a name is written.
#[derive(Drop)]
pub(crate) enum Target {
    /// In place: it is no plain file, or was opened by whoever started the program.
    InPlace,
    /// Beside the plain file at the end of the name's links, which need not be there yet.
    Beside(PathBuf),
}

/// How many links are followed.
const MAX_LINKS: usize = 40;

/// A path by its folder and the name in it.
#[derive(Drop)]
pub(crate) struct Parts<'a> {
    pub(crate) folder: &'a str,
    pub(crate) name: &'a str,
}

/// The parts of a path, if it ends with a name.
pub(crate) fn parts_of(path: &str) -> Option<Parts<'_>> {
    let (folder, name) = match path.rsplit_once('/') {
        Some(("", name)) => ("/", name),
        Some((folder, name)) => (folder, name),
        None => (".", path),
    };
    match name {
        "" | "." | ".." => None,
        _ => Some(Parts { folder, name }),
    }
}

/// Whether the entries of a folder are a process's open files, as those of `/dev/fd` are.
fn has_open_files(rt: &HostRuntime, folder: &str) -> io::Result<bool> {
    let folder = fs::canonicalize(rt, folder)?;
    Ok(folder.starts_with("/proc") && folder.ends_with("fd"))
}

/// The path that a link leads to, as it is read from that folder.
fn linked(rt: &HostRuntime, folder: &str, link: &PathBuf) -> io::Result<PathBuf> {
    Ok(Path::new(folder).join(rt.alloc(), link.as_str())?)
}

/// Where a path is written that need not be there.
fn target_of_path(rt: &HostRuntime, path: &str) -> io::Result<Target> {
    let mut path = PathBuf::from_str(rt.alloc(), path)?;
    for _ in 0..MAX_LINKS {
        let Some(parts) = parts_of(path.as_str()) else {
            return Ok(Target::InPlace);
        };
        if has_open_files(rt, parts.folder)? {
            return Ok(Target::InPlace);
        }
        let Ok(link) = fs::read_link(rt, path.as_str()) else {
            return Ok(Target::Beside(path));
        };
        path = linked(rt, parts.folder, &link)?;
    }
    Ok(Target::InPlace)
}

/// Where the file of a name is written.
pub(crate) fn target_of(rt: &HostRuntime, name: &str) -> io::Result<Target> {
    match fs::metadata(rt, name) {
        Ok(found) if !found.is_file() => Ok(Target::InPlace),
        Err(error) if error.kind() != io::ErrorKind::NotFound => Err(error),
        _ => target_of_path(rt, name),
    }
}
