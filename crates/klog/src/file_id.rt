//! Which file a name or a standard stream is.

use crate::target::{Target, parts_of, target_of};
use commands::Endpoint;
use std::fs::{FileType, Metadata};
use std::os::unix::fs::{FileTypeExt, MetadataExt};
use std::{fs, io};

/// A file of the system: one that is there, or an entry that a folder lacks.
#[derive(Drop)]
struct FileId {
    device: u64,
    inode: u64,
    /// The name of the entry.
    missing: Option<String>,
}

impl FileId {
    /// A file that is there.
    fn of_found(found: &Metadata) -> FileId {
        FileId {
            device: found.dev(),
            inode: found.ino(),
            missing: None,
        }
    }

    fn is(&self, other: &FileId) -> bool {
        self.device == other.device && self.inode == other.inode && self.missing == other.missing
    }
}

/// The file that a path would make.
fn id_of_missing(rt: &HostRuntime, path: &str) -> io::Result<Option<FileId>> {
    let Some(parts) = parts_of(path) else {
        return Ok(None);
    };
    let Ok(folder) = fs::metadata(rt, parts.folder) else {
        return Ok(None);
    };
    Ok(Some(FileId {
        device: folder.dev(),
        inode: folder.ino(),
        missing: Some(String::from_str(rt.alloc(), parts.name)?),
    }))
}

/// The file of a name; none where neither it nor its folder can be looked at.
fn id_of_name(rt: &HostRuntime, name: &str) -> io::Result<Option<FileId>> {
    if let Ok(found) = fs::metadata(rt, name) {
        return Ok(Some(FileId::of_found(&found)));
    }
    match target_of(rt, name) {
        Ok(Target::Beside(path)) => id_of_missing(rt, path.as_str()),
        Err(error) if error.kind() == io::ErrorKind::OutOfMemory => Err(error),
        _ => Ok(None),
    }
}

/// Whether nothing is lost in a file that is written twice or read as it is written: a terminal, another device of
/// characters, or a socket.
fn keeps_nothing(kind: FileType) -> bool {
    kind.is_char_device() || kind.is_socket()
}

/// The file of a standard stream, if it is one that keeps what is written.
fn id_of_stream(rt: &HostRuntime, name: &str) -> Option<FileId> {
    match fs::metadata(rt, name) {
        Ok(found) if !keeps_nothing(found.file_type()) => Some(FileId::of_found(&found)),
        _ => None,
    }
}

fn id_of(rt: &HostRuntime, endpoint: Endpoint<'_>) -> io::Result<Option<FileId>> {
    match endpoint {
        Endpoint::File(name) => id_of_name(rt, name),
        Endpoint::Stdin => Ok(id_of_stream(rt, "/dev/stdin")),
        Endpoint::Stdout | Endpoint::UnusedStdout => Ok(id_of_stream(rt, "/dev/stdout")),
    }
}

/// Whether a name means standard output, as `/dev/stdout` does, or another open file.
fn is_open_file(rt: &HostRuntime, endpoint: Endpoint<'_>) -> bool {
    match endpoint {
        Endpoint::File(name) => matches!(target_of(rt, name), Ok(Target::InPlace)),
        _ => false,
    }
}

/// Whether two endpoints are one file. Standard output that a call does not write is none with a name that means it.
pub(crate) fn are_one(
    rt: &HostRuntime,
    one: Endpoint<'_>,
    other: Endpoint<'_>,
) -> io::Result<bool> {
    if matches!(other, Endpoint::UnusedStdout) && is_open_file(rt, one) {
        return Ok(false);
    }
    match (id_of(rt, one)?, id_of(rt, other)?) {
        (Some(one), Some(other)) => Ok(one.is(&other)),
        _ => Ok(false),
    }
}
