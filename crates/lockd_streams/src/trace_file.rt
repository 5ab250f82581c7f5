//! The file of a trace.

use std::fs::{File, Files, Metadata, OpenFile, OpenOptions};
use std::os::unix::fs::MetadataExt;
use std::path::Path;
use std::{fs, io};

/// A new file at a path, for the first piece of a trace. It can be read, too. What is written goes behind what it has.
pub fn new_first_piece(rt: &HostRuntime, path: &str) -> io::Result<File> {
    let mut options = OpenOptions::new();
    options
        .read(true)
        .append(true)
        .create_new(true)
        .open(rt, Path::new(path))
}

/// The file at a path, which is made if there is none. What is written goes behind what it has.
pub fn file_to_go_on_in(rt: &HostRuntime, path: &str) -> io::Result<File> {
    let mut options = OpenOptions::new();
    options
        .read(true)
        .append(true)
        .create(true)
        .open(rt, Path::new(path))
}

/// Takes this file away, unless another is at its path by now.
pub fn remove_if_at<R: Files, T: OpenFile>(rt: &R, path: &str, file: &T) {
    let path = Path::new(path);
    if is_at(rt, path, file) {
        let _ = fs::remove_file(rt, path);
    }
}

/// Whether the file at a path is this one: the same inode of the same device. It isn't, if the file system doesn't
/// tell.
pub fn is_at<R: Files, T: OpenFile>(rt: &R, path: Path<'_>, file: &T) -> bool {
    match (fs::metadata(rt, path), file.metadata()) {
        (Ok(found), Ok(own)) => is_same(&found, &own),
        _ => false,
    }
}

// Whether these are of one file.
pub(crate) fn is_same(one: &Metadata, other: &Metadata) -> bool {
    one.dev() == other.dev() && one.ino() == other.ino()
}
