//! What is kept of a file or a folder, and what is told of it.
ghost use Rattle.std.specs.Prelude.{◌≡◌, Some, None, if◌then◌else◌};
ghost use Rattle.fl_dir.specs.Directory.{made_node, attributes, is_folder, root_attributes};
ghost use Rattle.fl_dir.specs.Changes.{counted_up};
ghost use Rattle.fl_dir.specs.Replies.{lookups_full};

use crate::dir::ROOT;
use fl_order::{Attr, Name};

/// The bits of a mode that say the file type, `S_IFMT`.
pub(crate) const FILE_TYPE: u32 = 0o170000;

/// The file type of a regular file, `S_IFREG`.
pub(crate) const REGULAR_FILE: u32 = 0o100000;

/// The file type of a folder, `S_IFDIR`.
pub(crate) const FOLDER: u32 = 0o40000;

/// The permission bits of a mode.
pub(crate) const PERMISSIONS: u32 = 0o777;

/// These and `S_ISUID`, `S_ISGID` and `S_ISVTX`.
pub(crate) const NODE_BITS: u32 = 0o7777;

/// The mode of the root: a directory, `S_IFDIR`, that its owner may change and all may read and search.
const ROOT_MODE: u32 = 0o40755;

/// What is kept of a file or a folder.
#[derive(Clone, Copy, Debug, PartialEq, Eq)]
pub struct Node {
    /// How often it was looked up and not yet forgotten (the lookup count of Linux `fuse.h`).
    pub lookups: u64,
    /// It still has its name.
    pub linked: bool,
    /// The file type and the permissions, as `st_mode`.
    pub mode: u32,
    /// The user who made it.
    pub uid: u32,
    /// The group of who made it.
    pub gid: u32,
    /// The name under which it was made, behind what most requests look at.
    pub name: Name,
}

pub(crate) fn made_node(uid: u32, gid: u32, mode: u32, name: &Name) -> Node
    ensures { result ≡ made_node uid gid mode name.now }
{
    Node {
        lookups: 1,
        name: *name,
        linked: true,
        mode,
        uid,
        gid,
    }
}

pub(crate) fn is_folder(node: &Node) -> bool
    ensures { result ≡ is_folder node.now }
{
    node.mode & FILE_TYPE == FOLDER
}

pub(crate) fn attributes(number: u64, node: &Node) -> Attr
    ensures { result ≡ attributes number node.now }
{
    let links = if is_folder(node) { 2 } else { 1 };
    Attr {
        node: number,
        mode: node.mode,
        nlink: if node.linked { links } else { 0 },
        uid: node.uid,
        gid: node.gid,
    }
}

pub(crate) fn root_attributes() -> Attr
    ensures { result ≡ root_attributes }
{
    Attr {
        node: ROOT,
        mode: ROOT_MODE,
        nlink: 2,
        uid: 0,
        gid: 0,
    }
}

// The lookup count of the node after one more lookup; none if it can't grow.
pub(crate) fn next_lookups(node: &Node) -> Option<u64>
    ensures { result ≡ (if lookups_full node.now then None else Some (counted_up node.now).lookups) }
{
    node.lookups.checked_add(1)
}
