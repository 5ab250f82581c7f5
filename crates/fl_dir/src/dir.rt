//! The directory and its calls.
ghost use Rattle.std.specs.Prelude.{◌≡◌, ◌+◌, ◌≤◌, Some, None, IfOk, IfSome, IsSome, OnOk, OnErr, true, false};
ghost use Rattle.std.specs.Result.{result_err};
ghost use Rattle.std.specs.FinMap as map;
ghost use Rattle.fl_dir.specs.Directory.{linked, opening_listing};
ghost use Rattle.fl_dir.specs.Replies.{names_error, directory_error, lookup_reply, created, reopened, create_reply};
ghost use Rattle.fl_dir.specs.Replies.{make_reply, mknod_reply, mkdir_reply, open_reply, getattr_reply};
ghost use Rattle.fl_dir.specs.Replies.{unlink_reply, rmdir_reply, close_reply};
ghost use Rattle.fl_dir.specs.Restored.{with_numbers};
ghost use Rattle.fl_dir.specs.Changes.{after_lookup, after_reply, after_create, after_make, after_mknod, after_mkdir};
ghost use Rattle.fl_dir.specs.Changes.{after_open, after_unlink, after_forget, after_close, changed_at, counted_up};

use crate::names::{Names, is_reserved};
use crate::node::{
    FILE_TYPE, FOLDER, NODE_BITS, Node, PERMISSIONS, REGULAR_FILE, attributes, is_folder,
    made_node, next_lookups, root_attributes,
};
use crate::nodes::Slot;
use crate::numbered::Numbered;
use fl_order::{Answer, Errno, Name, NoMemory};
use std::alloc::Global;
use std::marker::Model;

/// The root's node number, `FUSE_ROOT_ID` of Linux `fuse.h`.
pub const ROOT: u64 = 1;

/// The most files that a directory can be made for.
pub const MOST_FILES: u32 = 65_536;

/// The most open files that a directory can be made for.
pub const MOST_OPEN: u32 = 65_536;

/// What an order is answered.
pub type Reply = Result<Answer, Errno>;

/// Names, nodes and open files of a directory. Its folders are empty. Contracts see them as a `Listing`.
///
/// No call but `new` and `try_clone` takes memory. The tests of each call are made in the order of its definition, and
/// a refusal changes nothing.
pub struct Dir {
    pub(crate) nodes: Numbered<Slot>,
    pub(crate) names: Names,
    // The node on which each fh is open.
    pub(crate) files: Numbered<u64>,
}

/// An fh that was closed.
#[derive(Clone, Copy, Debug, PartialEq, Eq)]
pub struct Closed {
    /// The node on which it was open.
    pub node: u64,
    /// No fh is left open on the node.
    pub last: bool,
}

impl Model for Dir {
    ghost use Rattle.std.specs.Prelude.{◌≡◌};
    ghost use Rattle.fl_dir.specs.Directory.{Listing};
    ghost use Rattle.fl_dir.specs.Codes.{listing_code};
    ghost use Rattle.fl_dir.specs.Arenas.{bare};
    ghost use Rattle.fl_dir.specs.Inside.Kept.{IsKept};

    ghost Value = { Listing };

    ghost coded = { listing_code };

    ghost view = { λ d. record {
      nodes = bare d.nodes.values;
      files = d.files.values;
      next_node = d.nodes.next;
      next_fh = d.files.next;
      most_nodes = d.nodes.limit;
      most_files = d.files.limit;
    } };

    ghost invariant = { λ d. IsKept d.nodes d.names.entries d.names.mask d.files };
}

impl Drop for Dir {
    // One call for an owner, and not a step for each part.
    fn drop(self) {
        let Dir {
            nodes: _nodes,
            names: _names,
            files: _files,
        } = self;
    }
}

impl Dir {
    /// An empty directory, with room for so many files and open files. It fails only if memory runs out.
    pub fn new(alloc: Global, files: u32, open_files: u32) -> Result<Dir, NoMemory>
        requires files { (1 ≤ files) × (files ≤ 65536) }
        requires open_files { (1 ≤ open_files) × (open_files ≤ 65536) }
        ensures { IfOk result (λ d. d ≡ opening_listing files open_files) }
    {
        Ok(Dir {
            nodes: Numbered::new(alloc, files as usize, ROOT + 1)?,
            names: Names::new(alloc, files as usize)?,
            files: Numbered::new(alloc, open_files as usize, 1)?,
        })
    }

    /// The next node and the next fh get these numbers. Only `restore_node` and `restore_file` fill those between.
    pub fn begin_at(&mut self, node: u64, fh: u64)
        requires node { self.old.next_node ≤ node }
        requires fh { self.old.next_fh ≤ fh }
        ensures { self.new ≡ with_numbers self.old node fh }
    {
        self.nodes.skip_to(node);
        self.files.skip_to(fh);
    }

    /// The same directory once more. It fails only if memory runs out.
    pub fn try_clone(&self, alloc: Global) -> Result<Dir, NoMemory>
        ensures { IfOk result (λ d. d ≡ self.now) }
    {
        Ok(Dir {
            nodes: self.nodes.try_clone(alloc)?,
            names: self.names.try_clone(alloc)?,
            files: self.files.try_clone(alloc)?,
        })
    }

    /// FUSE_LOOKUP of a name in a node: counts one more lookup of the node of this name.
    pub fn lookup(&mut self, node: u64, name: &Name) -> Reply
        ensures answer { result ≡ lookup_reply self.old node name.now }
        ensures after { self.new ≡ after_lookup self.old result }
    {
        self.check_names(node, Errno::ENOENT)?;
        let (number, found) = self.linked(name).ok_or(Errno::ENOENT)?;
        let lookups = next_lookups(found).ok_or(Errno::ENFILE)?;
        let attr = attributes(number, found);
        self.set_lookups(number, lookups);
        Ok(Answer::Entry(attr))
    }

    /// FUSE_CREATE, by this user and group: makes the file, or opens the one of this name.
    pub fn create(
        &mut self,
        node: u64,
        uid: u32,
        gid: u32,
        excl: bool,
        mode: u32,
        name: &Name,
    ) -> Reply
        ensures answer { result ≡ create_reply self.old node uid gid excl mode name.now }
        ensures after { self.new ≡ after_create self.old uid gid mode name.now result }
    {
        self.check_names(node, Errno::EPERM)?;
        if is_reserved(name) {
            return Err(Errno::EINVAL);
        }
        let file = REGULAR_FILE | (mode & PERMISSIONS);
        match self.linked(name) {
            None => self.make(&made_node(uid, gid, file, name), name),
            Some(_) if excl => Err(Errno::EEXIST),
            Some((number, _)) => self.reopen(number),
        }
    }

    /// FUSE_MKNOD, by this user and group: makes a file. EPERM for a mode of another file type.
    pub fn mknod(&mut self, node: u64, uid: u32, gid: u32, mode: u32, name: &Name) -> Reply
        ensures answer { result ≡ mknod_reply self.old node uid gid mode name.now }
        ensures after { self.new ≡ after_mknod self.old uid gid mode name.now result }
    {
        let file_type = mode & FILE_TYPE;
        let new = made_node(uid, gid, REGULAR_FILE | (mode & NODE_BITS), name);
        self.add(node, file_type == REGULAR_FILE || file_type == 0, &new)
    }

    /// FUSE_MKDIR, by this user and group: makes a folder.
    pub fn mkdir(&mut self, node: u64, uid: u32, gid: u32, mode: u32, name: &Name) -> Reply
        ensures answer { result ≡ mkdir_reply self.old node uid gid mode name.now }
        ensures after { self.new ≡ after_mkdir self.old uid gid mode name.now result }
    {
        let new = made_node(uid, gid, FOLDER | (mode & NODE_BITS), name);
        self.add(node, true, &new)
    }

    /// FUSE_OPEN: opens the node under the next fh.
    pub fn open(&mut self, node: u64) -> Reply
        ensures answer { result ≡ open_reply self.old node }
        ensures after { self.new ≡ after_open self.old node result }
    {
        if !self.is_known(node) {
            return Err(Errno::ENOENT);
        }
        if node == ROOT || self.is_folder(node) {
            return Err(Errno::EISDIR);
        }
        if self.files_full() {
            return Err(Errno::ENFILE);
        }
        Ok(Answer::Open(self.open_file(node)))
    }

    /// FUSE_GETATTR: the node's attributes.
    pub fn getattr(&self, node: u64) -> Reply
        ensures { result ≡ getattr_reply self.now node }
    {
        if node == ROOT {
            return Ok(Answer::Attr(root_attributes()));
        }
        match self.node_at(node) {
            None => Err(Errno::ENOENT),
            Some(found) => Ok(Answer::Attr(attributes(node, found))),
        }
    }

    /// FUSE_UNLINK of a file's name in a node: it is free at once. The file stays while it has lookups or an open fh.
    pub fn unlink(&mut self, node: u64, name: &Name) -> Reply
        ensures answer { result ≡ unlink_reply self.old node name.now }
        ensures after { self.new ≡ after_unlink self.old name.now result }
    {
        self.check_names(node, Errno::ENOENT)?;
        let (number, found) = self.linked(name).ok_or(Errno::ENOENT)?;
        if is_folder(found) {
            return Err(Errno::EISDIR);
        }
        self.free_name(number, name);
        self.sweep(number);
        Ok(Answer::Done)
    }

    /// FUSE_RMDIR of a folder's name in a node: it is free at once. The folder stays while it has lookups.
    pub fn rmdir(&mut self, node: u64, name: &Name) -> Reply
        ensures answer { result ≡ rmdir_reply self.old node name.now }
        ensures after { self.new ≡ after_unlink self.old name.now result }
    {
        self.check_names(node, Errno::ENOENT)?;
        let (number, found) = self.linked(name).ok_or(Errno::ENOENT)?;
        if !is_folder(found) {
            return Err(Errno::ENOTDIR);
        }
        self.free_name(number, name);
        self.sweep(number);
        Ok(Answer::Done)
    }

    /// FUSE_FORGET of `n` lookups of the node, or of all if it has fewer. The root's lookups aren't counted.
    pub fn forget(&mut self, node: u64, n: u64)
        ensures { self.new ≡ after_forget self.old node n }
    {
        match self.left_of(node, n) {
            None => {}
            Some((lookups, true)) => self.set_lookups(node, lookups),
            Some((_, false)) => self.remove_node(node),
        }
    }

    /// FUSE_RELEASE: closes an fh of the node; EBADF if it isn't open on it.
    pub fn close(&mut self, node: u64, fh: u64) -> Result<Closed, Errno>
        ensures answer { result ≡ close_reply self.old node fh }
        ensures after { self.new ≡ after_close self.old node fh result }
    {
        if self.node_of(fh) != Some(node) {
            return Err(Errno::EBADF);
        }
        self.close_file(node, fh);
        let last = !self.has_open_file(node);
        self.sweep(node);
        Ok(Closed { node, last })
    }

    /// Why no name is found in the node: it is unknown, or a folder (ENOENT), or a file (ENOTDIR).
    pub fn directory_error(&self, node: u64) -> Option<Errno>
        ensures { result ≡ directory_error self.now node }
    {
        self.check_names(node, Errno::ENOENT).err()
    }

    // Why no name can be looked for, or made, in a node, if none can. In a folder that isn't the root it is this error.
    fn check_names(&self, node: u64, in_folder: Errno) -> Result<(), Errno>
        ensures { result_err result ≡ names_error in_folder self.now node }
    {
        if node == ROOT {
            return Ok(());
        }
        match self.node_at(node) {
            None => Err(Errno::ENOENT),
            Some(found) if is_folder(found) => Err(in_folder),
            Some(_) => Err(Errno::ENOTDIR),
        }
    }

    // Makes this node under its name, if its file type can be made, and doesn't open it.
    fn add(&mut self, node: u64, can: bool, new: &Node) -> Reply
        requires { new.now.linked ≡ true }
        ensures answer { result ≡ make_reply self.old node can new.now }
        ensures after { self.new ≡ after_make self.old new.now result }
    {
        self.check_names(node, Errno::EPERM)?;
        if is_reserved(&new.name) {
            return Err(Errno::EINVAL);
        }
        match self.linked(&new.name) {
            Some(_) => Err(Errno::EEXIST),
            None if !can => Err(Errno::EPERM),
            None if self.nodes_full() => Err(Errno::ENOSPC),
            None => Ok(Answer::Entry(attributes(self.link(new, &new.name), new))),
        }
    }

    // Makes a file with this node, which is linked under this name.
    fn make(&mut self, node: &Node, name: &Name) -> Reply
        requires named { node.now.name ≡ name.now }
        requires has_it { node.now.linked ≡ true }
        requires free { linked self.old name.now ≡ None }
        ensures answer { result ≡ created self.old node.now }
        ensures after { self.new ≡ after_reply self.old node.now result }
    {
        if self.nodes_full() {
            return Err(Errno::ENOSPC);
        }
        if self.files_full() {
            return Err(Errno::ENFILE);
        }
        let attr = attributes(self.link(node, name), node);
        Ok(Answer::Made(attr, self.open_file(attr.node)))
    }

    // Looks the node of this number up once more, and opens it, if it is a file.
    fn reopen(&mut self, number: u64) -> Reply
        requires { IsSome (map.get self.old.nodes number) }
        ensures answer { IfSome (map.get self.old.nodes number)
            (λ node. result ≡ reopened self.old false (number, node)) }
        ensures ok { OnOk result (self.new ≡ record self.old {
          nodes = changed_at self.old.nodes number counted_up;
          files = map.insert self.old.files self.old.next_fh number;
          next_fh = self.old.next_fh + 1;
        }) }
        ensures err { OnErr result (self.new ≡ self.old) }
    {
        let Some(found) = self.node_at(number) else {
            unreachable!()
        };
        if is_folder(found) {
            return Err(Errno::EISDIR);
        }
        let lookups = next_lookups(found).ok_or(Errno::ENFILE)?;
        if self.files_full() {
            return Err(Errno::ENFILE);
        }
        let attr = attributes(number, found);
        self.set_lookups(number, lookups);
        Ok(Answer::Made(attr, self.open_file(number)))
    }
}
