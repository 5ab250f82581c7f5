//! Where replies are laid out.

ghost use Rattle.std.specs.Prelude.{◌≡◌, ◌≤◌, ◌++◌, [], length, true, false, IfOk, IsTrue, ◌↔◌};
ghost use Rattle.fl_wire.specs.Init.{init_spelling};
ghost use Rattle.fl_wire.specs.Listing.{dirent_of, dirent_bytes, EndsList, FitsBehind};
ghost use Rattle.fl_wire.specs.Spell.{header_bytes, statfs_spelling, spelling_of, IsReply};

use fl_order::{NoMemory, Told};
use fl_wire::{
    InitStep, append_dirent, begin_list, end_list, write_init, write_statfs, write_told,
};
use std::alloc::Global;
use std::marker::Model;

// The most bytes of a reply but a list.
const REPLY_BYTES: usize = 160;

// The most bytes of replies that go out together: those of some 32 locks. Fewer would cost more writes, and more would
// keep a client waiting that could read those while others are answered.
const BATCH_BYTES: usize = 672;

// The most bytes of a reply that lies by itself: those of a list, with its header.
const ALONE_BYTES: usize = 4112;

/// Where replies are laid out, each by itself or one behind the other. Contracts see the bytes that lie there.
pub struct ReplyBuffer {
    bytes: Vec<u8>,
}

impl Model for ReplyBuffer {
    ghost use Rattle.std.specs.Prelude.{List, ℕ, ◌≤◌, vec_capacity};

    ghost Value = { List ℕ };

    ghost view = { λ r. r.bytes.items };

    ghost invariant = { λ r. 4112 ≤ vec_capacity r.bytes };
}

impl Drop for ReplyBuffer {
    // One call for an owner, and not a step for each part.
    fn drop(self) {
        let ReplyBuffer { bytes: _bytes } = self;
    }
}

impl ReplyBuffer {
    /// Room for the replies that go out together, and for a list by itself; no reply is there yet.
    pub fn new(alloc: Global) -> Result<ReplyBuffer, NoMemory>
        ensures { IfOk result (λ made. made ≡ []) }
    {
        Ok(ReplyBuffer {
            bytes: Vec::with_capacity(alloc, ALONE_BYTES)?,
        })
    }

    /// Lays out a reply behind the others, if there is room for any but a list, and says whether it did.
    pub fn append(&mut self, told: &Told) -> bool
        ensures done { result ≡ true → self.new ≡ self.old ++ spelling_of told.now }
        ensures full { result ≡ false → self.new ≡ self.old }
        ensures room { self.old ≡ [] → result ≡ true }
        ensures reply { result ≡ true → IsReply (spelling_of told.now) }
    {
        if self.bytes.len() + REPLY_BYTES > BATCH_BYTES {
            return false;
        }
        write_told(told, &mut self.bytes).unwrap();
        true
    }

    /// Takes all replies away.
    pub fn clear(&mut self)
        ensures { self.new ≡ [] }
    {
        self.bytes.clear();
    }

    /// Whether no reply lies there.
    pub fn is_empty(&self) -> bool
        ensures { IsTrue result ↔ (self.now ≡ []) }
    {
        self.bytes.is_empty()
    }

    /// Lays out a reply by itself.
    pub fn lay_out(&mut self, told: &Told)
        ensures bytes { self.new ≡ spelling_of told.now }
        ensures reply { IsReply (spelling_of told.now) }
    {
        self.bytes.clear();
        write_told(told, &mut self.bytes).unwrap();
    }

    /// Lays out the reply to an INIT by itself.
    pub fn lay_out_init(&mut self, unique: u64, step: &InitStep)
        ensures bytes { self.new ≡ init_spelling unique step.now }
        ensures reply { IsReply (init_spelling unique step.now) }
    {
        self.bytes.clear();
        write_init(unique, step, &mut self.bytes).unwrap();
    }

    /// Lays out by itself the reply that tells how many files there may be, and how many more.
    pub fn lay_out_statfs(&mut self, unique: u64, files: u64, free: u64)
        ensures bytes { self.new ≡ statfs_spelling unique files free }
        ensures reply { IsReply (statfs_spelling unique files free) }
    {
        self.bytes.clear();
        write_statfs(unique, files, free, &mut self.bytes).unwrap();
    }

    /// Begins a list by itself: a reply without entries, which doesn't tell its length before `end_list`.
    pub fn begin_list(&mut self, unique: u64)
        ensures { self.new ≡ header_bytes 0 0 unique }
    {
        self.bytes.clear();
        begin_list(unique, &mut self.bytes);
    }

    /// Appends an entry to the list, if the entries then have at most `most` bytes together, and says whether it did.
    pub fn append_dirent(
        &mut self,
        node: u64,
        cookie: u64,
        mode: u32,
        name: &[u8],
        most: u32,
    ) -> bool
        requires short { length name.now ≤ 255 }
        requires most { most ≤ 4096 }
        ensures fits { IsTrue result ↔ FitsBehind self.old most (dirent_of node cookie mode name.now) }
        ensures done { result ≡ true → self.new ≡ self.old ++ dirent_bytes (dirent_of node cookie mode name.now) }
        ensures full { result ≡ false → self.new ≡ self.old }
    {
        append_dirent(node, cookie, mode, name, most, &mut self.bytes)
    }

    /// Ends the list: it tells its length.
    pub fn end_list(&mut self)
        requires header { 16 ≤ length self.old }
        requires few { length self.old ≤ 4112 }
        ensures ends { EndsList self.old self.new }
        ensures reply { IsReply self.new }
    {
        end_list(&mut self.bytes);
    }

    /// The bytes that lie there.
    pub fn as_slice(&self) -> &[u8]
        ensures { result.now ≡ self.now }
    {
        &self.bytes
    }
}
