//! What a whole session answers besides orders, from what is there. No line tells of it.

ghost use Rattle.std.specs.Prelude.{◌≡◌, ◌+◌, ◌≤◌, ◌++◌, ◌∷◌, [], IfSome, None, length, min};
ghost use Rattle.fl_dir.specs.Directory.{attributes_at};
ghost use Rattle.fl_session.specs.Inside.UnderWay.{WritesBehind};
ghost use Rattle.fl_session.specs.Inside.Listing.{entry_of};
ghost use Rattle.fl_session.specs.Whole.{bytes_in, entries_behind, list_error, listing_error, mode_in, whole_reply};
ghost use Rattle.fl_transport.specs.Collecting.{Collects, outgoing};
ghost use Rattle.fl_transport.specs.Outbox.{writer_of};
ghost use Rattle.fl_wire.specs.Listing.{dirent_of, fitting, list_spelling};
ghost use Rattle.fl_wire.specs.Spell.{IsReply};

use crate::replying::Replying;
use fl_core::Core;
use fl_desk::Desk;
use fl_dir::{Dir, ROOT};
use fl_history::Journal;
use fl_order::{Answer, Errno, Told};
use fl_transport::laws::a_reply_by_itself_is_collected;
use fl_transport::{ReplyBuffer, Response};
use fl_wire::WholeAsk;
use std::io::Write;

// The most bytes of a list, and the fewest for which one can be asked: those of an entry with the longest name.
const MOST_LIST: u32 = 4096;

const LEAST_LIST: u32 = 280;

#[derive(Clone, Copy)]
struct Listed<'a> {
    node: u64,
    cookie: u64,
    mode: u32,
    name: &'a [u8],
}

impl<W: Write, J: Journal> Replying<'_, W, J> {
    /// Collects what a message is answered, by a whole session perhaps from what is there.
    pub(crate) fn respond(&mut self, desk: &mut Desk<J>, response: &Response)
        ensures same { (writer_of self.new.batch.out).ghost_name ≡ (writer_of self.old.batch.out).ghost_name }
        ensures desk { (desk.new.lines ≡ desk.old.lines) × (desk.new.present ≡ desk.old.present) }
        ensures collected { Collects (outgoing W.contents self.old.batch) (outgoing W.contents self.new.batch)
            (bytes_in desk.old.present.rules desk.old.lines response.now) }
        ensures behind { WritesBehind desk.old desk.new (outgoing W.contents self.old.batch)
            (outgoing W.contents self.new.batch) }
    {
        match response {
            Response::Whole(unique, ask) if desk.present().rules().whole => {
                self.collect_whole(desk, *unique, ask);
            }
            _ => self.collect(desk, response),
        }
    }

    // Collects what a whole session answers, before all other replies.
    fn collect_whole(&mut self, desk: &mut Desk<J>, unique: u64, ask: &WholeAsk)
        ensures same { (writer_of self.new.batch.out).ghost_name ≡ (writer_of self.old.batch.out).ghost_name }
        ensures desk { (desk.new.lines ≡ desk.old.lines) × (desk.new.present ≡ desk.old.present) }
        ensures collected { Collects (outgoing W.contents self.old.batch) (outgoing W.contents self.new.batch)
            (whole_reply desk.old.present.rules desk.old.present.view.directory unique ask.now ∷ []) }
        ensures behind { WritesBehind desk.old desk.new (outgoing W.contents self.old.batch)
            (outgoing W.contents self.new.batch) }
    {
        a_reply_by_itself_is_collected();
        self.send(desk);
        lay_out(&mut self.batch.replies, unique, ask, desk.present());
    }
}

// Lays out what is answered when this is there.
fn lay_out(replies: &mut ReplyBuffer, unique: u64, ask: &WholeAsk, present: &Core)
    ensures bytes { replies.new ≡ whole_reply present.now.rules present.now.view.directory unique ask.now }
    ensures reply { IsReply replies.new }
{
    let directory = present.directory();
    let result = match *ask {
        WholeAsk::List { node, cookie, size } => match list_error(directory, node, size) {
            None => return list(replies, unique, directory, node, cookie, size),
            Some(e) => Err(e),
        },
        WholeAsk::Statfs => {
            let files = u64::from(present.rules().files);
            return replies.lay_out_statfs(unique, files, directory.free_nodes() as u64);
        }
        WholeAsk::Read => Ok(Answer::Done),
        WholeAsk::Refused(e) => Err(e),
    };
    replies.lay_out(&Told { unique, result });
}

// Why there is no list of a node in so many bytes.
fn list_error(directory: &Dir, node: u64, size: u32) -> Option<Errno>
    ensures { result ≡ list_error (listing_error directory.now node) size }
{
    match directory.directory_error(node) {
        Some(e) if !directory.is_folder(node) => Some(e),
        _ if size < LEAST_LIST => Some(Errno::EINVAL),
        _ => None,
    }
}

// Lays out the list of a folder's entries behind a cookie, as far as they fit in so many bytes, and in 4,096.
fn list(replies: &mut ReplyBuffer, unique: u64, directory: &Dir, node: u64, cookie: u64, size: u32)
    ensures bytes { replies.new
        ≡ list_spelling unique (fitting (min size 4096) (entries_behind directory.now node cookie)) }
    ensures reply { IsReply replies.new }
{
    replies.begin_list(unique);
    append_entries(replies, directory, node, cookie, size.min(MOST_LIST));
    replies.end_list();
}

// Appends a folder's entries behind a cookie to a list that has none yet, as far as they have at most so many bytes.
fn append_entries(replies: &mut ReplyBuffer, directory: &Dir, node: u64, cookie: u64, most: u32)
    requires most { most ≤ 4096 }
    requires header { length replies.old ≡ 16 }
    ensures items { replies.new ≡ replies.old ++ fitting most (entries_behind directory.now node cookie) }
    ensures few { length replies.new ≤ 16 + most }
{
    let mut at = cookie;
    while let Some(entry) = entry_behind(directory, node, at) {
        if !replies.append_dirent(entry.node, entry.cookie, entry.mode, entry.name, most) {
            break;
        }
        at = entry.cookie;
    }
}

// The first entry of a folder behind a cookie.
fn entry_behind<'a>(directory: &'a Dir, node: u64, cookie: u64) -> Option<Listed<'a>>
    ensures some { IfSome result (λ e. entries_behind directory.now node cookie
        ≡ entry_of e ∷ entries_behind directory.now node e.cookie) }
    ensures none { result ≡ None → entries_behind directory.now node cookie ≡ [] }
    ensures short { IfSome result (λ e. length e.name.now ≤ 255) }
{
    match cookie {
        0 => Some(folder_entry(directory, node, 1, b".")),
        1 => Some(folder_entry(directory, ROOT, 2, b"..")),
        _ if node == ROOT => file_behind(directory, cookie),
        _ => None,
    }
}

// A folder's entry under this name, with this cookie.
fn folder_entry<'a>(directory: &Dir, node: u64, cookie: u64, name: &'a [u8]) -> Listed<'a>
    ensures entry { entry_of result ≡ dirent_of node cookie (mode_in (attributes_at directory.now node)) name.now }
    ensures given { (result.cookie ≡ cookie) × (result.name.now ≡ name.now) }
{
    let mode = match directory.getattr(node) {
        Ok(Answer::Attr(attr)) => attr.mode,
        _ => 0,
    };
    Listed {
        node,
        cookie,
        mode,
        name,
    }
}

// The first entry of the root behind a cookie that is a node's or that of `..`.
fn file_behind<'a>(directory: &'a Dir, cookie: u64) -> Option<Listed<'a>>
    requires { 2 ≤ cookie }
    ensures some { IfSome result (λ e. entries_behind directory.now 1 cookie
        ≡ entry_of e ∷ entries_behind directory.now 1 e.cookie) }
    ensures none { result ≡ None → entries_behind directory.now 1 cookie ≡ [] }
    ensures short { IfSome result (λ e. length e.name.now ≤ 255) }
{
    match directory.next_linked(cookie) {
        None => None,
        Some((number, node)) => Some(Listed {
            node: number,
            cookie: number + 1,
            mode: node.mode,
            name: node.name.as_bytes(),
        }),
    }
}
