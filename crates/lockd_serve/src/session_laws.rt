//! Laws of sessions, in the words of `fl_session`. Each is the contract of an empty function.
//!
//! Two say that a session behind a head, if it heard the last lines before that, goes on as one behind all lines. One
//! says which files a client is told that lists the root of a whole session, the last one what others answer.

ghost use Rattle.std.specs.Prelude.{◌≡◌, ◌<◌, ◌≤◌, ◌⊎◌, ℕ, Bool, true, false, All, Contains, List, [], ◌∷◌, ◌++◌, length};
ghost use Rattle.std.specs.Prelude.{Some, Err};
ghost use Rattle.fl_core.specs.State.{snapshot_of};
ghost use Rattle.fl_desk.specs.Heads.{IsHead, head_lines};
ghost use Rattle.fl_desk.specs.Legal.{IsLegal};
ghost use Rattle.fl_desk.specs.Replay.{state_after};
ghost use Rattle.fl_dir.specs.Directory.{Listing};
ghost use Rattle.fl_history.specs.Recent.{recalled, recent, spoken};
ghost use Rattle.fl_history.specs.declared.history.Line.{Line};
ghost use Rattle.fl_order.specs.declared.errno.Errno.{Errno};
ghost use Rattle.fl_order.specs.declared.errno.Errno.TheVariants.{ENOSYS};
ghost use Rattle.fl_order.specs.declared.refusal.Refusal.TheVariants.{Answer};
ghost use Rattle.fl_order.specs.declared.state_part.Head.{Head};
ghost use Rattle.fl_order.specs.declared.state_part.StatePart.{StatePart};
ghost use Rattle.fl_session.specs.Session.{Came, Session, session_behind, session_from};
ghost use Rattle.fl_session.specs.Whole.{bytes_in, entries_behind};
ghost use Rattle.fl_transport.specs.Handshake.{incoming_by, refused, said_to};
ghost use Rattle.fl_transport.specs.Response.{bytes_of, error_to};
ghost use Rattle.fl_transport.specs.declared.handshake.Incoming.TheVariants as incoming;
ghost use Rattle.fl_transport.specs.declared.response.Response.{Response};
ghost use Rattle.fl_waiting.specs.declared.rules.Rules.{Rules};
ghost use Rattle.fl_wire.specs.Layout.{unique_of};
ghost use Rattle.fl_wire.specs.Listing.{Dirent, fitting};
ghost use Rattle.fl_wire.specs.Says.{said};
ghost use Rattle.fl_wire.specs.Whole.{is_for_whole, whole_ask};
ghost use Rattle.fl_wire.specs.declared.whole.WholeAsk.{WholeAsk};
ghost use Rattle.lockd_serve.specs.Alike.{AreAlike, DoTheSame, IsHeardEnough};
ghost use Rattle.lockd_serve.specs.Lists.{AreCalls, AreRising, Call, HasShortNames, IsAnswered, IsLinkedThroughout};
ghost use Rattle.lockd_serve.specs.Lists.{IsOfFile, ListAll, nodes_told_by, root_entries, told_by};

use fl_desk::laws::{a_history_can_be_cut, a_legal_history_goes_on_by_orders, an_order_leads_on};

/// Two sessions under the same rules are as far, their lines lead to the same, and with those that each heard before
/// say the same of each unique. Then they go on alike for ever: to the same messages they send the same replies, and add
/// the same lines. So all that is proved of a session behind all lines is so of one behind a head that tells what is
/// there after them.
pub fn sessions_with_one_state_go_on_alike()
    ensures { (s t : Session) (came : List Came) → AreAlike s t → AreAlike (session_from s came) (session_from t came)
        × DoTheSame s t (session_from s came) (session_from t came) }
{
    an_order_leads_on();
}

/// A history stands in pieces, and the last begins with a head that tells what is there after the lines before it. A
/// session goes on behind that piece, and heard the last lines of the pieces before: their orders and replies are all
/// that there are, or with those of the piece at least 65,536. Then it is alike to a session behind all lines, as the
/// law before this one wants, which itself may have heard `earlier` lines. Lines of heads count for nothing: neither the
/// piece's own, nor those that it heard, if the piece before begins with some.
pub fn the_last_lines_of_the_piece_before_are_enough()
    ensures head { (head : Head) (parts : List StatePart) → spoken (head_lines head parts) ≡ [] }
    ensures enough { (front heard rest : List Line)
        → (spoken front ≡ []) ⊎ (65536 ≤ length (spoken (heard ++ rest))) → IsHeardEnough (front ++ heard) heard rest }
    ensures recalled { (earlier before heard head rest : List Line) → spoken head ≡ []
        → IsHeardEnough (earlier ++ before) heard rest → (unique : ℕ) (more : List Line)
        → recalled unique (recent (heard ++ ((head ++ rest) ++ more)))
        ≡ recalled unique (recent (earlier ++ ((before ++ rest) ++ more))) }
    ensures alike { (rules : Rules) (earlier before heard head rest : List Line) → IsLegal rules before
        → IsHead rules head → snapshot_of (state_after rules head) ≡ snapshot_of (state_after rules before)
        → IsLegal rules (head ++ rest) → IsHeardEnough (earlier ++ before) heard rest
        → AreAlike (session_behind rules earlier (before ++ rest) true)
        (session_behind rules heard (head ++ rest) true) }
{
    a_legal_history_goes_on_by_orders();
    a_history_can_be_cut();
}

/// A client lists the root of a whole session by several READDIRs, each behind the last entry that was told by then.
/// Files and folders may be made and unlinked between them. A reply has the first entries behind its cookie, as many as
/// fit: none only at the end, if there is room for the longest name. Cookies rise, so no entry is told twice. If the
/// last READDIR finds no more, each file or folder that was linked from the first to the last is told, and so are `.`
/// and `..`. Any other entry is that of a file or folder that was linked when it was told.
pub fn a_list_has_each_file_once()
    ensures reply { (d : Listing) (cookie most : ℕ) → IsAnswered d cookie (fitting most (entries_behind d 1 cookie)) }
    ensures end { (d : Listing) (cookie most : ℕ) → HasShortNames d → 280 ≤ most
        → fitting most (entries_behind d 1 cookie) ≡ [] → entries_behind d 1 cookie ≡ [] }
    ensures once { (cookie : ℕ) (calls : List Call) → AreCalls cookie calls → AreRising cookie (told_by calls) }
    ensures all { (calls : List Call) (last : Call) (number : ℕ) → ListAll calls last → 1 < number
        → IsLinkedThroughout number (calls ++ last ∷ []) → Contains (nodes_told_by calls) number }
    ensures root { (calls : List Call) (last : Call) → ListAll calls last
        → All (Contains (told_by calls)) root_entries }
    ensures only { (calls : List Call) (e : Dirent) → Contains (told_by calls) e
        → Contains root_entries e ⊎ IsOfFile calls e }
{}

/// What whole sessions alone answer is no order, or it is a MKNOD, a MKDIR or an RMDIR. A session that isn't whole
/// answers it as it does any message that it doesn't know, whatever its body is, and all else as it would if there were
/// no whole sessions.
pub fn a_session_that_is_not_whole_knows_nothing_more()
    ensures no_order { (message : List ℕ) (ask : WholeAsk) → whole_ask message ≡ Some ask
        → said message ≡ Err (Answer ENOSYS) }
    ensures alike { (whole : Bool) (message : List ℕ) → is_for_whole message ≡ false
        → said_to whole message ≡ said message }
    ensures unknown { (message : List ℕ) → is_for_whole message ≡ true
        → incoming_by message (said_to false message) ≡ incoming.Response (error_to (unique_of message) ENOSYS) }
    ensures plain { (rules : Rules) (lines : List Line) (response : Response) → rules.whole ≡ false
        → bytes_in rules lines response ≡ bytes_of response }
    ensures refused { (rules : Rules) (lines : List Line) (message : List ℕ) (e : Errno) → rules.whole ≡ false
        → said_to false message ≡ Err (Answer e) → bytes_in rules lines (refused message e (whole_ask message))
        ≡ bytes_of (error_to (unique_of message) e) }
{}
