//! What a server goes on from.

use fl_history::{Line, Past, Place, Recent};
use fl_judge::Resumed;
use fl_session::SessionRoom;
use fl_stream::StreamRoom;

/// What a server goes on from behind the whole lines of a trace's file. All memory that it needs is there.
#[derive(Drop)]
pub struct ResumePoint {
    /// What is there after the lines and the replies that they lack.
    pub resumed: Resumed,
    /// The lines of pieces before, as far as they were read: of these and the others the last are known.
    pub heard: Past<Line>,
    /// The last of the lines, and of those that were heard before.
    pub recent: Recent,
    /// How many orders and replies the file has: 65,536, if there are more.
    pub since: u64,
    /// Where the lines end.
    pub place: Place,
    /// The bytes of the lines, each with its newline.
    pub bytes: u64,
    /// The memory of its session, and by which rules requests wait.
    pub session: SessionRoom,
    /// The memory for the text of its lines.
    pub stream: StreamRoom,
}
