//! How a connection ends.

use std::net::Shutdown;
use std::os::unix::net::UnixStream;

/// A connection that can be hung up. A session that gets one can't read or write there.
pub trait HangUp {
    /// Ends the connection.
    fn hang_up(&self);
}

impl HangUp for UnixStream {
    fn hang_up(&self) {
        let _ = self.shutdown(Shutdown::Both);
    }
}

/// Ends a connection, if there is one: its client hears that before the trace is printed, which may take until somebody
/// reads it.
pub fn hang_up_if<H: HangUp>(connection: Option<&H>) {
    if let Some(connection) = connection {
        connection.hang_up();
    }
}
