//! The directory's open files.
ghost use Rattle.std.specs.Prelude.{◌≡◌, ◌+◌, Some, IsSome, false};
ghost use Rattle.std.specs.FinMap as map;
ghost use Rattle.fl_dir.specs.OpenFiles.{files_full};

use crate::dir::Dir;

impl Dir {
    /// The node on which an fh is open.
    pub fn node_of(&self, fh: u64) -> Option<u64>
        ensures { result ≡ map.get self.now.files fh }
    {
        self.files.get(fh).copied()
    }

    pub(crate) fn files_full(&self) -> bool
        ensures { result ≡ files_full self.now }
    {
        self.files.is_full()
    }

    // The next fh, open on a node that is there.
    pub(crate) fn open_file(&mut self, node: u64) -> u64
        requires room { files_full self.old ≡ false }
        requires there { IsSome (map.get self.old.nodes node) }
        ensures fh { result ≡ self.old.next_fh }
        ensures after { self.new ≡ record self.old {
          files = map.insert self.old.files self.old.next_fh node;
          next_fh = self.old.next_fh + 1;
        } }
    {
        self.nodes.at_mut(node).fhs += 1;
        self.files.push(node)
    }

    // An fh that is open on this node is closed.
    pub(crate) fn close_file(&mut self, node: u64, fh: u64)
        requires { map.get self.old.files fh ≡ Some node }
        ensures { self.new ≡ record self.old { files = map.remove self.old.files fh } }
    {
        self.nodes.at_mut(node).fhs -= 1;
        self.files.remove(fh);
    }
}
