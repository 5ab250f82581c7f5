//! A directory that is put back, node by node and file by file.
ghost use Rattle.std.specs.Prelude.{◌≡◌, None, IsSome, true, false};
ghost use Rattle.std.specs.FinMap as map;
ghost use Rattle.fl_dir.specs.Directory.{linked};
ghost use Rattle.fl_dir.specs.Restored.{has_node_place, has_file_place, fits_node, fits_file, with_node, with_file};

use crate::dir::{Dir, ROOT};
use crate::node::Node;
use crate::nodes::Slot;

impl Dir {
    /// Puts a node back, if it fits, and says whether it did. It takes no memory.
    pub fn restore_node(&mut self, number: u64, node: &Node) -> bool
        ensures fits { result ≡ fits_node self.old number node.now }
        ensures after { result ≡ true → self.new ≡ with_node self.old number node.now }
        ensures refused { result ≡ false → self.new ≡ self.old }
    {
        if !self.has_node_place(number) || (node.linked && self.linked(&node.name).is_some()) {
            return false;
        }
        self.put_node(number, node);
        true
    }

    /// Puts an open file back, if it fits, and says whether it did. It takes no memory.
    pub fn restore_file(&mut self, fh: u64, node: u64) -> bool
        ensures fits { result ≡ fits_file self.old fh node }
        ensures after { result ≡ true → self.new ≡ with_file self.old fh node }
        ensures refused { result ≡ false → self.new ≡ self.old }
    {
        if !self.has_file_place(fh) || self.node_at(node).is_none() {
            return false;
        }
        self.put_file(fh, node);
        true
    }

    fn has_node_place(&self, number: u64) -> bool
        ensures { result ≡ has_node_place self.now number }
    {
        number > ROOT && self.nodes.has_place(number)
    }

    fn has_file_place(&self, fh: u64) -> bool
        ensures { result ≡ has_file_place self.now fh }
    {
        fh != 0 && self.files.has_place(fh)
    }

    // A node, under a name that is free if it has it.
    fn put_node(&mut self, number: u64, node: &Node)
        requires place { has_node_place self.old number ≡ true }
        requires free { node.now.linked ≡ true → linked self.old node.now.name ≡ None }
        ensures { self.new ≡ with_node self.old number node.now }
    {
        self.nodes.put(
            number,
            Slot {
                node: *node,
                fhs: 0,
            },
        );
        if node.linked {
            self.names.link_again(&node.name, number);
        }
    }

    // An fh on a node that is there.
    fn put_file(&mut self, fh: u64, node: u64)
        requires place { has_file_place self.old fh ≡ true }
        requires there { IsSome (map.get self.old.nodes node) }
        ensures { self.new ≡ with_file self.old fh node }
    {
        self.nodes.at_mut(node).fhs += 1;
        self.files.put(fh, node);
    }
}
