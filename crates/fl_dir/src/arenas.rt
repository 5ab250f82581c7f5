//! The arenas that hold a directory.
ghost use Rattle.std.specs.Prelude.{◌≡◌, length};
ghost use Rattle.fl_dir.specs.Arenas.{bare, joined, values_on};
ghost use Rattle.fl_dir.specs.Listed.{nodes_on, IsListed};

use crate::dir::Dir;
use crate::nodes::Slot;
use fl_arena::Arena;

/// The arenas that hold a directory: what contracts see of it stands in the first and the last.
#[derive(Clone, Copy)]
pub struct DirArenas<'a> {
    /// The nodes, each under its number.
    pub nodes: &'a Arena<(u64, Slot)>,
    /// The numbers of the linked nodes, each with the hash of its name.
    pub names: &'a Arena<(u64, u32)>,
    /// The node on which each fh is open, under the fh.
    pub files: &'a Arena<(u64, u64)>,
    /// How many chains the arena of nodes has.
    pub node_chains: usize,
    /// How many chains the arena of open files has.
    pub file_chains: usize,
    /// The number of the node that is made next.
    pub next_node: u64,
    /// The number of the file that is opened next.
    pub next_fh: u64,
}

impl Dir {
    ghost use Rattle.fl_dir.specs.Linked.{AreLinked};

    /// The arenas that hold the directory.
    pub fn arenas(&self) -> DirArenas<'_>
        ensures nodes { bare (values_on result.nodes.now) ≡ self.now.nodes }
        ensures files { values_on result.files.now ≡ self.now.files }
        ensures listed { IsListed self.now (nodes_on result.nodes.now) (joined result.files.now.chains) }
        ensures chains { (result.node_chains ≡ length result.nodes.now.chains)
            × (result.file_chains ≡ length result.files.now.chains) }
        ensures next { (result.next_node ≡ self.now.next_node) × (result.next_fh ≡ self.now.next_fh) }
        ensures linked { AreLinked result }
    {
        self.names.entries.keeps_links();
        let (nodes, node_chains) = self.nodes.arena();
        let (files, file_chains) = self.files.arena();
        DirArenas {
            nodes,
            names: &self.names.entries,
            files,
            node_chains,
            file_chains,
            next_node: self.nodes.next(),
            next_fh: self.files.next(),
        }
    }
}
