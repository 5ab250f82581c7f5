//! The directory's nodes.
ghost use Rattle.std.specs.Prelude.{◌≡◌, ◌+◌, ◌==◌, ◌||◌, not, Some, None, IfSome, IsSome, option_map, true, false};
ghost use Rattle.std.specs.FinMap as map;
ghost use Rattle.std.specs.Option.{option_copied};
ghost use Rattle.fl_dir.specs.Directory.{is_folder_at, is_known, is_named, linked, nodes_full};
ghost use Rattle.fl_dir.specs.Inside.Kept.{has_name, is_dead, left_of};
ghost use Rattle.fl_dir.specs.Naming.{name_at, is_linked_at};
ghost use Rattle.fl_dir.specs.OpenFiles.{has_open_file};
ghost use Rattle.fl_dir.specs.Changes.{swept, changed_at, without_link};

use crate::dir::{Dir, ROOT};
use crate::names::{hash_of, is_named};
use crate::node::{Node, is_folder};
use crate::numbered::chain_of;
use fl_order::Name;

/// What a directory keeps under the number of a node.
#[derive(Clone, Copy)]
pub struct Slot {
    /// How many fhs are open on the node.
    pub fhs: u32,
    /// The node.
    pub node: Node,
}

impl Slot {
    // Something keeps its node alive, if that has so many lookups.
    fn lives_with(&self, lookups: u64) -> bool
        ensures { result ≡ (self.now.node.linked || not (lookups == 0) || not (self.now.fhs == 0)) }
    {
        self.node.linked || lookups != 0 || self.fhs != 0
    }
}

impl Dir {
    /// The node of a number other than the root's.
    pub fn node_at(&self, number: u64) -> Option<&Node>
        ensures { option_copied result ≡ map.get self.now.nodes number }
    {
        match self.nodes.get(number) {
            None => None,
            Some(slot) => Some(&slot.node),
        }
    }

    /// Whether a node is a folder. The root isn't one of these.
    pub fn is_folder(&self, number: u64) -> bool
        ensures { result ≡ is_folder_at self.now number }
    {
        match self.node_at(number) {
            None => false,
            Some(node) => is_folder(node),
        }
    }

    /// The name under which a node was made; none for the root, and for a number that no node has.
    pub fn name_of(&self, number: u64) -> Option<Name>
        ensures { result ≡ name_at self.now number }
    {
        Some(self.node_at(number)?.name)
    }

    /// Whether a node still has its name. The root, and a number that no node has, have none.
    pub fn is_linked(&self, number: u64) -> bool
        ensures { result ≡ is_linked_at self.now number }
    {
        match self.node_at(number) {
            None => false,
            Some(node) => node.linked,
        }
    }

    pub(crate) fn is_known(&self, number: u64) -> bool
        ensures { result ≡ is_known self.now number }
    {
        number == ROOT || self.node_at(number).is_some()
    }

    // The node that is linked under the name, with its number.
    pub(crate) fn linked(&self, name: &Name) -> Option<(u64, &Node)>
        ensures linked { option_map (λ e. (e.0, e.1.now)) result ≡ linked self.now name.now }
        ensures listed { IfSome result (λ e. map.get self.now.nodes e.0 ≡ Some e.1.now) }
        ensures named { IfSome result (λ e. e.1.now.name ≡ name.now) }
        ensures has_it { IfSome result (λ e. e.1.now.linked ≡ true) }
    {
        let hash = hash_of(name);
        let chain = chain_of(u64::from(hash), self.names.mask);
        let at = self.names.entries.first_where(chain, |here| {
            here.1 == hash && self.has_name(here.0, name)
        });
        match self.names.entries.get(&at) {
            None => None,
            Some((number, _)) => Some((number, &self.nodes.at(number).node)),
        }
    }

    // The node of this number is linked under this name.
    fn has_name(&self, number: u64, name: &Name) -> bool
        ensures { result ≡ has_name (map.get self.now.nodes number) name.now }
    {
        match self.node_at(number) {
            None => false,
            Some(node) => is_named(node, name),
        }
    }

    pub(crate) fn nodes_full(&self) -> bool
        ensures { result ≡ nodes_full self.now }
    {
        self.nodes.is_full()
    }

    // Some fh is open on the node.
    pub(crate) fn has_open_file(&self, node: u64) -> bool
        ensures { result ≡ has_open_file self.now node }
    {
        match self.nodes.get(node) {
            None => false,
            Some(slot) => slot.fhs != 0,
        }
    }

    // A node of this number is there, and nothing keeps it alive.
    fn is_dead(&self, number: u64) -> bool
        ensures { result ≡ is_dead self.now number (map.get self.now.nodes number) }
    {
        match self.nodes.get(number) {
            None => false,
            Some(slot) => !slot.lives_with(slot.node.lookups),
        }
    }

    // How many lookups the node of this number has with `n` less, at least none, and whether something keeps it alive
    // then.
    pub(crate) fn left_of(&self, number: u64, n: u64) -> Option<(u64, bool)>
        ensures { result ≡ option_map (left_of self.now number n) (map.get self.now.nodes number) }
    {
        match self.nodes.get(number) {
            None => None,
            Some(slot) => {
                let lookups = slot.node.lookups.saturating_sub(n);
                Some((lookups, slot.lives_with(lookups)))
            }
        }
    }

    // Without the node, if nothing keeps it alive.
    pub(crate) fn sweep(&mut self, number: u64)
        ensures { self.new ≡ swept number self.old }
    {
        if self.is_dead(number) {
            self.remove_node(number);
        }
    }

    // A node goes that is there, isn't linked and isn't open.
    pub(crate) fn remove_node(&mut self, number: u64)
        requires unlinked { IfSome (map.get self.old.nodes number) (λ node. node.linked ≡ false) }
        requires closed { has_open_file self.old number ≡ false }
        requires there { IsSome (map.get self.old.nodes number) }
        ensures { self.new ≡ record self.old { nodes = map.remove self.old.nodes number } }
    {
        self.nodes.remove(number);
    }

    // The node, which is linked under this name, gets the next number. No other has the name.
    pub(crate) fn link(&mut self, node: &Node, name: &Name) -> u64
        requires room { nodes_full self.old ≡ false }
        requires named { node.now.name ≡ name.now }
        requires has_it { node.now.linked ≡ true }
        requires free { linked self.old name.now ≡ None }
        ensures number { result ≡ self.old.next_node }
        ensures fresh { map.get self.old.nodes self.old.next_node ≡ None }
        ensures after { self.new ≡ record self.old {
          nodes = map.insert self.old.nodes self.old.next_node node.now;
          next_node = self.old.next_node + 1;
        } }
    {
        let number = self.nodes.push(Slot {
            node: *node,
            fhs: 0,
        });
        self.names.link(name, number);
        number
    }

    // The node of this number has so many lookups.
    pub(crate) fn set_lookups(&mut self, number: u64, lookups: u64)
        requires { IsSome (map.get self.old.nodes number) }
        ensures { self.new ≡ record self.old {
          nodes = changed_at self.old.nodes number (λ node. record node { lookups = lookups });
        } }
    {
        self.nodes.at_mut(number).node.lookups = lookups;
    }

    // The node of this number, which is linked under this name, loses it.
    pub(crate) fn free_name(&mut self, number: u64, name: &Name)
        requires named { IfSome (map.get self.old.nodes number) (λ node. node.name ≡ name.now) }
        requires has_it { IfSome (map.get self.old.nodes number) (λ node. node.linked ≡ true) }
        requires there { IsSome (map.get self.old.nodes number) }
        ensures { self.new ≡ record self.old { nodes = changed_at self.old.nodes number without_link } }
    {
        self.nodes.at_mut(number).node.linked = false;
        self.names.unlink(name, number);
    }
}
