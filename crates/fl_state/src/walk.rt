//! Walks along an arena, which tell what stands there.

ghost use Rattle.std.specs.Prelude.{◌≡◌, ◌<◌, ◌++◌, true, IsTrue, length, map};
ghost use Rattle.fl_arena.specs.Chains.{items};
ghost use Rattle.fl_state.specs.Inside.Saying.{all_items};

use crate::saying::Says;
use crate::sink::StateSink;
use fl_arena::Arena;

/// Tells what stands on all chains, chain after chain. It ends once the sink takes no more.
pub(crate) fn tell_all<T: Copy + Says, S: StateSink>(
    arena: &Arena<T>,
    chains: usize,
    sink: &mut S,
) -> bool
    requires { chains ≡ length arena.now.chains }
    ensures infallible { IsTrue S.infallible → result ≡ true }
    ensures kept { S.kept sink.new ≡ S.kept sink.old }
    ensures told { result ≡ true → S.told sink.new ≡ S.told sink.old ++ map T.said (all_items arena.now) }
{
    for chain in 0..chains {
        if !tell_chain(arena, chain, sink) {
            return false;
        }
    }
    true
}

/// Tells what stands on a chain, from the first on.
pub(crate) fn tell_chain<T: Copy + Says, S: StateSink>(
    arena: &Arena<T>,
    chain: usize,
    sink: &mut S,
) -> bool
    requires { chain < length arena.now.chains }
    ensures infallible { IsTrue S.infallible → result ≡ true }
    ensures kept { S.kept sink.new ≡ S.kept sink.old }
    ensures told { result ≡ true → S.told sink.new ≡ S.told sink.old ++ map T.said (items arena.now chain) }
{
    let mut cursor = arena.cursor(chain);
    while let Some(item) = arena.item(&cursor) {
        if !sink.tell(&item.part()) {
            return false;
        }
        arena.step(&mut cursor);
    }
    true
}
