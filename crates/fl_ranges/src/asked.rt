//! Places of owners that stand in ascending order, and what is set at these places.
ghost use Rattle.std.specs.Prelude.{◌≡◌, ◌≢◌, ◌≤◌, ◌<◌, ◌↔◌, ℕ, true, false, length, slice_index_or, IsTrue};

// The first place from this one on whose owner isn't less, or the end.
pub(crate) fn skip_less(owners: &[u64], from: usize, owner: u64) -> usize
    requires { from ≤ length owners.now }
    ensures from { from ≤ result }
    ensures within { result ≤ length owners.now }
    ensures less { (k : ℕ) → from ≤ k → k < result → slice_index_or owners.now k 0 < owner }
    ensures stop { result < length owners.now → owner ≤ slice_index_or owners.now result 0 }
{
    for place in from..owners.len() {
        if owners[place] >= owner {
            return place;
        }
    }
    owners.len()
}

// The first place from this one on that has another owner, or the end.
pub(crate) fn skip_same(owners: &[u64], from: usize, owner: u64) -> usize
    requires { from ≤ length owners.now }
    ensures from { from ≤ result }
    ensures within { result ≤ length owners.now }
    ensures same { (k : ℕ) → from ≤ k → k < result → slice_index_or owners.now k 0 ≡ owner }
    ensures stop { result < length owners.now → slice_index_or owners.now result 0 ≢ owner }
{
    for place in from..owners.len() {
        if owners[place] != owner {
            return place;
        }
    }
    owners.len()
}

// Whether all places from one up to another are set.
pub(crate) fn all_set(found: &[bool], from: usize, end: usize) -> bool
    requires order { from ≤ end }
    requires within { end ≤ length found.now }
    ensures { IsTrue result ↔ ((k : ℕ) → from ≤ k → k < end → slice_index_or found.now k false ≡ true) }
{
    for place in from..end {
        if !found[place] {
            return false;
        }
    }
    true
}

// Sets all places from one up to another.
pub(crate) fn set_all(found: &mut [bool], from: usize, end: usize)
    requires order { from ≤ end }
    requires within { end ≤ length found.old }
    ensures set { (k : ℕ) → from ≤ k → k < end → slice_index_or found.new k false ≡ true }
    ensures before { (k : ℕ) → k < from → slice_index_or found.new k false ≡ slice_index_or found.old k false }
    ensures behind { (k : ℕ) → end ≤ k → slice_index_or found.new k false ≡ slice_index_or found.old k false }
{
    for place in from..end {
        found[place] = true;
    }
}
