//! How many workers a session has.

ghost use Rattle.std.specs.Prelude.{◌≡◌, ◌<◌, ◌≤◌, if◌then◌else◌, ◌&&◌, nat_lt, nat_le};

/// So many workers, if that is 1 to 16; or else one.
pub fn of_workers(workers: u32) -> u32
    ensures range { (0 < result) × (result ≤ 16) }
    ensures number { result ≡ if nat_lt 0 workers && nat_le workers 16 then workers else 1 }
{
    match workers {
        1..=16 => workers,
        _ => 1,
    }
}
