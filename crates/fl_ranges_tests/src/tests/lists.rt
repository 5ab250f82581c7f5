//! Both texts of a list of locks with a file whose name isn't known, which no program lists. `tests/locks/listing.py`
//! has the others.

use fl_locks::{Blockers, LockRow, lock_json, lock_table};
use fl_marks::{Class, Key, Kind, LAST_BYTE, Mark};
use std::alloc::Global;

const TABLE: &str = "\
TYPE  MODE START END PID OWNER UNIQUE BLOCKER FILE
FLOCK READ     0 EOF  42    11      - -       - (deleted)
";

const JSON: &str = "[\
{\"type\":\"FLOCK\",\"mode\":\"READ\",\"waits\":false,\"start\":0,\"end\":9223372036854775807,\"pid\":42,\"owner\":11,\
\"unique\":null,\"blockers\":[],\"node\":2,\"name\":null}\
]
";

// A lock on a whole file.
fn rows(alloc: Global) -> [LockRow; 1] {
    [LockRow {
        key: Key {
            class: Class::Flock,
            node: 2,
            owner: 11,
        },
        start: 0,
        end: LAST_BYTE,
        mark: Mark {
            kind: Kind::Read,
            pid: 42,
        },
        name: None,
        linked: false,
        unique: None,
        blockers: Blockers::new(Vec::new(alloc)),
    }]
}

#[test]
fn a_file_without_a_name_as_a_table(rt: HostRuntime) {
    let text = lock_table(rt.alloc(), &rows(rt.alloc())).expect(&rt, "memory");
    assert_eq!(rt; text.as_str(), TABLE);
}

#[test]
fn a_file_without_a_name_as_json(rt: HostRuntime) {
    let text = lock_json(rt.alloc(), &rows(rt.alloc())).expect(&rt, "memory");
    assert_eq!(rt; text.as_str(), JSON);
}
