//! Orders: the messages that reach the lock state, by what they ask.

ghost use Rattle.std.specs.Prelude.{◌≡◌, ◌≢◌, ◌↔◌, Some, IsSome, Ok};
ghost use Rattle.fl_order.specs.Order.{only_reads};

use crate::body::{Body, Shape};
use crate::kind::OpKind;
use crate::name::Name;

/// A message that reaches the lock state.
#[derive(Clone, Copy, Debug, PartialEq, Eq)]
pub struct Order {
    /// The number by which its reply is known.
    pub unique: u64,
    /// The node that it speaks of.
    pub node: u64,
    /// The user who asks.
    pub uid: u32,
    /// The group that asks.
    pub gid: u32,
    /// The process that asks.
    pub pid: u32,
    /// What is asked.
    pub op: Op,
}

impl Order {
    /// Whether it changes nothing whatever it is answered: GETLK and GETATTR.
    pub fn only_reads(&self) -> bool
        ensures { result ≡ only_reads self.now.op }
    {
        matches!(self.op, Op::Getlk(_) | Op::Getattr)
    }
}

/// What is asked.
#[derive(Clone, Copy, Debug, PartialEq, Eq)]
pub enum Op {
    /// Tells the node of this name, and counts one more lookup of it (FUSE_LOOKUP).
    Lookup(Name),
    /// So many lookups of the node are forgotten (FUSE_FORGET). It has no reply.
    Forget(u64),
    /// Tells the node's attributes (FUSE_GETATTR).
    Getattr,
    /// Makes the file of this name, and counts one lookup of it (FUSE_MKNOD; `mknod(2)` of Linux).
    Mknod {
        /// The file type and the permissions.
        mode: u32,
        /// The file's name.
        name: Name,
    },
    /// Makes the folder of this name, and counts one lookup of it (FUSE_MKDIR; `mkdir` of POSIX.1-2017).
    Mkdir {
        /// The permissions.
        mode: u32,
        /// The folder's name.
        name: Name,
    },
    /// Takes the name of a file away (FUSE_UNLINK).
    Unlink(Name),
    /// Takes the name of a folder away (FUSE_RMDIR; `rmdir` of POSIX.1-2017).
    Rmdir(Name),
    /// Opens the node (FUSE_OPEN).
    Open,
    /// Closes an open file (FUSE_RELEASE). With `drop` the owner's whole-file lock goes
    /// (`FUSE_RELEASE_FLOCK_UNLOCK`).
    Release {
        /// The open file that is closed.
        fh: u64,
        /// Whether the owner's whole-file lock goes.
        drop: bool,
        /// Who owns that lock.
        owner: u64,
    },
    /// The owner closed a descriptor of the file: its record locks on the file go (FUSE_FLUSH; POSIX.1-2017 `fcntl`).
    Flush {
        /// The open file of which a descriptor was closed.
        fh: u64,
        /// Whose record locks go.
        owner: u64,
    },
    /// Makes the file of this name if there is none, and opens it (FUSE_CREATE). With `excl` it is
    /// an error if there is one (`O_EXCL` of POSIX.1-2017 `open`).
    Create {
        /// Whether it is an error if the file is there.
        excl: bool,
        /// The permission bits of a file that is made, 0 to 511 (octal 777) in a message.
        mode: u32,
        /// The file's name.
        name: Name,
    },
    /// Tells a lock that conflicts with the one asked for (FUSE_GETLK; POSIX.1-2017 `fcntl`, F_GETLK).
    Getlk(LockAsk),
    /// Sets or takes away a lock, and doesn't wait (FUSE_SETLK).
    Setlk(LockAsk),
    /// Sets or takes away a lock, and waits until it can be set (FUSE_SETLKW).
    Setlkw(LockAsk),
    /// Ends the wait of the order with this unique (FUSE_INTERRUPT).
    Interrupt(u64),
}

impl Op {
    ghost use Rattle.fl_order.specs.Body.{body_shape};
    ghost use Rattle.fl_order.specs.OpKind.{shape_for};
    ghost use Rattle.fl_order.specs.declared.body.Shape.TheVariants as shape;
    ghost use Rattle.fl_order.specs.Order.{kind_of, op_of, parts_of};

    /// The kind of its message, and the body.
    pub fn parts(&self) -> (OpKind, Body)
        ensures { result ≡ parts_of self.now }
    {
        if let Some((kind, ask)) = self.lock_parts() {
            return (kind, Body::Lock(ask));
        }
        match *self {
            Op::Lookup(name) => (OpKind::Lookup, Body::Name(name)),
            Op::Forget(n) => (OpKind::Forget, Body::Number(n)),
            Op::Getattr => (OpKind::Getattr, Body::Getattr),
            Op::Mknod { mode, name } => (OpKind::Mknod, Body::Make { mode, name }),
            Op::Mkdir { mode, name } => (OpKind::Mkdir, Body::Make { mode, name }),
            Op::Unlink(name) => (OpKind::Unlink, Body::Name(name)),
            Op::Rmdir(name) => (OpKind::Rmdir, Body::Name(name)),
            Op::Open => (OpKind::Open, Body::Open),
            Op::Release { fh, drop, owner } => (OpKind::Release, Body::Release { fh, drop, owner }),
            Op::Flush { fh, owner } => (OpKind::Flush, Body::Flush { fh, owner }),
            Op::Create { excl, mode, name } => (OpKind::Create, Body::Create { excl, mode, name }),
            Op::Interrupt(unique) => (OpKind::Interrupt, Body::Number(unique)),
            // It asks for a lock.
            _ => unreachable!(),
        }
    }

    /// The order of these parts; none if the kind is no order's, or its orders have bodies of another shape.
    pub fn of(kind: OpKind, body: Body) -> Option<Op>
        ensures value { result ≡ op_of kind body }
        ensures inverse { (op : Op) → (result ≡ Some op) ↔ (parts_of op ≡ (kind, body)) }
        ensures shaped { IsSome result ↔ (shape_for kind ≡ Ok (body_shape body)) }
    {
        if let Body::Lock(ask) = body {
            return Op::of_lock(kind, ask);
        }
        Op::of_other(kind, body)
    }

    // The same for a body that is no lock request.
    fn of_other(kind: OpKind, body: Body) -> Option<Op>
        requires { body_shape body ≢ shape.Lock }
        ensures value { result ≡ op_of kind body }
        ensures inverse { (op : Op) → (result ≡ Some op) ↔ (parts_of op ≡ (kind, body)) }
        ensures shaped { IsSome result ↔ (shape_for kind ≡ Ok (body_shape body)) }
    {
        match (kind, body) {
            (OpKind::Lookup, Body::Name(name)) => Some(Op::Lookup(name)),
            (OpKind::Forget, Body::Number(n)) => Some(Op::Forget(n)),
            (OpKind::Getattr, Body::Getattr) => Some(Op::Getattr),
            (OpKind::Mknod, Body::Make { mode, name }) => Some(Op::Mknod { mode, name }),
            (OpKind::Mkdir, Body::Make { mode, name }) => Some(Op::Mkdir { mode, name }),
            (OpKind::Unlink, Body::Name(name)) => Some(Op::Unlink(name)),
            (OpKind::Rmdir, Body::Name(name)) => Some(Op::Rmdir(name)),
            (OpKind::Open, Body::Open) => Some(Op::Open),
            (OpKind::Release, Body::Release { fh, drop, owner }) => Some(Op::Release {
                fh,
                drop,
                owner,
            }),
            (OpKind::Flush, Body::Flush { fh, owner }) => Some(Op::Flush { fh, owner }),
            (OpKind::Create, Body::Create { excl, mode, name }) => Some(Op::Create {
                excl,
                mode,
                name,
            }),
            (OpKind::Interrupt, Body::Number(unique)) => Some(Op::Interrupt(unique)),
            _ => None,
        }
    }

    /// The kind of its message and the lock request; none if it asks for no lock. It makes no [`Body`], which has
    /// room for a name. [`Op::parts`] asks here for all that ask for locks.
    pub fn lock_parts(&self) -> Option<(OpKind, LockAsk)>
        ensures { (kind : OpKind) (ask : LockAsk) →
            (result ≡ Some (kind, ask)) ↔ (parts_of self.now ≡ (kind, Body.Lock ask)) }
    {
        match *self {
            Op::Getlk(ask) => Some((OpKind::Getlk, ask)),
            Op::Setlk(ask) => Some((OpKind::Setlk, ask)),
            Op::Setlkw(ask) => Some((OpKind::Setlkw, ask)),
            _ => None,
        }
    }

    /// The order of this kind with this lock request; none if orders of the kind ask for no lock. [`Op::of`] has
    /// these from here.
    pub fn of_lock(kind: OpKind, ask: LockAsk) -> Option<Op>
        ensures value { result ≡ op_of kind (Body.Lock ask) }
        ensures inverse { (op : Op) → (result ≡ Some op) ↔ (parts_of op ≡ (kind, Body.Lock ask)) }
        ensures shaped { IsSome result ↔ (shape_for kind ≡ Ok Shape.Lock) }
    {
        match kind {
            OpKind::Getlk => Some(Op::Getlk(ask)),
            OpKind::Setlk => Some(Op::Setlk(ask)),
            OpKind::Setlkw => Some(Op::Setlkw(ask)),
            _ => None,
        }
    }

    /// The kind of its message.
    pub fn kind(&self) -> OpKind
        ensures { result ≡ kind_of self.now }
    {
        self.parts().0
    }
}

/// A lock request, in the raw numbers of `struct fuse_lk_in` (Linux `fuse.h`).
#[derive(Clone, Copy, Debug, PartialEq, Eq)]
pub struct LockAsk {
    /// The open file through which it is asked.
    pub fh: u64,
    /// Who owns the lock.
    pub owner: u64,
    /// The first byte.
    pub start: u64,
    /// The last byte, which is included.
    pub end: u64,
    /// 0 for a read lock, 1 for a write lock, 2 for unlock.
    pub kind: u32,
    /// The process that is named as the holder.
    pub pid: u32,
    /// Bit 0 (`FUSE_LK_FLOCK`) asks for a lock of the whole file.
    pub flags: u32,
}
