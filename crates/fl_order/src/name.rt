//! File names, as arrays of a fixed size that can be copied.

ghost use Rattle.std.specs.Prelude.{◌≡◌, ◌≤◌, ◌↔◌, IsSome, IfSome, length};
ghost use Rattle.fl_order.specs.Name.{padded};

use std::fmt;
use std::marker::Model;

/// A file name: 0 to 255 bytes, none of them zero. Contracts see it as the list of its bytes.
#[derive(Clone, Copy)]
pub struct Name {
    len: u8,
    array: [u8; 255],
}

impl Model for Name {
    ghost use Rattle.std.specs.Prelude.{List, ℕ, take, length};
    ghost use Rattle.std.proofs.Common.{sym};
    ghost use Rattle.fl_order.specs.Name.{padded, IsKept};

    ghost Value = { List ℕ };

    ghost view = { λ n. take n.len n.array };

    ghost invariant = { λ n. IsKept n.array n.len (take n.len n.array) };

    ghost inverse = { λ bytes. record { array = padded bytes; len = length bytes } };

    ghost inverse_ok = { λ n kept i. record { array = sym kept.padded_is i; len = sym kept.length_is i } };
}

impl Name {
    ghost use Rattle.fl_order.specs.Name.{IsName};

    /// The name of these bytes; none if they are more than 255 or one of them is zero.
    pub fn new(bytes: &[u8]) -> Option<Name>
        ensures found { IsSome result ↔ IsName bytes.now }
        ensures bytes { IfSome result (λ name. name ≡ bytes.now) }
    {
        let len = u8::try_from(bytes.len()).ok()?;
        if bytes.contains(&0) {
            return None;
        }
        Some(Name {
            array: padded(bytes),
            len,
        })
    }

    /// Its bytes, with no zero at the end.
    pub fn as_bytes(&self) -> &[u8]
        ensures bytes { result.now ≡ self.now }
        ensures name { IsName self.now }
    {
        &self.array[..usize::from(self.len)]
    }
}

// The bytes, then zeros.
fn padded(bytes: &[u8]) -> [u8; 255]
    requires { length bytes.now ≤ 255 }
    ensures { result ≡ padded bytes.now }
{
    let mut array = [0; 255];
    array[..bytes.len()].copy_from_slice(bytes);
    array
}

impl PartialEq for Name {
    ghost use Rattle.std.specs.Str.{bytes_eq};
    ghost use Rattle.std.specs.Cmp.{partial_equiv_from_equiv};
    ghost use Rattle.std.specs.Cmp.Lexicographic.{nat_list_eq_equiv};

    ghost eq = { bytes_eq };

    ghost laws = { partial_equiv_from_equiv nat_list_eq_equiv };

    fn eq(&self, other: &Name) -> bool {
        self.as_bytes() == other.as_bytes()
    }
}

impl Eq for Name {
    ghost use Rattle.std.specs.Cmp.Lexicographic.{nat_list_eq_equiv};

    ghost laws = { nat_list_eq_equiv };
}

impl fmt::Debug for Name {
    fn fmt<W: fmt::Write>(&self, f: &mut fmt::Formatter<W>) -> fmt::Result {
        let bytes = self.as_bytes();
        write!(f, "Name({bytes:?})")
    }
}
