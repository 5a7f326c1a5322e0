//! Names.

ghost use Rattle.std.specs.Prelude.{◌≡◌, ◌∷◌, ◌||◌, Some, None, true, if◌then◌else◌};
ghost use Rattle.std.specs.List.{list_all};
ghost use Rattle.std.proofs.Common.{rules};
ghost use Rattle.std.specs.Str.{bytes_eq};
ghost use Rattle.std.specs.Cmp.{partial_order_from_own_ties};
ghost use Rattle.std.specs.Cmp.Lexicographic.{slice_cmp};
ghost use Rattle.std.specs.Cmp.Rules.{comparing};
ghost use Rattle.std.specs.Ordering.{nat_cmp, as_partial_cmp};
ghost use Rattle.object_program.specs.Name.{is_letter, is_digit, is_name};

use std::cmp::Ordering;
use std::marker::Model;

/// The name of a class, an object, a thread, a local or a label: an ASCII letter or an underscore, followed by letters,
/// digits and underscores, 1 to 32 bytes in all. Contracts see its bytes.
#[derive(Clone, Copy)]
pub struct Name {
    bytes: [u8; 32],
    length: usize,
}

impl Model for Name {
    ghost use Rattle.std.specs.Prelude.{ℕ, List};

    ghost Value = { List ℕ };

    ghost use Rattle.object_program.specs.NameView.{name_bytes, IsKept};
    ghost use Rattle.object_program.specs.inner.NameView.{name_inside};

    ghost view = { name_bytes };

    ghost invariant = { IsKept };

    ghost inverse = { name_inside };

    ghost use Rattle.object_program.specs.inner.NameView.{name_again};

    ghost inverse_ok = { name_again };
}

impl Name {
    /// The name with these bytes; `None` where they aren't a name.
    pub fn new(bytes: &[u8]) -> Option<Name>
        ensures { result ≡ (if is_name bytes.now then Some bytes.now else None) }
    {
        if is_name(bytes) {
            Some(Name::of(bytes))
        } else {
            None
        }
    }

    /// The name with these bytes, which are one.
    #[tactic(auto, using(crate::proofs::Names::name_short))]
    pub fn of(bytes: &[u8]) -> Name
        requires { is_name bytes.now ≡ true }
        ensures { result ≡ bytes.now }
    {
        let length = bytes.len();
        let mut all = [0u8; 32];
        all[..length].copy_from_slice(bytes);
        Name { bytes: all, length }
    }

    /// The bytes of the name.
    pub fn bytes(&self) -> &[u8]
        ensures bytes { result.now ≡ self.now }
        ensures name { is_name self.now ≡ true }
    {
        &self.bytes[..self.length]
    }
}

impl PartialEq for Name {
    ghost eq = { bytes_eq };

    ghost laws = { Prim.search (comparing, rules) };

    fn eq(&self, other: &Name) -> bool {
        self.bytes() == other.bytes()
    }
}

impl Eq for Name {
    ghost laws = { Prim.search (comparing, rules) };
}

/// Names have the order of their bytes.
impl Ord for Name {
    ghost cmp = { slice_cmp nat_cmp };

    ghost total = { Prim.search (comparing, rules) };

    ghost matches_partial_cmp = { Prim.search (comparing, rules) };

    ghost matches_eq = { Prim.search (comparing, rules) };

    fn cmp(&self, other: &Name) -> Ordering {
        self.bytes().cmp(&other.bytes())
    }
}

impl PartialOrd for Name {
    ghost partial_cmp = { as_partial_cmp (slice_cmp nat_cmp) };

    ghost laws = { partial_order_from_own_ties (Prim.search (comparing, rules)) (Prim.search (comparing, rules)) };

    fn partial_cmp(&self, other: &Name) -> Option<Ordering> {
        Some(self.cmp(other))
    }
}

/// Whether the byte is an ASCII letter or an underscore.
fn is_letter(b: u8) -> bool
    ensures { result ≡ is_letter b }
{
    b.is_ascii_alphabetic() || b == b'_'
}

/// Whether the byte is an ASCII digit.
fn is_digit(b: u8) -> bool
    ensures { result ≡ is_digit b }
{
    b.is_ascii_digit()
}

/// Whether the bytes are a name.
fn is_name(bytes: &[u8]) -> bool
    ensures { result ≡ is_name bytes.now }
{
    match bytes.split_first() {
        None => false,
        Some((first, rest)) => begins_name(*first, rest),
    }
}

/// Whether the byte and those after it are a name.
fn begins_name(first: u8, rest: &[u8]) -> bool
    ensures { result ≡ is_name (first ∷ rest.now) }
{
    is_letter(first) && has_name_bytes(rest) && rest.len() <= 31
}

/// Whether each is a letter or a digit.
fn has_name_bytes(bytes: &[u8]) -> bool
    ensures { result ≡ list_all (λ b. is_letter b || is_digit b) bytes.now }
{
    bytes.iter().all(|b| is_letter(*b) || is_digit(*b))
}
