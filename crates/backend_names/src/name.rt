ghost use Rattle.std.specs.Prelude.{◌≡◌, ◌<◌, MatchOption, true, false, Some, refl, nat_eq};
ghost use Rattle.std.specs.List.{list_all};
ghost use Rattle.std.specs.Cmp.Lexicographic.{slice_cmp, pointwise, nat_list_eq_equiv, nat_list_cmp_total, texts_po, texts_ties};
ghost use Rattle.std.specs.Ordering.{nat_cmp};
ghost use Rattle.std.specs.Cmp as Cmp;
ghost use Rattle.backend_names.specs.NameText.{is_name, is_name_byte};

use std::cmp::Ordering;
use std::fmt;
use std::marker::Model;

const LONGEST: usize = 32;

/// The name of a backend: 1 to 32 letters, digits, dashes and dots, the first a letter or digit.
#[derive(Clone, Copy)]
pub struct Name {
    bytes: [u8; LONGEST],
    len: u8,
}

impl Model for Name {
    ghost use Rattle.std.specs.Prelude.{ℕ, List};

    ghost Value = { List ℕ };

    ghost use Rattle.backend_names.specs.NameFields.{name_of, IsNameField, fields_of, fields_of-name_of};

    ghost view = { name_of };

    ghost invariant = { IsNameField };

    ghost inverse = { fields_of };

    ghost inverse_ok = { fields_of-name_of };
}

fn is_byte_of_names(byte: u8) -> bool
    ensures { result ≡ is_name_byte byte }
{
    byte.is_ascii_alphanumeric() || byte == b'-' || byte == b'.'
}

fn are_bytes_of_names(bytes: &[u8]) -> bool
    ensures { result ≡ list_all is_name_byte bytes.now }
{
    bytes.iter().all(|byte| is_byte_of_names(*byte))
}

fn is_name_text(text: &[u8]) -> bool
    ensures { result ≡ is_name text.now }
{
    match text {
        [] => false,
        [first, rest @ ..] => {
            first.is_ascii_alphanumeric() && rest.len() < LONGEST && are_bytes_of_names(rest)
        }
    }
}

impl Name {
    /// The name that some bytes are, where they are one.
    pub fn new(text: &[u8]) -> Option<Name>
        ensures { MatchOption result (is_name text.now ≡ false) (λ name. (name ≡ text.now) × (is_name text.now ≡ true)) }
    {
        if !is_name_text(text) {
            return None;
        }
        let mut bytes = [0; LONGEST];
        bytes[..text.len()].copy_from_slice(text);
        Some(Name {
            bytes,
            len: text.len() as u8,
        })
    }

    /// The bytes of the name.
    pub fn as_bytes(&self) -> &[u8]
        ensures bytes { result.now ≡ self.now }
        ensures named { is_name self.now ≡ true }
    {
        &self.bytes[..self.len as usize]
    }
}

impl Name {
    /// The name as text.
    pub fn as_str(&self) -> &str
        ensures text { result.now ≡ self.now }
        ensures named { is_name self.now ≡ true }
    {
        str::from_utf8(self.as_bytes()).unwrap()
    }
}

impl fmt::Display for Name {
    ghost use Rattle.std.specs.Prelude.{Some};

    ghost output = { λ name. Some name };

    fn fmt<W: fmt::Write>(&self, f: &mut fmt::Formatter<W>) -> fmt::Result {
        f.write_str(self.as_str())
    }
}

impl fmt::Debug for Name {
    fn fmt<W: fmt::Write>(&self, f: &mut fmt::Formatter<W>) -> fmt::Result {
        let text = self.as_str();
        write!(f, "{text:?}")
    }
}

impl PartialEq for Name {
    ghost eq = { pointwise nat_eq };

    ghost laws = { Cmp.partial_equiv_from_equiv nat_list_eq_equiv };

    fn eq(&self, other: &Self) -> bool {
        self.as_bytes() == other.as_bytes()
    }
}

impl Eq for Name {
    ghost laws = { nat_list_eq_equiv };
}

impl PartialOrd for Name {
    ghost partial_cmp = { λ x y. Some (slice_cmp nat_cmp x y) };

    ghost laws = { texts_po };

    fn partial_cmp(&self, other: &Self) -> Option<Ordering> {
        Some(self.cmp(other))
    }
}

impl Ord for Name {
    ghost cmp = { slice_cmp nat_cmp };

    ghost total = { nat_list_cmp_total };

    ghost matches_partial_cmp = { λ x y. refl };

    ghost matches_eq = { texts_ties };

    fn cmp(&self, other: &Self) -> Ordering {
        self.as_bytes().cmp(other.as_bytes())
    }
}
