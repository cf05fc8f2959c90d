ghost use Rattle.std.specs.Prelude.{◌≡◌};
ghost use Rattle.maglev_texts.specs.Parsing.{weight_of, weighed_name_of};

use crate::parsing::{at_first, decimal};
use backend_names::{Name, Weight};

/// The weight that a text is: a number from 1 to 16, without sign or leading zeros.
pub fn weight(text: &[u8]) -> Option<Weight>
    ensures { result ≡ weight_of text.now }
{
    let number = decimal(text, 16)?;
    Weight::new(number as u8)
}

/// A name and its weight.
#[derive(Clone, Copy, Debug)]
pub struct WeighedName {
    pub name: Name,
    pub weight: Weight,
}

/// The name and the weight that a word is: `NAME`, which counts once, or `NAME*W`.
pub fn weighed_name(word: &[u8]) -> Option<WeighedName>
    ensures { result ≡ weighed_name_of word.now }
{
    let (head, tail) = at_first(word, b'*');
    let name = Name::new(head)?;
    let weight = match tail {
        Some(tail) => weight(tail)?,
        None => Weight::one(),
    };
    Some(WeighedName { name, weight })
}
