//! The keys that a table may have.
ghost use Rattle.std.specs.Prelude.{◌≡◌, string_bytes, nat_eq};
ghost use Rattle.std.specs.List.{list_any, list_all};
ghost use Rattle.std.specs.BTreeMap.{keys};
ghost use Rattle.std.specs.Cmp.Lexicographic.{pointwise};
ghost use Rattle.toml.specs.View.{table_view};
ghost use Rattle.scenario_keys.specs.Lookups.{has_only};
ghost use Rattle.scenario_keys.specs.Keys.{keys_of, names_in};

use crate::formats::Format;
use crate::key::{Key, Owner};
use toml::Table;

#[tactic(auto, using(crate::proofs::KeyNames::any_name))]
// Whether a text is one of these keys, where a table of a format may have it.
fn is_among(all: &[Key], owner: Owner, format: Format, text: &str) -> bool
    ensures { result ≡ list_any (pointwise nat_eq text.now) (names_in owner format all.now) }
{
    for key in all {
        if key.stands_in(owner, format) && text == key.name() {
            return true;
        }
    }
    false
}

#[tactic(auto, unfolding(crate::specs::Keys::keys_of))]
/// Whether a text is a key that this table of a document of a format may have.
pub fn is_key(owner: Owner, format: Format, text: &str) -> bool
    ensures { result ≡ list_any (pointwise nat_eq text.now) (keys_of owner format) }
{
    is_among(&Key::ALL, owner, format, text)
}

fn all_are_keys(owner: Owner, format: Format, table: &Table) -> bool
    ensures { result ≡ list_all (λ k. list_any (pointwise nat_eq (string_bytes k)) (keys_of owner format)) (keys table.now) }
{
    table.keys().all(|key| is_key(owner, format, key.as_str()))
}

/// Whether a table has no keys but those that it may have in a document of a format.
pub fn has_only_keys(owner: Owner, format: Format, table: &Table) -> bool
    ensures { result ≡ has_only (keys_of owner format) (table_view table.now) }
{
    all_are_keys(owner, format, table)
}
