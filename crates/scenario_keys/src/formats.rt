//! The formats of scenarios.
ghost use Rattle.std.specs.Prelude.{◌≡◌};
ghost use Rattle.toml.specs.View.{table_view};
ghost use Rattle.scenario_keys.specs.Formats.{format_of};

use crate::key::Key;
use crate::values::number;
use toml::Table;

/// The format of a scenario. In format 2 member words may bear weights, and there may be an idle limit. In format 3 members
/// may drain too, a step may name all nodes or a time, and versions may be told by what differs. Else they are the same.
#[derive(Clone, Copy, Debug, PartialEq, Eq)]
pub enum Format {
    One,
    Two,
    Three,
}

impl Format {
    ghost use Rattle.scenario_keys.specs.Keys.{has};

    /// Whether a scenario of this format has what came with another one.
    pub fn has(self, since: Format) -> bool
        ensures { result ≡ has self since }
    {
        match since {
            Format::One => true,
            Format::Two => matches!(self, Format::Two | Format::Three),
            Format::Three => matches!(self, Format::Three),
        }
    }
}

/// The format of a document.
pub fn format_of(table: &Table) -> Option<Format>
    ensures { result ≡ format_of (table_view table.now) }
{
    match number(table, Key::Format)? {
        1 => Some(Format::One),
        2 => Some(Format::Two),
        _ => Some(Format::Three),
    }
}
