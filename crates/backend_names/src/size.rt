ghost use Rattle.std.specs.Prelude.{◌≡◌, ◌<◌, ◌≤◌, ℕ, true, false, MatchOption};
ghost use Rattle.backend_names.specs.Sizes.{is_table_size, IsPrime};

use std::marker::Model;

/// The number of slots of a table: 7, 13, 251, 1021, 8191 or 65537, each a prime.
#[derive(Clone, Copy, Debug, PartialEq, Eq)]
pub struct TableSize {
    slots: u32,
}

impl Model for TableSize {
    ghost Value = { ℕ };

    ghost view = { λ s. s.slots };

    ghost invariant = { λ s. is_table_size s.slots ≡ true };

    ghost inverse = { λ n. record { slots = n } };
}

impl TableSize {
    /// The size of so many slots, where it is a listed one.
    pub fn new(slots: u32) -> Option<TableSize>
        ensures { MatchOption result (is_table_size slots ≡ false)
            (λ s. (s ≡ slots) × (is_table_size slots ≡ true)) }
    {
        if [7, 13, 251, 1021, 8191, 65537].contains(&slots) {
            Some(TableSize { slots })
        } else {
            None
        }
    }

    /// The number of slots.
    pub fn slots(self) -> u32
        ensures value { result ≡ self }
        ensures listed { is_table_size self ≡ true }
        ensures low { 7 ≤ self }
        ensures high { self ≤ 65537 }
        ensures prime { IsPrime self }
    {
        self.slots
    }
}
