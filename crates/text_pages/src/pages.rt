//! Where the pages of a text go.
ghost use Rattle.std.specs.Prelude.{◌++◌, ℕ, List, OnOk, string_bytes};

use std::alloc::AllocError;

/// Where the pages of a text go.
pub trait Pages: Drop {
    /// What was taken away since these pages were the first, and this text behind it, are that whole.
    ghost told: { Self → Self → List ℕ → List ℕ → Type 0 };

    /// Takes the text away where it fills a page, and leaves it empty. Where it can't, nothing more is known of the text.
    fn turn(&mut self, text: &mut String) -> Result<(), AllocError>
        ensures { (first : Self) (whole : List ℕ) → told first self.old (string_bytes text.old) whole →
            OnOk result (told first self.new (string_bytes text.new) whole) };

    // at first the text is the whole
    ghost nothing_told: { (pages : Self) (text : List ℕ) → told pages pages text text };

    // what is put behind the text is behind the whole
    ghost told_more: { (first pages : Self) (text whole more : List ℕ) → told first pages text whole → told first pages (text ++ more) (whole ++ more) };
}
