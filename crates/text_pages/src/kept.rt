//! A text that is kept.
use crate::pages::Pages;
use std::alloc::AllocError;

/// The text stays where it is.
#[derive(Clone, Copy, Debug, Drop)]
pub struct Kept;

impl Pages for Kept {
    ghost use Rattle.std.specs.Prelude.{◌≡◌};
    ghost use Rattle.text_pages.specs.Laws.{itself, more_behind};

    ghost told = { λ _ _ text whole. whole ≡ text };

    ghost nothing_told = { λ _ text. itself text };

    ghost told_more = { λ _ _ text whole more is. more_behind text whole more is };

    #[inline(always)]
    fn turn(&mut self, _: &mut String) -> Result<(), AllocError> {
        Ok(())
    }
}
