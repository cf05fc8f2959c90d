//! A text that goes to a device.
ghost use Rattle.std.specs.Prelude.{◌≡◌, ℕ, List, OnOk, string_bytes, false};
ghost use Rattle.text_pages.specs.Told.{HasTold};
ghost use Rattle.text_pages.specs.declared.streamed.Streamed.{Streamed};

use crate::pages::Pages;
use pcap_file::{Sink, put_all};
use std::alloc::AllocError;

/// How many bytes fill a page.
const PAGE: usize = 65_536;

/// A device that gets a text page by page, and whether it was given up.
#[derive(Drop)]
pub struct Streamed<R: Sink + Drop> {
    pub sink: R,
    pub is_refused: bool,
}

impl<R: Sink + Drop> Streamed<R> {
    /// A device that wasn't given up yet.
    pub fn new(sink: R) -> Streamed<R>
        ensures sink { result.sink ≡ sink }
        ensures kept { result.is_refused ≡ false }
    {
        Streamed {
            sink,
            is_refused: false,
        }
    }

    // All of a text goes to the device.
    fn put(&mut self, text: &mut String) -> Result<(), AllocError>
        ensures { (first : Streamed R) (whole : List ℕ) → HasTold R.tape first.sink self.old.sink (string_bytes text.old) whole
            → OnOk result (HasTold R.tape first.sink self.new.sink (string_bytes text.new) whole) }
    {
        let Ok(()) = put_all(&mut self.sink, text.as_bytes()) else {
            self.is_refused = true;
            return Err(AllocError);
        };
        text.clear();
        Ok(())
    }
}

impl<R: Sink + Drop> Pages for Streamed<R> {
    ghost use Rattle.text_pages.specs.Told.{HasTold};
    ghost use Rattle.text_pages.specs.Laws.{nothing_streamed, streamed_more};

    ghost told = { λ first pages text whole. HasTold (λ sink. R.tape sink) first.sink pages.sink text whole };

    ghost nothing_told = { λ pages text. nothing_streamed (λ sink. R.tape sink) pages.sink text };

    ghost told_more = { λ first pages text whole more is. streamed_more (λ sink. R.tape sink) first.sink pages.sink text whole more is };

    #[inline(always)]
    fn turn(&mut self, text: &mut String) -> Result<(), AllocError> {
        if text.len() < PAGE {
            return Ok(());
        }
        self.put(text)
    }
}
