//! The prepared version that a node's workers serve under, swapped while they run.
ghost use Rattle.std.specs.Prelude.{◌≡◌, ◌<◌, IfOk, OnOk, IfSome, Some};
ghost use Rattle.std.specs.Arc.{arc_value};
ghost use Rattle.left_right.specs.Handles.{published};
ghost use Rattle.thread_roles.specs.Shown.{number_of};

use left_right::{Absorb, ReadHandle, WriteHandle};
use selection::Scheme;
use shared_versions::Shared;
use std::alloc::{AllocError, Global};
use std::fmt;
use std::sync::{Arc, Wait};

/// What a worker finds: the version that was shown last, if there is one.
#[derive(Drop)]
pub struct Current<S: Scheme> {
    /// The version.
    pub version: Option<Shared<S>>,
}

impl<S: Scheme> fmt::Debug for Current<S> {
    fn fmt<W: fmt::Write>(&self, f: &mut fmt::Formatter<W>) -> fmt::Result {
        f.debug_struct("Current")
            .field("version", &self.version)
            .finish_non_exhaustive()
    }
}

impl<S: Scheme> Current<S> {
    /// The version that is shown, if it bears this number.
    pub fn of_number(&self, number: u32) -> Option<&Shared<S>>
        ensures found { IfSome result (λ p. (self.now.version ≡ Some p.now) × ((arc_value p.now).number ≡ number)) }
    {
        match &self.version {
            Some(version) if version.number() == number => Some(version),
            _ => None,
        }
    }
}

impl<S: Scheme> Absorb<Shared<S>> for Current<S> {
    ghost use Rattle.std.specs.Arc.{arc_value};
    ghost use Rattle.thread_roles.specs.Shown.{number_of};

    type State = u32;

    ghost state = { λ c. number_of arc_value c.version };

    ghost applied = { λ n p. (arc_value p).number };

    fn absorb_first(
        &mut self,
        operation: &Shared<S>,
        _other: &Current<S>,
    ) -> Result<(), AllocError> {
        let next = Arc::try_clone(operation)?;
        self.version = Some(next);
        Ok(())
    }
}

/// Where a driver shows versions to its workers. Each worker has a place of its own to read.
pub type Stage<S, R> = WriteHandle<Current<S>, Shared<S>, R>;

/// A stage with places for so many workers, on which nothing is shown.
pub fn empty_stage<S: Scheme, R: Wait + Drop>(
    alloc: Global,
    rt: R,
    workers: u16,
) -> Result<Stage<S, R>, AllocError>
    requires { 0 < workers }
    ensures { IfOk result (λ w. number_of arc_value (published w).version ≡ 0) }
{
    let first = Current { version: None };
    let second = Current { version: None };
    WriteHandle::new(alloc, rt, first, second, workers as usize)
}

/// Shows a version: whoever reads after this finds it. It waits for the workers that still read the one before the last.
pub fn show<S: Scheme, R: Wait + Drop>(
    stage: &mut Stage<S, R>,
    version: &Shared<S>,
) -> Result<(), AllocError>
    ensures { OnOk result (number_of arc_value (published stage.new).version ≡ (arc_value version.now).number) }
{
    let shown = Arc::try_clone(version)?;
    match stage.append(shown) {
        Ok(()) => match stage.publish() {
            Ok(()) => Ok(()),
            Err(refusal) => Err(refusal),
        },
        Err(_) => Err(AllocError),
    }
}
