//! What a scheme has prepared so far, for those who have the same backends.
ghost use Rattle.std.specs.Prelude.{IfOk, IfErr, IfSome};
ghost use Rattle.std.specs.Arc.{arc_value};
ghost use Rattle.selection.specs.Shared.{StandsFor};
ghost use Rattle.selection.specs.Faults.{IsPrepareFault};

use crate::choices::Choices;
use crate::scheme::{PrepareFault, Scheme};
use crate::ups::Ups;
use backend_names::TableSize;
use std::alloc::Global;
use std::collections::HashMap;
use std::fmt;
use std::sync::Arc;

/// What a scheme has prepared so far. Services of any versions share it where their up backends are the same, of the same
/// weights. Where addresses alone differ, they share what the scheme makes of names.
///
/// Lists are compared, whatever the numbers are by which they are found. Where memory for the store is refused, less is shared.
#[derive(Drop)]
pub struct TableStore<S: Scheme> {
    // By names and weights: what was prepared last.
    held: HashMap<u64, Arc<Choices<S>>>,
}

impl<S: Scheme> fmt::Debug for TableStore<S> {
    fn fmt<W: fmt::Write>(&self, f: &mut fmt::Formatter<W>) -> fmt::Result {
        f.debug_struct("TableStore")
            .field("len", &self.held.len())
            .finish_non_exhaustive()
    }
}

impl<S: Scheme> TableStore<S> {
    /// A store with nothing in it.
    pub fn new(alloc: Global) -> Self {
        TableStore {
            held: HashMap::new(alloc),
        }
    }

    // Holds what was prepared, in place of what was prepared before of the same names and weights.
    pub(crate) fn hold(&mut self, choices: &Arc<Choices<S>>) {
        if let Ok(copy) = Arc::try_clone(choices) {
            let _ = self.held.insert(choices.key(), copy);
        }
    }

    // What is held of the same backends of the same weights, for an equal scheme and the size.
    fn shared(&self, scheme: &S, size: TableSize, ups: &Ups) -> Option<Arc<Choices<S>>>
        ensures { IfSome result (λ a. StandsFor (λ s z c p. S.is_prepared s z c p) scheme.now size ups.now (arc_value a)) }
    {
        match self.held.get(&ups.key()) {
            Some(held) => Choices::shared(held, scheme, size, ups),
            None => None,
        }
    }

    // Prepares backends, with what is held of their names and weights.
    fn made(
        &self,
        alloc: Global,
        scheme: &S,
        size: TableSize,
        ups: Ups,
    ) -> Result<Arc<Choices<S>>, PrepareFault>
        ensures ok { IfOk result (λ a. StandsFor (λ s z c p. S.is_prepared s z c p) scheme.now size ups (arc_value a)) }
        ensures err { IfErr result (IsPrepareFault size ups.backends) }
    {
        match self.held.get(&ups.key()) {
            Some(held) => Choices::make_like(alloc, scheme, size, ups, held),
            None => Choices::make(alloc, scheme, size, ups),
        }
    }

    /// What a scheme prepares of backends: what is held of them, or new.
    pub(crate) fn choices(
        &mut self,
        alloc: Global,
        scheme: &S,
        size: TableSize,
        ups: Ups,
    ) -> Result<Arc<Choices<S>>, PrepareFault>
        ensures ok { IfOk result (λ a. StandsFor (λ s z c p. S.is_prepared s z c p) scheme.now size ups (arc_value a)) }
        ensures err { IfErr result (IsPrepareFault size ups.backends) }
    {
        if let Some(shared) = self.shared(scheme, size, &ups) {
            return Ok(shared);
        }
        let made = self.made(alloc, scheme, size, ups)?;
        self.hold(&made);
        Ok(made)
    }
}
