//! What a life begins with.
ghost use Rattle.std.specs.Prelude.{◌≡◌};
ghost use Rattle.cluster_core.specs.Setups.{rules_for};
ghost use Rattle.thread_roles.specs.Assigned.{asked_in};
ghost use Rattle.thread_roles.specs.Going.{Begins, LifeView};
ghost use Rattle.thread_roles.specs.Shown.{last_published};
ghost use Rattle.version_board.specs.Seats.{IsPublisherOf};

use hash_laws::FlowHash;
use selection::Scheme;
use stats_book::Names;
use std::fmt;
use std::marker::Model;
use std::sync::Wait;
use thread_roles::{Desk, NodePlan, Progress, Stage};
use version_board::{Publisher, WordBoard};

/// What a life begins with. By its type it may begin: the commands before it were obeyed, and what was counted is their
/// outcomes.
#[derive(Drop)]
pub struct Life<'e, S: Scheme, H: FlowHash, G, B: Names> {
    plan: NodePlan<'e, S, H, G, B>,
    progress: Progress<S, B>,
}

impl<'e, S: Scheme, H: FlowHash, G, B: Names> Model for Life<'e, S, H, G, B> {
    ghost use Rattle.cluster_core.specs.Setups.{rules_for};
    ghost use Rattle.thread_roles.specs.Assigned.{asked_in};
    ghost use Rattle.thread_roles.specs.Going.{Begins, LifeView};

    ghost Value = { LifeView S H };

    ghost view = { λ l. record {
      asked = asked_in l.plan.assignment;
      start = l.progress.at;
      parts = l.progress.tally.shares.parts;
      newest = l.progress.journal.newest;
    } };

    ghost invariant = { λ l. let asked = asked_in l.plan.assignment in
        let rules = rules_for (λ s z. S.pick s z) (λ h. H.plain h) asked.setup asked.catalogue in
        Begins rules asked l.progress.at l.progress.journal l.progress.tally.lost l.progress.tally.shares };
}

impl<S: Scheme, H: FlowHash, G, B: Names> fmt::Debug for Life<'_, S, H, G, B> {
    fn fmt<W: fmt::Write>(&self, f: &mut fmt::Formatter<W>) -> fmt::Result {
        f.debug_struct("Life")
            .field("plan", &self.plan)
            .field("progress", &self.progress)
            .finish_non_exhaustive()
    }
}

impl<'e, S: Scheme, H: FlowHash, G, B: Names> Life<'e, S, H, G, B> {
    /// A life that may begin.
    pub fn new(plan: NodePlan<'e, S, H, G, B>, progress: Progress<S, B>) -> Life<'e, S, H, G, B>
        requires begins { let asked = asked_in plan.assignment in
            let rules = rules_for (λ s z. S.pick s z) (λ h. H.plain h) asked.setup asked.catalogue in
            Begins rules asked progress.at progress.journal progress.tally.lost progress.tally.shares }
        ensures { result ≡ record {
          asked = asked_in plan.entry.assignment;
          start = progress.at;
          parts = progress.tally.shares.parts;
          newest = progress.journal.newest;
        } }
    {
        Life { plan, progress }
    }

    /// What its threads share.
    pub fn plan(&self) -> NodePlan<'e, S, H, G, B>
        ensures { self.now.asked ≡ asked_in result.assignment }
    {
        self.plan
    }

    /// What it begins with.
    pub fn parts(self) -> (NodePlan<'e, S, H, G, B>, Progress<S, B>)
        ensures view { self.entry ≡ record {
          asked = asked_in result.0.assignment;
          start = result.1.at;
          parts = result.1.tally.shares.parts;
          newest = result.1.journal.newest;
        } }
        ensures begins { let asked = asked_in result.0.assignment in
            let rules = rules_for (λ s z. S.pick s z) (λ h. H.plain h) asked.setup asked.catalogue in
            Begins rules asked result.1.at result.1.journal result.1.tally.lost result.1.tally.shares }
    {
        let Life { plan, progress } = self;
        (plan, progress)
    }
}

/// A life whose rings are laid, with its board and its publisher's seat. By its type the number that was published last is
/// that of the version that was installed last.
#[derive(Drop)]
pub(crate) struct Begun<'e, S: Scheme, H: FlowHash, G, B: Names> {
    life: Life<'e, S, H, G, B>,
    board: &'e WordBoard,
    seat: Publisher,
}

impl<'e, S: Scheme, H: FlowHash, G, B: Names> Model for Begun<'e, S, H, G, B> {
    ghost use Rattle.std.specs.Prelude.{◌≡◌};
    ghost use Rattle.thread_roles.specs.Going.{LifeView};
    ghost use Rattle.thread_roles.specs.Shown.{last_published};
    ghost use Rattle.version_board.specs.Seats.{IsPublisherOf};

    ghost Value = { LifeView S H };

    ghost view = { λ l. l.life };

    ghost invariant = { λ l. IsPublisherOf l.board.now l.seat × (last_published l.seat ≡ l.life.newest) };
}

impl<S: Scheme, H: FlowHash, G, B: Names> fmt::Debug for Begun<'_, S, H, G, B> {
    fn fmt<W: fmt::Write>(&self, f: &mut fmt::Formatter<W>) -> fmt::Result {
        f.debug_struct("Begun")
            .field("life", &self.life)
            .finish_non_exhaustive()
    }
}

impl<'e, S: Scheme, H: FlowHash, G, B: Names> Begun<'e, S, H, G, B> {
    /// A life whose rings are laid.
    pub(crate) fn new(
        life: Life<'e, S, H, G, B>,
        board: &'e WordBoard,
        seat: Publisher,
    ) -> Begun<'e, S, H, G, B>
        requires seated { IsPublisherOf board.now seat }
        requires level { last_published seat ≡ life.newest }
        ensures { result ≡ life.entry }
    {
        Begun { life, board, seat }
    }

    /// What its threads share.
    pub(crate) fn plan(&self) -> NodePlan<'e, S, H, G, B>
        ensures { self.now.asked ≡ asked_in result.assignment }
    {
        self.life.plan()
    }

    /// What it begins with, and where its driver shows versions, with this stage.
    pub(crate) fn open<R: Wait + Drop>(
        self,
        stage: Stage<S, R>,
    ) -> (Life<'e, S, H, G, B>, Desk<'e, S, R>)
        ensures life { result.0 ≡ self.entry }
        ensures level { last_published result.1.seat ≡ self.entry.newest }
    {
        let Begun { life, board, seat } = self;
        (life, Desk::new(board, seat, stage))
    }
}
