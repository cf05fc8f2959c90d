//! A life from its board to its end.
ghost use Rattle.std.specs.Prelude.{◌≡◌, ◌<◌, IfErr, MatchResult};
ghost use Rattle.std.specs.Arc.{arc_value};
ghost use Rattle.cluster_core.specs.Setups.{rules_for};
ghost use Rattle.thread_roles.specs.Faults.{IsRefusal};
ghost use Rattle.thread_roles.specs.Going.{IsLived};
ghost use Rattle.thread_roles.specs.Shown.{number_of};
ghost use Rattle.node_life.specs.Told.{LifeTells};

use crate::begun::{Begun, Life};
use crate::homes::Homes;
use crate::life::{LifeRun, run_life};
use crate::rings::{lay, post_all};
use connection_table::ConnTable;
use hash_laws::FlowHash;
use selection::Scheme;
use shared_versions::Shared;
use stats_book::Names;
use std::alloc::Global;
use std::sync::Wait;
use std::thread::Threads;
use thread_roles::{Gate, RunFault, Stage, empty_stage, show};
use version_board::WordBoard;

// The number of the newest version, 0 where there is none.
fn newest_number<S: Scheme>(newest: &Option<Shared<S>>) -> u32
    ensures { result ≡ number_of arc_value newest.now }
{
    match newest {
        None => 0,
        Some(version) => version.number(),
    }
}

// Where versions are shown to the workers of a life, with the newest one if there is one.
fn staged<'e, S: Scheme, R: Wait>(
    rt: &'e R,
    alloc: Global,
    workers: u16,
    newest: &Option<Shared<S>>,
) -> Result<Stage<S, &'e R>, RunFault>
    requires { 0 < workers }
    ensures { IfErr result (λ fault. IsRefusal fault) }
{
    let mut stage = empty_stage(alloc, rt, workers)?;
    if let Some(newest) = newest {
        show(&mut stage, newest)?;
    }
    Ok(stage)
}

/// One life: a board, a part of the counts and rings for each worker on which packets may be placed, and the threads. Nothing is
/// answered before all threads are joined.
pub fn live<
    'e,
    S: Scheme + Send + Sync + 'e,
    H: FlowHash + Send + Sync + 'e,
    T: ConnTable + Send + 'e,
    G: Gate + Sync + 'e,
    B: Names + Send + Sync + 'e,
    R: Threads + Wait + Sync + 'e,
>(rt: &'e R, alloc: Global, life: Life<'e, S, H, G, B>) -> Result<LifeRun<S, B>, RunFault>
where
    S::Prepared: Send + Sync,
    requires { life.asked.setup.workers < life.parts }
    ensures { let life = life.entry in
        let rules = rules_for (λ s z. S.pick s z) (λ h. H.plain h) life.asked.setup life.asked.catalogue in
        MatchResult result
        (λ r. IsLived rules life.asked life.start life.parts r.progress.at r.progress.journal r.progress.tally.lost r.progress.tally.shares)
        (λ fault. LifeTells (λ a b. S.eq a b) rules life.asked life.start fault) }
{
    let (plan, progress) = life.parts();
    let mut progress = progress;
    let workers = plan.assignment.setup.workers();
    let first = newest_number(&progress.newest);
    let (board, publisher, seats) = WordBoard::new(alloc, workers, first)?;
    let stage = staged(rt, alloc, workers, &progress.newest)?;
    let homes = Homes::of_life(plan.assignment, progress.at);
    let posts = post_all(alloc, &board, &stage, seats, &homes)?;
    let laid = lay(alloc, posts, plan.assignment.ring, &mut progress.tally)?;
    let life = Begun::new(Life::new(plan, progress), &board, publisher);
    run_life::<S, H, T, G, B, R>(rt, alloc, life, laid, stage)
}
