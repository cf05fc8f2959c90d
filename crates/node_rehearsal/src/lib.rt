//! A node's run on one thread, in one of the orders that its threads might take. Its records are those that threads make; at
//! a stop they are those of workers that served nothing in that life. What it promises is what a run on threads promises.
//! The tests of `journal_tests` compare it with the replay of its history.
#![tactic(auto)]

ghost use Rattle.std.specs.Prelude.{◌≡◌, ◌<◌, ◌++◌, ◌∷◌, [], List, true, length, IfOk, OnOk, is_some};
ghost use Rattle.pool_versions.specs.Pool.{version_at};
ghost use Rattle.cluster_core.specs.Setups.{rules_for};
ghost use Rattle.thread_records.specs.declared.command.Command.{Command};
ghost use Rattle.thread_records.specs.declared.command.Command.TheVariants.{Publish, Offer};
ghost use Rattle.thread_records.specs.Losses.{ending};
ghost use Rattle.cluster_node.specs.declared.packets.Packet.{Packet};
ghost use Rattle.thread_records.specs.Histories.{past_of, NoneWaits};
ghost use Rattle.thread_records.specs.Journals.{Tells, Drives, IsServed};
ghost use Rattle.node_rehearsal.specs.PrivateGoing.{Going, drains};
ghost use Rattle.thread_records.specs.Runs.{IsRunOf};

use cluster_core::Setup;
use cluster_node::{Item, Outcome, Packet};
use connection_table::ConnTable;
use forwarder::Choice;
use handled_list::HandledList;
use hash_laws::FlowHash;
use pool_versions::Catalogue;
use selection::Scheme;
use shared_versions::{Shared, prepare_after};
use std::alloc::{AllocError, Global};
use thread_records::{Command, Journal, LifeFault, NodeRecord, Rings, WorkerRecord, are_of};

/// A queue of so many places for each worker, the oldest packet in front.
#[derive(Drop)]
pub struct Queues {
    lists: Vec<Vec<Item>>,
    places: usize,
}

impl Rings for Queues {
    ghost use Rattle.std.specs.Prelude.{false};

    ghost paced = { false };

    fn offer(&mut self, worker: u16, item: Item) -> bool {
        let at = worker as usize;
        if at >= self.lists.len() {
            return false;
        }
        if self.lists[at].len() >= self.places {
            return false;
        }
        let one = &mut self.lists[at];
        match one.push(item) {
            Ok(()) => true,
            Err(_) => false,
        }
    }
}

fn empty_queues(alloc: Global, workers: u16, places: u32) -> Result<Queues, AllocError> {
    let mut lists = Vec::new(alloc);
    for _ in 0..workers {
        lists.push(Vec::new(alloc))?;
    }
    Ok(Queues {
        lists,
        places: places as usize,
    })
}

fn knows(catalogue: &Catalogue, number: u32) -> bool
    ensures { result ≡ is_some (version_at number catalogue.now.versions) }
{
    catalogue.get(number).is_some()
}

// What a worker sent, by the numbers of its servings' events, of which the first has this one.
fn gather(sent: &mut Vec<u32>, first: usize, handled: &HandledList) -> Result<(), AllocError> {
    let mut number = u32::try_from(first).unwrap_or(u32::MAX);
    for at in 0..handled.len() {
        let Some(one) = handled.get(at) else {
            break;
        };
        if let Choice::Forward { .. } = one.choice {
            sent.push(number)?;
        }
        number = number.wrapping_add(1);
    }
    Ok(())
}

// A worker serves what is in its queue, under the newest version.
fn serve<S: Scheme, H: FlowHash, T: ConnTable>(
    alloc: Global,
    setup: &Setup<S, H>,
    newest: &Option<Shared<S>>,
    items: &[Item],
) -> Result<WorkerRecord<S, T>, AllocError> {
    let mut worker = WorkerRecord::make(alloc, setup)?;
    let Some(newest) = newest else {
        return Ok(worker);
    };
    for item in items {
        let _ = worker.handle(newest, item)?;
    }
    Ok(worker)
}

// All workers serve what is in their queues.
fn serve_all<S: Scheme, H: FlowHash, T: ConnTable>(
    alloc: Global,
    setup: &Setup<S, H>,
    newest: &Option<Shared<S>>,
    queues: &Queues,
) -> Result<Vec<WorkerRecord<S, T>>, AllocError> {
    let mut workers = Vec::new(alloc);
    for list in &queues.lists {
        workers.push(serve(alloc, setup, newest, list.as_slice())?)?;
    }
    Ok(workers)
}

fn gather_all<S: Scheme, T: ConnTable>(
    alloc: Global,
    events: usize,
    workers: &[WorkerRecord<S, T>],
) -> Result<Vec<u32>, AllocError> {
    let mut sent = Vec::new(alloc);
    let mut first = events;
    for worker in workers {
        gather(&mut sent, first, worker.handled())?;
        first = first.wrapping_add(worker.handled().len());
    }
    Ok(sent)
}

fn keep(lists: &mut Vec<Vec<u32>>, list: Vec<u32>) -> Result<(), AllocError> {
    match lists.push(list) {
        Ok(()) => Ok(()),
        Err(_) => Err(AllocError),
    }
}

// Prepares the version of a number after the newest one.
fn prepare<S: Scheme, H: FlowHash>(
    alloc: Global,
    setup: &Setup<S, H>,
    catalogue: &Catalogue,
    newest: &Option<Shared<S>>,
    number: u32,
) -> Result<Shared<S>, LifeFault> {
    let Some(version) = catalogue.get(number) else {
        return Err(LifeFault::Foreign);
    };
    match prepare_after(alloc, setup, version, newest) {
        Ok(next) => Ok(next),
        Err(_) => Err(LifeFault::Memory),
    }
}

// A version is installed, and then prepared.
fn publish<S: Scheme, H: FlowHash>(
    alloc: Global,
    journal: &mut Journal,
    setup: &Setup<S, H>,
    catalogue: &Catalogue,
    newest: &mut Option<Shared<S>>,
    number: u32,
) -> Result<(), LifeFault>
    ensures going { let rules = rules_for (λ s z. S.pick s z) (λ h. H.plain h) setup.now catalogue.now in
        (packets : List Packet) (cs : List Command) → Going rules packets cs journal.old →
        OnOk result (Going rules packets (cs ++ Publish number ∷ []) journal.new) }
    ensures kept { OnOk result ((journal.new.node ≡ journal.old.node) × (journal.new.ring ≡ journal.old.ring)) }
{
    match journal.install(knows(catalogue, number), number) {
        Ok(Outcome::Installed) => match prepare(alloc, setup, catalogue, newest, number) {
            Ok(next) => {
                *newest = Some(next);
                Ok(())
            }
            Err(fault) => Err(fault),
        },
        Ok(_) => Ok(()),
        Err(_) => Err(LifeFault::Memory),
    }
}

// A packet arrives.
fn offer<S: Scheme, H: FlowHash>(
    journal: &mut Journal,
    setup: &Setup<S, H>,
    catalogue: &Catalogue,
    packets: &[Packet],
    queue: &mut Queues,
    packet: u32,
) -> Result<(), LifeFault>
    ensures going { let rules = rules_for (λ s z. S.pick s z) (λ h. H.plain h) setup.now catalogue.now in
        (cs : List Command) → Going rules packets.now cs journal.old → OnOk result (Going rules packets.now (cs ++ Offer packet ∷ []) journal.new) }
    ensures kept { OnOk result ((journal.new.node ≡ journal.old.node) × (journal.new.ring ≡ journal.old.ring)) }
{
    let _ = catalogue.size();
    match journal.arrive(&setup.hash(), packets, packet, queue) {
        Ok(_) => Ok(()),
        Err(_) => Err(LifeFault::Memory),
    }
}

// Workers that serve nothing of what is in their queues.
fn serve_none<S: Scheme, H: FlowHash, T: ConnTable>(
    alloc: Global,
    setup: &Setup<S, H>,
) -> Result<Vec<WorkerRecord<S, T>>, AllocError> {
    let mut workers = Vec::new(alloc);
    for _ in 0..setup.workers() {
        workers.push(WorkerRecord::make(alloc, setup)?)?;
    }
    Ok(workers)
}

// Whether the life that a command ends is drained before.
fn is_drained(command: Command) -> bool
    ensures { result ≡ drains command }
{
    matches!(command, Command::Restart)
}

// A life ends, and another begins. Where it isn't drained nothing was served in it. The answer is what was sent.
fn restart<S: Scheme, H: FlowHash, T: ConnTable>(
    alloc: Global,
    journal: &mut Journal,
    setup: &Setup<S, H>,
    catalogue: &Catalogue,
    newest: &Option<Shared<S>>,
    queue: &Queues,
    drained: bool,
) -> Result<Vec<u32>, LifeFault>
    ensures going { let rules = rules_for (λ s z. S.pick s z) (λ h. H.plain h) setup.now catalogue.now in
        (packets : List Packet) (cs : List Command) → Going rules packets cs journal.old →
        OnOk result (Going rules packets (cs ++ ending drained ∷ []) journal.new) }
    ensures kept { OnOk result ((journal.new.node ≡ journal.old.node) × (journal.new.ring ≡ journal.old.ring)) }
{
    let workers: Vec<WorkerRecord<S, T>> = if drained {
        serve_all(alloc, setup, newest, queue)?
    } else {
        serve_none(alloc, setup)?
    };
    let sent = gather_all(alloc, journal.events().len(), workers.as_slice())?;
    if !are_of(setup, catalogue, workers.as_slice()) {
        return Err(LifeFault::Foreign);
    }
    match journal.end_life(workers, drained) {
        Ok(_) => Ok(sent),
        Err(fault) => Err(fault),
    }
}

// The last life ends. The answer is what was sent.
fn end<S: Scheme, H: FlowHash, T: ConnTable>(
    alloc: Global,
    journal: &mut Journal,
    setup: &Setup<S, H>,
    catalogue: &Catalogue,
    newest: &Option<Shared<S>>,
    queue: &Queues,
) -> Result<Vec<u32>, LifeFault>
    ensures ended { let rules = rules_for (λ s z. S.pick s z) (λ h. H.plain h) setup.now catalogue.now in
        (packets : List Packet) → Drives rules packets journal.old →
        OnOk result (Tells rules packets journal.new × NoneWaits (past_of rules packets journal.new.node journal.new.events)) }
    ensures served { OnOk result (IsServed journal.old journal.new) }
{
    let workers: Vec<WorkerRecord<S, T>> = serve_all(alloc, setup, newest, queue)?;
    let sent = gather_all(alloc, journal.events().len(), workers.as_slice())?;
    if !are_of(setup, catalogue, workers.as_slice()) {
        return Err(LifeFault::Foreign);
    }
    match journal.end(workers, true) {
        Ok(_) => Ok(sent),
        Err(fault) => Err(fault),
    }
}

/// A node's run: its commands in order, and at the end of each life all servings under the newest version. Where the life
/// ends with a stop there are none.
pub fn rehearse<S: Scheme, H: FlowHash, T: ConnTable>(
    alloc: Global,
    setup: &Setup<S, H>,
    catalogue: &Catalogue,
    packets: &[Packet],
    node: u16,
    commands: &[Command],
    ring: u32,
) -> Result<NodeRecord, LifeFault>
    requires { node < length setup.now.nodes }
    ensures { let rules = rules_for (λ s z. S.pick s z) (λ h. H.plain h) setup.now catalogue.now in
        IfOk result (λ r. IsRunOf rules packets.now node ring commands.now r) }
{
    let count = setup.workers();
    let mut journal = Journal::new(alloc, node, ring, count)?;
    let mut queue = empty_queues(alloc, count, ring)?;
    let mut sent = Vec::new(alloc);
    let mut newest = None;
    for command in commands {
        match *command {
            Command::Publish(number) => {
                publish(alloc, &mut journal, setup, catalogue, &mut newest, number)?;
            }
            Command::Offer(packet) => {
                offer(&mut journal, setup, catalogue, packets, &mut queue, packet)?;
            }
            Command::Restart | Command::Stop => {
                let drained = is_drained(*command);
                let list = restart::<S, H, T>(
                    alloc,
                    &mut journal,
                    setup,
                    catalogue,
                    &newest,
                    &queue,
                    drained,
                )?;
                keep(&mut sent, list)?;
                queue = empty_queues(alloc, count, ring)?;
            }
        }
    }
    let list = end::<S, H, T>(alloc, &mut journal, setup, catalogue, &newest, &queue)?;
    keep(&mut sent, list)?;
    match journal.finish(sent)?.open(alloc) {
        Ok(record) => Ok(record),
        Err(_) => Err(LifeFault::Memory),
    }
}
