//! The command `simulate` of one node's part.
ghost use Rattle.std.specs.Prelude.{◌≡◌, IfOk, IfErr};
ghost use Rattle.scenario.specs.declared.playing.Played.TheVariants.{InTurn};
ghost use Rattle.scenario_faults.specs.Refusals.{IsPlaced};
ghost use Rattle.scenario_commands.specs.Parts.{PartPlays, PartFails, has_node};

use crate::listing::listing_fault;
use change_share::ChangeCounts;
use command_faults::{CliFault, put_text};
use connection_table::TableKey;
use node_part::PartSetup;
use pcap_file::{Sink, Source};
use pool_versions::PoolFault;
use scenario::Scenario;
use scenario_faults::{PlacedFault, scenario_in};
use simulate_scenario::{Listing, play_part};
use std::alloc::Global;
use text_pages::Streamed;

/// Whether a scenario has the node that is to be played.
pub(crate) fn has_node(scenario: &Scenario, only: Option<u16>) -> bool
    ensures { result ≡ has_node only scenario.now }
{
    match only {
        Some(node) => (node as usize) < scenario.nodes.len(),
        None => true,
    }
}

/// The command `simulate` of one node's part of a scenario: the same steps and the same choices of the spreader, but only the
/// node's events are judged, sent and told. What is written is that node's part of what the whole command writes. Where no
/// node is named all are played. The listing goes to the report's device as the run goes, as in [`simulate_listed`].
///
/// A node that the scenario lacks is BadNumber, before any device is called.
///
/// [`simulate_listed`]: crate::simulate_listed
pub fn simulate_part<I: Source, O: Sink, R: Sink + Drop>(
    alloc: Global,
    key: TableKey,
    part: PartSetup<&[u8]>,
    input: &mut I,
    output: &mut O,
    report: Listing<R>,
) -> Result<(Option<ChangeCounts>, R), PlacedFault>
    ensures played { IfOk result (λ r. PartPlays part.entry.only report.wanted part.entry.whole.now
        (I.tape input.old) (I.tape input.new) (O.tape output.old) (O.tape output.new) (R.tape report.pages) (R.tape r.1) r.0) }
    ensures stopped { IfErr result (λ r. PartFails r.fault part.entry.only report.wanted part.entry.whole.now
        (I.tape input.old) (I.tape input.new) (O.tape output.old) (O.tape output.new) ((input.new ≡ input.old) × (output.new ≡ output.old))) }
    ensures place { IfErr result (IsPlaced InTurn part.entry.whole.now) }
{
    let PartSetup { only, whole: text } = part;
    let scenario = match scenario_in(alloc, text) {
        Ok(scenario) => scenario,
        Err(stopped) => return Err(stopped),
    };
    if !has_node(&scenario, only) {
        let fault = CliFault::Pool(PoolFault::BadNumber);
        return Err(PlacedFault { fault, place: None });
    }
    let Listing {
        wanted,
        pages: sink,
    } = report;
    let pages = Streamed::new(sink);
    let listing = Listing { wanted, pages };
    let whole = PartSetup {
        only,
        whole: scenario,
    };
    let (answer, pages) = match play_part(alloc, key, whole, listing, input, output) {
        Ok(told) => told,
        Err(given_up) => {
            let fault = listing_fault(given_up);
            return Err(PlacedFault { fault, place: None });
        }
    };
    let mut report = pages.sink;
    match put_text(&mut report, answer.text.as_str()) {
        Ok(()) => Ok((answer.counts, report)),
        Err(fault) => Err(PlacedFault { fault, place: None }),
    }
}
