//! The command `simulate`, where a flow that begins again is another connection.
ghost use Rattle.std.specs.Prelude.{◌≡◌, None, IfOk, IfErr};
ghost use Rattle.scenario.specs.declared.playing.Played.TheVariants.{InTurn, OnThreads};
ghost use Rattle.scenario_faults.specs.Refusals.{IsPlaced};
ghost use Rattle.connection_starts.specs.Captures.{AreOrdinalsOf};
ghost use Rattle.scenario_commands.specs.Turned.{OrdinalsIn, OrdinalsFail, OrdinalsFor, OrdinalsStop, IsUnread, TurnedPlays, TurnedFails};

use crate::listing::listing_fault;
use crate::parting::has_node;
use change_share::ChangeCounts;
use command_faults::{CliFault, put_text};
use connection_starts::{Ordinals, StartRules, read_ordinals};
use connection_table::TableKey;
use node_part::PartSetup;
use pcap_file::{Sink, Source};
use pool_versions::PoolFault;
use scenario_faults::{PlacedFault, scenario_in, thread_scenario_in};
use simulate_scenario::{Listing, TurnedListing, play_turned};
use std::alloc::Global;
use text_pages::Streamed;

// The ordinals in a capture.
fn ordinals_by<I: Source>(
    alloc: Global,
    key: TableKey,
    check: bool,
    idle: Option<u64>,
    input: &mut I,
) -> Result<Ordinals, PlacedFault>
    ensures read { IfOk result (AreOrdinalsOf (record { check = check; idle = idle }) (I.tape input.old).bytes) }
    ensures stopped { IfErr result (λ r. IsUnread r.fault (I.tape input.old) (I.tape input.new)) }
    ensures place { IfErr result (λ r. r.place ≡ None) }
{
    let rules = StartRules { check, idle };
    match read_ordinals(alloc, key, rules, input) {
        Ok(ordinals) => Ok(ordinals),
        Err(fault) => {
            let fault = CliFault::from(fault);
            Err(PlacedFault { fault, place: None })
        }
    }
}

/// The ordinal of each record's connection in a capture over which a scenario is to be played: how often its flow has begun again.
/// It begins again with a TCP SYN without ACK after FIN or RST. Where microseconds are given, it also does so after that long
/// without a segment. The checksums of IPv4 headers are tested where the scenario has them tested.
///
/// The device isn't called before the scenario was accepted, which may have no step `stop`.
pub fn ordinals_in<I: Source>(
    alloc: Global,
    key: TableKey,
    scenario: &[u8],
    idle: Option<u64>,
    input: &mut I,
) -> Result<Ordinals, PlacedFault>
    ensures read { IfOk result (OrdinalsIn idle scenario.now (I.tape input.old).bytes) }
    ensures stopped { IfErr result (λ r. OrdinalsFail r.fault scenario.now (I.tape input.old) (I.tape input.new) (input.new ≡ input.old)) }
    ensures place { IfErr result (IsPlaced InTurn scenario.now) }
{
    let scenario = match scenario_in(alloc, scenario) {
        Ok(scenario) => scenario,
        Err(stopped) => return Err(stopped),
    };
    match ordinals_by(alloc, key, scenario.check, idle, input) {
        Ok(ordinals) => Ok(ordinals),
        Err(stopped) => Err(stopped),
    }
}

/// The same of a scenario that is to run on threads, which may have no step `full`, `hold` or `drain`.
pub fn thread_ordinals_in<I: Source>(
    alloc: Global,
    key: TableKey,
    scenario: &[u8],
    idle: Option<u64>,
    input: &mut I,
) -> Result<Ordinals, PlacedFault>
    ensures read { IfOk result (OrdinalsFor OnThreads idle scenario.now (I.tape input.old).bytes) }
    ensures stopped { IfErr result (λ r. OrdinalsStop OnThreads r.fault scenario.now (I.tape input.old) (I.tape input.new) (input.new ≡ input.old)) }
    ensures place { IfErr result (IsPlaced OnThreads scenario.now) }
{
    let scenario = match thread_scenario_in(alloc, scenario) {
        Ok(scenario) => scenario,
        Err(stopped) => return Err(stopped),
    };
    match ordinals_by(alloc, key, scenario.scenario.check, idle, input) {
        Ok(ordinals) => Ok(ordinals),
        Err(stopped) => Err(stopped),
    }
}

/// The command `simulate` as in [`simulate_part`], of one node's part or, where no node is named, of the whole. In what is told of
/// connections, which are the splits and the summary, a flow that begins again is another connection: which one of its flow a packet
/// belongs to is the ordinal of its record.
///
/// A node that the scenario lacks is BadNumber, before any device is called.
///
/// [`simulate_part`]: crate::simulate_part
pub fn simulate_turned<I: Source, O: Sink, R: Sink + Drop>(
    alloc: Global,
    key: TableKey,
    part: PartSetup<&[u8]>,
    input: &mut I,
    output: &mut O,
    report: TurnedListing<R>,
) -> Result<(Option<ChangeCounts>, R), PlacedFault>
    ensures played { IfOk result (λ r. TurnedPlays report.ordinals part.entry.only report.listing.wanted part.entry.whole.now
        (I.tape input.old) (I.tape input.new) (O.tape output.old) (O.tape output.new) (R.tape report.listing.pages) (R.tape r.1) r.0) }
    ensures stopped { IfErr result (λ r. TurnedFails r.fault report.ordinals part.entry.only report.listing.wanted part.entry.whole.now
        (I.tape input.old) (I.tape input.new) (O.tape output.old) (O.tape output.new) ((input.new ≡ input.old) × (output.new ≡ output.old))) }
    ensures place { IfErr result (IsPlaced InTurn part.entry.whole.now) }
{
    let PartSetup { only, whole: text } = part;
    let scenario = match scenario_in(alloc, text) {
        Ok(scenario) => scenario,
        Err(stopped) => return Err(stopped),
    };
    if !has_node(&scenario, only) {
        let fault = CliFault::Pool(PoolFault::BadNumber);
        return Err(PlacedFault { fault, place: None });
    }
    let TurnedListing { listing, ordinals } = report;
    let Listing {
        wanted,
        pages: sink,
    } = listing;
    let pages = Streamed::new(sink);
    let listing = Listing { wanted, pages };
    let turned = TurnedListing { listing, ordinals };
    let whole = PartSetup {
        only,
        whole: scenario,
    };
    let (answer, pages) = match play_turned(alloc, key, whole, turned, input, output) {
        Ok(told) => told,
        Err(given_up) => {
            let fault = listing_fault(given_up);
            return Err(PlacedFault { fault, place: None });
        }
    };
    let mut report = pages.sink;
    match put_text(&mut report, answer.text.as_str()) {
        Ok(()) => Ok((answer.counts, report)),
        Err(fault) => Err(PlacedFault { fault, place: None }),
    }
}
