//! The command `simulate`, whose listing is written as the run goes.
ghost use Rattle.std.specs.Prelude.{◌≡◌, IfOk, IfErr};
ghost use Rattle.scenario.specs.declared.playing.Played.TheVariants.{InTurn};
ghost use Rattle.scenario_faults.specs.Refusals.{IsPlaced};
ghost use Rattle.simulate_scenario.specs.declared.asking.Query.TheVariants.{Report};
ghost use Rattle.scenario_commands.specs.Scenarios.{CountedPlays};
ghost use Rattle.scenario_commands.specs.Listings.{IsListingFault, ListingFails};

use change_share::ChangeCounts;
use command_faults::{CliFault, put_text};
use connection_table::TableKey;
use pcap_file::{Sink, Source};
use scenario_faults::{PlacedFault, scenario_in};
use simulate_scenario::{Listing, ListingGivenUp, Wanted, play_listed};
use std::alloc::Global;
use text_pages::Streamed;

/// The fault of a listing that was given up: that of its device, where this refused a page.
pub(crate) fn listing_fault<R: Sink + Drop>(given_up: ListingGivenUp<Streamed<R>>) -> CliFault
    ensures { IsListingFault given_up.fault result }
{
    match given_up.pages {
        Some(pages) if pages.is_refused => CliFault::Write,
        _ => CliFault::from(given_up.fault),
    }
}

/// The command `simulate`, whose listing goes to the report's device as the run goes, some 65,536 bytes at a time. So memory
/// doesn't grow with it. The rest comes behind it. After a fault the device may have got a part of the listing. The device comes
/// back with the counts of the connections, which are there where the changes are kept.
pub fn simulate_listed<I: Source, O: Sink, R: Sink + Drop>(
    alloc: Global,
    key: TableKey,
    scenario: &[u8],
    input: &mut I,
    output: &mut O,
    report: R,
    wanted: Wanted,
) -> Result<(Option<ChangeCounts>, R), PlacedFault>
    ensures counted { IfOk result (λ r. CountedPlays (Report wanted) scenario.now
        (I.tape input.old) (I.tape input.new) (O.tape output.old) (O.tape output.new) (R.tape report) (R.tape r.1) r.0) }
    ensures stopped { IfErr result (λ r. ListingFails r.fault (Report wanted) scenario.now
        (I.tape input.old) (I.tape input.new) (O.tape output.old) (O.tape output.new) ((input.new ≡ input.old) × (output.new ≡ output.old))) }
    ensures place { IfErr result (IsPlaced InTurn scenario.now) }
{
    let scenario = match scenario_in(alloc, scenario) {
        Ok(scenario) => scenario,
        Err(stopped) => return Err(stopped),
    };
    let pages = Streamed::new(report);
    let listing = Listing { wanted, pages };
    let (answer, pages) = match play_listed(alloc, key, scenario, listing, input, output) {
        Ok(told) => told,
        Err(given_up) => {
            let fault = listing_fault(given_up);
            return Err(PlacedFault { fault, place: None });
        }
    };
    let mut report = pages.sink;
    match put_text(&mut report, answer.text.as_str()) {
        Ok(()) => Ok((answer.counts, report)),
        Err(fault) => Err(PlacedFault { fault, place: None }),
    }
}
