//! How a part's run ended.
ghost use Rattle.std.specs.Prelude.{◌≡◌, ◌≤◌};
ghost use Rattle.event_trace.specs.Tally.{tally_of};
ghost use Rattle.node_part.specs.Parts.{part_trace};

use event_trace::Tally;
use ghost_log::Log;
use named_spread::NamedSpread;
use pcap_file::InputEnd;
use simulation::Played;
use std::marker::Model;

/// How a run ended of which a part was played: what is said of the capture's records, and how this ends. Of the trace only the
/// part's events are left, and only contracts read it.
#[derive(Drop)]
pub(crate) struct Ended {
    only: Option<u16>,
    tally: Tally,
    packets: u32,
    ending: InputEnd,
    played: Log<Played<NamedSpread>>,
}

impl Model for Ended {
    ghost use Rattle.std.specs.Prelude.{◌≡◌};
    ghost use Rattle.event_trace.specs.Tally.{tally_of};
    ghost use Rattle.node_part.specs.Parts.{part_trace};
    ghost use Rattle.simulate_scenario.specs.Ends.{RunEnd, trace_in};

    ghost Value = { RunEnd };

    ghost view = { λ e. record { trace = part_trace e.only (trace_in (λ p. p.play.trace) e.played.items); packets = e.packets; ending = e.ending } };

    ghost invariant = { λ e. e.tally ≡ tally_of e.packets (part_trace e.only (trace_in (λ p. p.play.trace) e.played.items)) };
}

impl Ended {
    /// How the run of a part ended.
    pub(crate) fn of(played: &Played<NamedSpread>, only: Option<u16>) -> Ended
        requires read { played.now.play.trace.read ≤ played.now.packets }
        ensures trace { result.trace ≡ part_trace only played.now.play.trace }
        ensures packets { result.packets ≡ played.now.packets }
        ensures ending { result.ending ≡ played.now.ending }
    {
        Ended {
            only,
            tally: played.play.tally(played.packets),
            packets: played.packets,
            ending: played.ending,
            played: Log::new().and(played),
        }
    }

    /// What a report says of the records.
    pub(crate) fn tally(&self) -> Tally
        ensures { result ≡ tally_of self.now.packets self.now.trace }
    {
        self.tally
    }

    /// How the capture ends.
    pub(crate) fn ending(&self) -> InputEnd
        ensures { result ≡ self.now.ending }
    {
        self.ending
    }
}
