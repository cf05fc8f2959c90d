//! What is asked of a scenario's run, and what answers it.
ghost use Rattle.std.specs.Prelude.{◌≡◌};

use change_share::ChangeCounts;
use json_lines::Form;
use std::alloc::AllocError;
use traffic_shares::AskedShares;

/// What comes before a report, and after it. With `list` a line for each event comes first. With `splits` there is then a line
/// for each flow that was split, and how many there were. With `places` each of these lines also tells where its two packets
/// were sent, and why the later one went elsewhere; then they are there without `splits` too. With `summary` the report is
/// followed by how many connections changed their server, how often, and why. Before that comes what each backend took under
/// each version, with `backends`, and then the same of each node, with `nodes`.
#[derive(Clone, Copy, Debug, PartialEq, Eq)]
pub struct Wanted {
    pub list: bool,
    pub splits: bool,
    pub places: bool,
    pub backends: bool,
    pub nodes: bool,
    pub summary: bool,
    pub form: Form,
}

impl Wanted {
    ghost use Rattle.simulate_scenario.specs.Turned.{unturned};
    ghost use Rattle.simulate_scenario.specs.Asked.{unlisted, is_plain, is_summary, asked_shares, keeps_splits, keeps_changes, keeps_only_changes};

    /// The report alone.
    pub const REPORT: Wanted = Wanted {
        list: false,
        splits: false,
        places: false,
        backends: false,
        nodes: false,
        summary: false,
        form: Form::Plain,
    };

    /// The same without a line for each event.
    pub(crate) fn unlisted(self) -> Wanted
        ensures { result ≡ unlisted self }
    {
        Wanted {
            list: false,
            ..self
        }
    }

    /// The same without what is told of connections.
    pub(crate) fn unturned(self) -> Wanted
        ensures { result ≡ unturned self }
    {
        Wanted {
            splits: false,
            places: false,
            summary: false,
            ..self
        }
    }

    /// Whether it is the report alone.
    pub(crate) fn is_plain(self) -> bool
        ensures { result ≡ is_plain self }
    {
        !(self.list || self.splits || self.places || self.backends || self.nodes || self.summary)
    }

    /// Whether it is the report with a summary, and nothing else.
    pub fn is_summary(self) -> bool
        ensures { result ≡ is_summary self }
    {
        self.summary && !(self.list || self.splits || self.places || self.backends || self.nodes)
    }

    /// Whose shares are wanted.
    pub(crate) fn asked_shares(self) -> AskedShares
        ensures { result ≡ asked_shares self }
    {
        AskedShares {
            backends: self.backends,
            nodes: self.nodes,
        }
    }

    /// Whether the splits are kept by themselves: a book of changes has them too.
    #[inline(always)]
    pub(crate) fn keeps_splits(self) -> bool
        ensures { result ≡ keeps_splits (keeps_changes self.places self.summary) self.splits }
    {
        self.splits && !self.keeps_changes()
    }

    /// Whether the changes are kept.
    #[inline(always)]
    pub(crate) fn keeps_changes(self) -> bool
        ensures { result ≡ keeps_changes self.places self.summary }
    {
        self.places || self.summary
    }

    /// Whether nothing but the changes is kept beside the counts.
    pub(crate) fn keeps_only_changes(self) -> bool
        ensures { result ≡ keeps_only_changes self }
    {
        !(self.list || self.backends || self.nodes) && self.keeps_changes()
    }
}

/// Two events of a run, counted from 0, the packets of which are explained. With `list` their lines come first, in the order of
/// the run. An event that isn't there has none.
#[derive(Clone, Copy, Debug, PartialEq, Eq)]
pub struct TwoEvents {
    pub one: u64,
    pub other: u64,
    pub list: bool,
    pub form: Form,
}

impl TwoEvents {
    ghost use Rattle.simulate_scenario.specs.Asked.{lists_event};

    /// Whether the line of the event of a number is asked for.
    pub(crate) fn lists(self, number: u64) -> bool
        ensures { result ≡ lists_event self number }
    {
        self.list && (number == self.one || number == self.other)
    }
}

/// What is asked of a scenario's run.
#[derive(Clone, Copy, Debug, PartialEq, Eq)]
pub enum Query {
    /// Its report, with what is wanted before it.
    Report(Wanted),
    /// Why the packets of two events went where they went.
    Events(TwoEvents),
}

impl Query {
    ghost use Rattle.std.specs.Prelude.{◌++◌, OnOk, string_bytes};
    ghost use Rattle.simulate_scenario.specs.Asked.{begun_for, shares_in, is_report_alone, is_report_of_changes};

    /// Puts what the lines of the events begin with after a text.
    pub(crate) fn push_begun(&self, text: &mut String) -> Result<(), AllocError>
        ensures { OnOk result (string_bytes text.new ≡ string_bytes text.old ++ begun_for self.now) }
    {
        match *self {
            Query::Report(wanted) => wanted.form.push_head(text, "simulate"),
            Query::Events(_) => Ok(()),
        }
    }

    /// Whether its report alone is asked for.
    pub(crate) fn is_plain(&self) -> bool
        ensures { result ≡ is_report_alone self.now }
    {
        match *self {
            Query::Report(wanted) => wanted.is_plain(),
            Query::Events(_) => false,
        }
    }

    /// Whether its report is asked for, and nothing but the changes is kept for it beside the counts.
    pub(crate) fn keeps_only_changes(&self) -> bool
        ensures { result ≡ is_report_of_changes self.now }
    {
        match *self {
            Query::Report(wanted) => wanted.keeps_only_changes(),
            Query::Events(_) => false,
        }
    }

    /// Whose shares are asked for.
    pub(crate) fn asked_shares(&self) -> AskedShares
        ensures { result ≡ shares_in self.now }
    {
        match *self {
            Query::Report(wanted) => wanted.asked_shares(),
            Query::Events(_) => AskedShares {
                backends: false,
                nodes: false,
            },
        }
    }
}

/// The text that answers what is asked of a run. Where its changes were kept there is also how many connections it had, and
/// how many of them changed their server: where places are wanted, or a summary.
#[derive(Debug, Drop)]
pub struct Answer {
    pub text: String,
    pub counts: Option<ChangeCounts>,
}
