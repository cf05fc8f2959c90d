//! What differences mean.
ghost use Rattle.scenario_pools.specs.Laws.{WholeVersionsAreStated, DifferencesAreWrittenOut, VersionsMeanTheSame};
ghost use Rattle.scenario_pools.specs.Older.{OlderFormatsStateVersions};

/// Drafts without differences mean the versions whose words are all members. The versions that drafts mean are those that
/// the drafts written out mean. The clauses are the laws; the body does nothing.
pub fn differences_are_written_out()
    ensures whole { WholeVersionsAreStated }
    ensures written_out { DifferencesAreWrittenOut }
{}

/// In formats 1 and 2 a document's drafts are the versions that it states. What they mean they mean in each later format too.
/// The clauses are the laws; the body does nothing.
pub fn older_formats_state_versions()
    ensures stated { OlderFormatsStateVersions }
    ensures later { VersionsMeanTheSame }
{}
