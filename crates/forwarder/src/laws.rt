//! What is as it would be if no member could drain.
ghost use Rattle.std.specs.Prelude.{◌≡◌, [], Some, None, if◌then◌else◌};
ghost use Rattle.pool_versions.specs.declared.backend.Backend.{Backend};
ghost use Rattle.connection_table.specs.declared.table.Entry.{Entry};
ghost use Rattle.selection.specs.Candidates.{Candidates};
ghost use Rattle.selection.specs.Readied.{keeps};
ghost use Rattle.forwarder.specs.Serving.{is_up, kept};

/// Where nobody drains, a backend is kept exactly while it is up (`same`). So an entry is kept exactly while its backend is
/// up (`entries`), and servings are those of a cluster that knows no draining. The body does nothing.
pub fn only_drains_are_new()
    ensures same { (b : Backend) (ups : Candidates) → ups.draining ≡ [] → keeps b ups ≡ is_up b ups }
    ensures entries { (e : Entry) (ups : Candidates) → ups.draining ≡ [] → kept (Some e) ups ≡ (if is_up e.backend ups then Some e else None) }
{}
