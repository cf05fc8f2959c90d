//! What is true of the shares of every record. The clause is the law; the body does nothing.
ghost use Rattle.traffic_shares.specs.Laws.{PacketsAddUp};

/// The packets of all shares of backends add up to the number of packets that were sent, and so do those of all shares of nodes.
pub fn packets_add_up()
    ensures { PacketsAddUp }
{}
