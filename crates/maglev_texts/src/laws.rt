//! What is printed is read, and nothing else.
ghost use Rattle.maglev_texts.specs.RoundTrips.{DecimalsAreReadBack, OnlyDecimalsAreRead, AddressesAreReadBack, OnlyAddressesAreRead, MembersAreReadBack};
ghost use Rattle.maglev_texts.specs.RoundTrips.{OnlyMembersAreRead, WeighedMembersAreReadBack, MemberWordsMeanTheSame, StatedMembersAreReadBack};
ghost use Rattle.maglev_texts.specs.RoundTrips.{WeighedWordsMeanTheSame};

/// Decimal numbers, addresses and member words are read from what is printed of them, and from no other text. Two texts of
/// one number, address or member are the same. A member word means the same where weights are allowed, and a word with a
/// weight where members may drain. The clauses are the laws; the body does nothing.
pub fn texts_are_read_back()
    ensures decimals { DecimalsAreReadBack }
    ensures only_decimals { OnlyDecimalsAreRead }
    ensures addresses { AddressesAreReadBack }
    ensures only_addresses { OnlyAddressesAreRead }
    ensures members { MembersAreReadBack }
    ensures only_members { OnlyMembersAreRead }
    ensures weighed_members { WeighedMembersAreReadBack }
    ensures unweighed { MemberWordsMeanTheSame }
    ensures stated_members { StatedMembersAreReadBack }
    ensures unstated { WeighedWordsMeanTheSame }
{}
