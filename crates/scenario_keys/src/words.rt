//! Words of a scenario's setup.
ghost use Rattle.std.specs.Prelude.{◌≡◌};
ghost use Rattle.scenario_keys.specs.Words.{protocol_of_word};

/// Which scheme a scenario asks for.
#[derive(Clone, Copy, Debug, PartialEq, Eq)]
pub enum SchemeKind {
    /// Maglev's tables, by the word `maglev`.
    Maglev,
    /// A hash modulo the number of backends, by the word `plain`.
    Plain,
    /// Backends in turn, by the word `round`.
    Round,
}

impl SchemeKind {
    ghost use Rattle.scenario_keys.specs.Words.{scheme_of_word};

    /// The scheme that a word names.
    pub fn of_word(word: &str) -> Option<SchemeKind>
        ensures { result ≡ scheme_of_word word.now }
    {
        match word {
            "maglev" => Some(SchemeKind::Maglev),
            "plain" => Some(SchemeKind::Plain),
            "round" => Some(SchemeKind::Round),
            _ => None,
        }
    }
}

/// How a scenario spreads packets over nodes.
#[derive(Clone, Copy, Debug, PartialEq, Eq)]
pub enum SpreadKind {
    /// By a hash of the flow, by the word `hash`.
    Hash,
    /// By turns, by the word `turn`.
    Turn,
}

impl SpreadKind {
    ghost use Rattle.scenario_keys.specs.Words.{spread_of_word};

    /// The spread that a word names.
    pub fn of_word(word: &str) -> Option<SpreadKind>
        ensures { result ≡ spread_of_word word.now }
    {
        match word {
            "hash" => Some(SpreadKind::Hash),
            "turn" => Some(SpreadKind::Turn),
            _ => None,
        }
    }
}

/// The number of the protocol that a word names: TCP is 6, UDP is 17.
pub fn protocol_of_word(word: &str) -> Option<u8>
    ensures { result ≡ protocol_of_word word.now }
{
    match word {
        "tcp" => Some(6),
        "udp" => Some(17),
        _ => None,
    }
}

/// A list of words.
#[derive(Clone, Copy, Debug, PartialEq, Eq)]
pub enum WordList {
    /// Those of hashes.
    Hash,
    /// Those of schemes.
    Scheme,
    /// Those of spreads.
    Spread,
    /// Those of protocols.
    Protocol,
}

impl WordList {
    /// The words of the list, for people.
    pub fn words(self) -> &'static str {
        match self {
            WordList::Hash => "\"fnv\", \"sha256\" or \"sum\"",
            WordList::Scheme => "\"maglev\", \"plain\" or \"round\"",
            WordList::Spread => "\"hash\" or \"turn\"",
            WordList::Protocol => "\"tcp\" or \"udp\"",
        }
    }
}
