//! The counts of a report.

/// A cause for which packets were dropped, and how many.
#[derive(Clone, Copy, Debug)]
pub(crate) struct Drops<'a> {
    pub(crate) cause: &'a str,
    pub(crate) count: u64,
}

/// What a report counts, as far as advice goes by it.
#[derive(Clone, Copy, Debug)]
pub(crate) struct Counts<'a> {
    pub(crate) received: u64,
    pub(crate) forwarded: u64,
    pub(crate) unrouted: u64,
    pub(crate) left: u64,
    pub(crate) refused: u64,
    pub(crate) rings_full: u64,
    pub(crate) truncated: u64,
    /// The cause for which most packets were dropped.
    pub(crate) most: Drops<'a>,
}

// Whether packets are dropped for a cause of this name.
fn is_cause(word: &str) -> bool {
    match word {
        "NotIpv4" | "Truncated" | "BadHeader" | "BadChecksum" | "Fragment" | "NotTcpUdp" => true,
        "BadTransport" | "TooLarge" | "NoService" | "NoBackend" | "NoVersion" => true,
        "RingsFull" | "LostAtRestart" => true,
        _ => false,
    }
}

impl<'a> Counts<'a> {
    fn none() -> Counts<'a> {
        Counts {
            received: 0,
            forwarded: 0,
            unrouted: 0,
            left: 0,
            refused: 0,
            rings_full: 0,
            truncated: 0,
            most: Drops {
                cause: "",
                count: 0,
            },
        }
    }

    // A cause, and how many packets were dropped for it.
    fn drop(&mut self, cause: &'a str, count: u64) {
        match cause {
            "RingsFull" => self.rings_full = count,
            "Truncated" => self.truncated = count,
            _ => {}
        }
        if count > self.most.count {
            self.most = Drops { cause, count };
        }
    }

    // A number, with the word before it. A report begins with `packets`, whatever stands before.
    fn note(&mut self, word: &'a str, count: u64) {
        match word {
            "packets" => *self = Counts::none(),
            "received" => self.received = count,
            "forwarded" => self.forwarded = count,
            "unrouted" => self.unrouted = count,
            "left" => self.left = count,
            "refused" => self.refused = count,
            _ => if is_cause(word) {
                self.drop(word, count);
            },
        }
    }

    /// How many packets came to a balancer and weren't sent.
    pub(crate) fn unsent(&self) -> u64 {
        self.received.saturating_sub(self.forwarded)
    }

    // Whether fewer than one packet in ten was sent.
    fn are_few_sent(&self) -> bool {
        self.forwarded <= self.received / 10
    }

    // The drops that are told first: those for the most frequent cause, where few packets were sent.
    fn drops_told_first(&self) -> Drops<'a> {
        if self.are_few_sent() {
            return self.most;
        }
        Drops {
            cause: "",
            count: 0,
        }
    }

    // A cause, with how many packets were dropped for it, or none where that is told first.
    fn drops_beside(&self, cause: &'a str, count: u64) -> Drops<'a> {
        let is_told = self.drops_told_first().cause == cause;
        let count = if is_told { 0 } else { count };
        Drops { cause, count }
    }

    /// The drops that are told, each cause once: those for the most frequent one where few packets were sent, then those at
    /// full rings, and those of packets of which the capture has only the beginnings.
    pub(crate) fn drops_to_tell(&self) -> [Drops<'a>; 3] {
        [
            self.drops_told_first(),
            self.drops_beside("RingsFull", self.rings_full),
            self.drops_beside("Truncated", self.truncated),
        ]
    }

    /// Those of the report that a text ends with, in lines or as an object.
    pub(crate) fn of_report(text: &'a str) -> Counts<'a> {
        let mut counts = Counts::none();
        let mut before = "";
        let words = text.split(|letter: char| !letter.is_ascii_alphanumeric());
        for word in words.filter(|word| !word.is_empty()) {
            if let Ok(count) = word.parse::<u64>() {
                counts.note(before, count);
            }
            before = word;
        }
        counts
    }
}
