//! The keys of a scenario, and the table of their rules.
ghost use Rattle.std.specs.Prelude.{◌≡◌, None, Some};
ghost use Rattle.scenario_keys.specs.declared.form.Form.TheVariants as form;
ghost use Rattle.scenario_keys.specs.Keys.{plain_rule, entry};

use crate::form::{Form, ItemForm};
use crate::formats::Format;
use crate::words::WordList;
use Format::{One, Three, Two};
use Home::{Document, Pool, Service, Version};

/// The most nodes of a scenario.
pub const MOST_NODES: usize = 64;
/// The most workers of a node.
pub const MOST_WORKERS: u64 = 16;
// The most entries of a connection table.
const MOST_ENTRIES: u64 = 1_000_000;
/// The most places of a ring.
pub const MOST_PLACES: u64 = 65_536;
// The longest idle limit, in microseconds: as many as there are in the seconds of a record's time.
const LONGEST_IDLE: u64 = 4_294_967_295_000_000;
/// The greatest number of a version.
pub const MOST_VERSION: u64 = 4_294_967_295;
/// The greatest port.
pub const MOST_PORT: u64 = 65_535;
/// The most steps of a scenario.
pub const MOST_STEPS: usize = 100_000;

/// A key of a scenario.
#[derive(Clone, Copy, Debug, PartialEq, Eq)]
pub enum Key {
    /// The format of the scenario.
    Format,
    /// The slots of a table.
    Size,
    /// The hash of names and flows.
    Hash,
    /// How a flow's backend is chosen.
    Scheme,
    /// How packets are spread over the nodes.
    Spread,
    /// The workers of each node.
    Workers,
    /// The entries of each connection table.
    Capacity,
    /// The places of each ring.
    Ring,
    /// Whether header checksums are tested.
    Check,
    /// How long an entry stands without a packet.
    Idle,
    /// The nodes' addresses.
    Nodes,
    /// The servers' addresses by name.
    Servers,
    /// What happens.
    Steps,
    /// The versions of the pools.
    Versions,
    /// A version's number.
    Number,
    /// The number of the version that a version begins with.
    Base,
    /// A version's services.
    Services,
    /// A service's address.
    Vip,
    /// A service's protocol.
    Proto,
    /// A service's port.
    Port,
    /// A service's members.
    Members,
    /// The servers that leave.
    Remove,
    /// The servers that go down.
    Down,
    /// The servers that drain.
    Drain,
    /// The servers that come up.
    Up,
    /// The servers whose weights change.
    Weights,
    /// The members that join.
    Add,
}

/// A table of a document.
#[derive(Clone, Copy, Debug, PartialEq, Eq)]
pub enum Owner {
    Document,
    Version,
    Service,
}

/// The tables that may have a key.
#[derive(Clone, Copy, Debug, PartialEq, Eq)]
pub enum Home {
    Document,
    Version,
    Service,
    /// Versions and services.
    Pool,
}

impl Home {
    ghost use Rattle.scenario_keys.specs.Keys.{is_home};

    /// Whether a table may have such a key.
    pub fn is_home(self, owner: Owner) -> bool
        ensures { result ≡ is_home self owner }
    {
        match self {
            Home::Document => matches!(owner, Owner::Document),
            Home::Version => matches!(owner, Owner::Version),
            Home::Service => matches!(owner, Owner::Service),
            Home::Pool => matches!(owner, Owner::Version | Owner::Service),
        }
    }
}

/// What is known of a key.
#[derive(Clone, Copy, Debug)]
pub struct Rule {
    /// The tables that may have it.
    pub home: Home,
    /// The first format that has it.
    pub since: Format,
    /// The key as a scenario has it.
    pub name: &'static str,
    /// What its value may be.
    pub form: Form,
}

fn entry(home: Home, since: Format, name: &'static str, form: Form) -> Rule
    ensures { plain_rule result ≡ entry home since name.now form }
{
    Rule {
        home,
        since,
        name,
        form,
    }
}

fn number(low: u64, high: u64) -> Form
    ensures { result ≡ form.Number low high None }
{
    Form::Number {
        low,
        high,
        missing: None,
    }
}

fn items(of: ItemForm, low: usize, high: usize) -> Form
    ensures { result ≡ form.Items of low high }
{
    Form::Items { of, low, high }
}

fn number_or(other: u64, low: u64, high: u64) -> Form
    ensures { result ≡ form.Number low high (Some other) }
{
    Form::Number {
        low,
        high,
        missing: Some(other),
    }
}

fn number_if(low: u64, high: u64) -> Form
    ensures { result ≡ form.NumberIf low high }
{
    Form::NumberIf { low, high }
}

fn any(of: ItemForm) -> Form
    ensures { result ≡ form.Items of 0 18446744073709551615 }
{
    items(of, 0, usize::MAX)
}

impl Key {
    ghost use Rattle.scenario_keys.specs.Keys.{rule_of, key_name, form_of, stands_in};

    /// The keys, each table's in the order in which a fault's words name them.
    pub const ALL: [Key; 27] = [
        Key::Format,
        Key::Size,
        Key::Hash,
        Key::Scheme,
        Key::Spread,
        Key::Workers,
        Key::Capacity,
        Key::Ring,
        Key::Check,
        Key::Idle,
        Key::Nodes,
        Key::Servers,
        Key::Steps,
        Key::Versions,
        Key::Number,
        Key::Base,
        Key::Services,
        Key::Vip,
        Key::Proto,
        Key::Port,
        Key::Members,
        Key::Remove,
        Key::Down,
        Key::Drain,
        Key::Up,
        Key::Weights,
        Key::Add,
    ];

    /// The table of keys: what is known of each.
    pub fn rule(self) -> Rule
        ensures { plain_rule result ≡ rule_of self }
    {
        match self {
            Key::Format => entry(Document, One, "format", number(1, 3)),
            Key::Size => entry(Document, One, "size", Form::Slots),
            Key::Hash => entry(Document, One, "hash", Form::Word(WordList::Hash)),
            Key::Scheme => entry(Document, One, "scheme", Form::Word(WordList::Scheme)),
            Key::Spread => entry(Document, One, "spread", Form::Word(WordList::Spread)),
            Key::Workers => entry(Document, One, "workers", number(1, MOST_WORKERS)),
            Key::Capacity => entry(Document, One, "capacity", number(1, MOST_ENTRIES)),
            Key::Ring => entry(Document, One, "ring", number_or(1024, 1, MOST_PLACES)),
            Key::Check => entry(Document, One, "check", Form::Flag { missing: true }),
            Key::Idle => entry(Document, Two, "idle", number_if(0, LONGEST_IDLE)),
            Key::Nodes => entry(
                Document,
                One,
                "nodes",
                items(ItemForm::Address, 1, MOST_NODES),
            ),
            Key::Servers => entry(Document, Three, "servers", Form::Servers),
            Key::Steps => entry(Document, One, "steps", items(ItemForm::Text, 0, MOST_STEPS)),
            Key::Versions => entry(Document, One, "versions", any(ItemForm::Table)),
            Key::Number => entry(Version, One, "number", number(0, MOST_VERSION)),
            Key::Base => entry(Version, Three, "base", number_if(0, MOST_VERSION)),
            Key::Services => entry(Version, One, "services", any(ItemForm::Table)),
            Key::Vip => entry(Service, One, "vip", Form::Address),
            Key::Proto => entry(Service, One, "proto", Form::Word(WordList::Protocol)),
            Key::Port => entry(Service, One, "port", number(0, MOST_PORT)),
            Key::Members => entry(Service, One, "members", any(ItemForm::Text)),
            Key::Remove => entry(Pool, Three, "remove", any(ItemForm::Text)),
            Key::Down => entry(Pool, Three, "down", any(ItemForm::Text)),
            Key::Drain => entry(Pool, Three, "drain", any(ItemForm::Text)),
            Key::Up => entry(Pool, Three, "up", any(ItemForm::Text)),
            Key::Weights => entry(Pool, Three, "weights", any(ItemForm::Text)),
            Key::Add => entry(Pool, Three, "add", any(ItemForm::Text)),
        }
    }

    /// The key as a scenario has it.
    pub fn name(self) -> &'static str
        ensures { result.now ≡ key_name self }
    {
        self.rule().name
    }

    /// What its value may be.
    pub fn form(self) -> Form
        ensures { result ≡ form_of self }
    {
        self.rule().form
    }

    /// Whether this table may have the key in a scenario of this format.
    pub fn stands_in(self, owner: Owner, format: Format) -> bool
        ensures { result ≡ stands_in owner format self }
    {
        let rule = self.rule();
        rule.home.is_home(owner) && format.has(rule.since)
    }
}
