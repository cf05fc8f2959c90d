//! What is expected of a step that is none, by its first word, and which word behind that is wrong.
use scenario_keys::{Format, Key};
use shown_text::shown;
use std::alloc::Global;
use toml::{Table, Value};

/// What is expected of a text that begins as no step does.
const STEPS: &str =
    "install N V, live [N ..], take K, lose K, again P, full N [W ..], hold N, drain N, restart N or stop N, with balancers N and workers W that are there and none twice in a list; run knows no full, hold and drain, and it alone knows stop";

/// The same in format 3.
const STARRED_STEPS: &str =
    "install N V, live [N ..], take K, lose K, again P, full N [W ..], hold N, drain N, restart N, stop N or until T, with balancers N and workers W that are there and none twice in a list; * or a number for the N of install, restart and stop and the K of take; T in seconds; run knows no full, hold and drain, and it alone knows stop; and at most 100000 steps in all";

/// What is expected of a step by time.
const UNTIL: &str =
    "until T, with T in seconds from 0 to 4294967295, and one to six digits behind a point or no point";

/// The steps of format 3 that may have a star in place of a number.
const STARRED: [&str; 4] = ["install", "take", "restart", "stop"];

// The number of the last balancer.
fn last_balancer(table: &Table) -> Option<i64> {
    match table.get(Key::Nodes.name()) {
        Some(Value::Array(nodes)) => i64::try_from(nodes.len()).ok()?.checked_sub(1),
        _ => None,
    }
}

// The number of each balancer's last worker.
fn last_worker(table: &Table) -> Option<i64> {
    table.get(Key::Workers.name())?.as_integer()?.checked_sub(1)
}

// What a step of this first word is.
fn form_of(alloc: Global, table: &Table, first: &str) -> Option<String> {
    let last = last_balancer(table)?;
    let balancer = format!(in alloc; "with a balancer N from 0 to {last}").ok()?;
    match first {
        "install" => format!(in alloc; "install N V, {balancer} and a version's number V").ok(),
        "live" => {
            format!(in alloc; "live [N ..], with balancers N from 0 to {last}, none twice").ok()
        }
        "take" | "lose" => { format!(in alloc; "{first} K, with a number K of records").ok() }
        "again" => format!(in alloc; "again P, with the number P of a record, from 0 on").ok(),
        "full" => {
            let worker = last_worker(table)?;
            format!(in alloc;
                "full N [W ..], {balancer} and workers W from 0 to {worker}, none twice; run doesn't know this step"
            ).ok()
        }
        "hold" | "drain" => {
            format!(in alloc; "{first} N, {balancer}; run doesn't know this step").ok()
        }
        "restart" => format!(in alloc; "restart N, {balancer}").ok(),
        "stop" => format!(in alloc; "stop N, {balancer}; run alone knows this step").ok(),
        "until" => String::from_str(alloc, UNTIL).ok(),
        _ => None,
    }
}

// Whether a word is a number as steps have them.
fn is_number(word: &str) -> bool {
    let is_plain = word.bytes().all(|byte| byte.is_ascii_digit());
    is_plain && (word == "0" || !word.starts_with('0')) && word.parse::<u32>().is_ok()
}

// Whether a word is a time as steps have them.
fn is_time(word: &str) -> bool {
    let (whole, places) = word.split_once('.').unwrap_or((word, "0"));
    let are_digits = places.bytes().all(|byte| byte.is_ascii_digit());
    let is_late = whole == "4294967295" && places.bytes().any(|byte| byte != b'0');
    is_number(whole) && are_digits && matches!(places.len(), 1..=6) && !is_late
}

// Whether a number is greater than the last one.
fn is_past(word: &str, last: i64) -> bool {
    match word.parse::<u32>() {
        Ok(number) => i64::from(number) > last,
        Err(_) => true,
    }
}

// What a word behind a step's first stands for.
#[derive(Clone, Copy, PartialEq, Eq)]
enum Part {
    Balancer,
    Worker,
    Number,
    Time,
}

// What the word at this place behind a step's first stands for. None where no word may stand, or no step begins so.
fn part_at(first: &str, place: usize) -> Option<Part> {
    match first {
        "live" => Some(Part::Balancer),
        "full" if place > 0 => Some(Part::Worker),
        "install" if place == 1 => Some(Part::Number),
        _ if place > 0 => None,
        "install" | "full" | "hold" | "drain" | "restart" | "stop" => Some(Part::Balancer),
        "take" | "lose" | "again" => Some(Part::Number),
        "until" => Some(Part::Time),
        _ => None,
    }
}

// How many words there are at least behind a step's first.
fn fewest_words(first: &str) -> usize {
    match first {
        "live" => 0,
        "install" => 2,
        _ => 1,
    }
}

// What is wrong with a word: the numbers are those of the last balancer and the last worker.
#[derive(Clone, Copy)]
enum Wrong {
    TooMany,
    NoTime,
    NoNumber,
    NoBalancer(i64),
    NoWorker(i64),
    Twice,
}

// What is wrong with a word, whatever stands before it.
fn wrong_alone(table: &Table, part: Part, word: &str) -> Option<Wrong> {
    match part {
        Part::Time if is_time(word) => None,
        Part::Time => Some(Wrong::NoTime),
        _ if !is_number(word) => Some(Wrong::NoNumber),
        Part::Balancer => last_balancer(table)
            .filter(|last| is_past(word, *last))
            .map(|last| Wrong::NoBalancer(last)),
        Part::Worker => last_worker(table)
            .filter(|last| is_past(word, *last))
            .map(|last| Wrong::NoWorker(last)),
        Part::Number => None,
    }
}

// A step's text, its first word, and whether a star may stand behind that.
#[derive(Clone, Copy)]
struct Step<'a> {
    text: &'a str,
    first: &'a str,
    stars: bool,
}

impl<'a> Step<'a> {
    // Whether a word stands before this place, for the same.
    fn stands_before(self, place: usize, word: &str) -> bool {
        let part = part_at(self.first, place);
        let before = self.text.split(' ').skip(1).take(place).enumerate();
        before
            .filter(|(n, _)| part_at(self.first, *n) == part)
            .any(|(_, other)| other == word)
    }

    // What is wrong with the word at this place behind the first.
    fn wrong_at(self, table: &Table, place: usize, word: &str) -> Option<Wrong> {
        let Some(part) = part_at(self.first, place) else {
            return Some(Wrong::TooMany);
        };
        if self.stars && place == 0 && word == "*" {
            return None;
        }
        match wrong_alone(table, part, word) {
            None if self.stands_before(place, word) => Some(Wrong::Twice),
            wrong => wrong,
        }
    }

    // Whether a word is missing behind the first.
    fn is_short(self) -> bool {
        self.text.split(' ').skip(1).count() < fewest_words(self.first)
    }
}

// What is said of a word that is wrong.
fn push_wrong(alloc: Global, said: &mut String, word: &str, wrong: Wrong) -> Option<()> {
    let word = shown(alloc, word).ok()?;
    let line = match wrong {
        Wrong::TooMany => format!(in alloc; "; \"{word}\" is a word too many"),
        Wrong::NoTime => format!(in alloc; "; \"{word}\" is no time"),
        Wrong::NoNumber => format!(in alloc;
            "; \"{word}\" is no number of digits up to 4294967295 without leading zeros"
        ),
        Wrong::NoBalancer(last) => {
            format!(in alloc; "; \"{word}\" is no balancer: there are 0 to {last}")
        }
        Wrong::NoWorker(last) => {
            format!(in alloc; "; \"{word}\" is no worker: there are 0 to {last}")
        }
        Wrong::Twice => format!(in alloc; "; \"{word}\" stands twice"),
    };
    said.push_str(line.ok()?.as_str()).ok()
}

// What is said of the first word behind a step's first that is wrong.
fn push_first_wrong(alloc: Global, said: &mut String, table: &Table, step: Step<'_>) -> Option<()> {
    for (place, word) in step.text.split(' ').skip(1).enumerate() {
        if let Some(wrong) = step.wrong_at(table, place, word) {
            return push_wrong(alloc, said, word, wrong);
        }
    }
    if step.is_short() {
        return said.push_str("; a word is missing").ok();
    }
    Some(())
}

// What is expected of a step of this first word, which some step has.
fn expected_of(alloc: Global, table: &Table, step: Step<'_>) -> Option<String> {
    let mut said = form_of(alloc, table, step.first)?;
    push_first_wrong(alloc, &mut said, table, step)?;
    if step.stars {
        said.push_str("; * is all of them, and at most 100000 steps in all")
            .ok()?;
    }
    Some(said)
}

// Whether a text is a step of format 3 in another one: a step by time, or one with a star.
fn is_of_three(format: Format, first: &str, text: &str) -> bool {
    let has_star = STARRED.contains(&first) && text.split(' ').nth(1) == Some("*");
    format != Format::Three && (first == "until" || has_star)
}

// Whether a step of a format begins with this word.
fn begins_step(format: Format, first: &str) -> bool {
    part_at(first, 0).is_some() && (format == Format::Three || first != "until")
}

// What is expected of a step of a format, by its text and its first word.
fn expected_in(
    alloc: Global,
    table: &Table,
    format: Format,
    first: &str,
    text: &str,
) -> Option<String> {
    if begins_step(format, first) {
        let stars = format == Format::Three && STARRED.contains(&first);
        return expected_of(alloc, table, Step { text, first, stars });
    }
    let said = match format {
        Format::One | Format::Two => STEPS,
        Format::Three => STARRED_STEPS,
    };
    String::from_str(alloc, said).ok()
}

/// What is expected of a step, by its text.
pub(crate) fn expected_step(
    alloc: Global,
    table: &Table,
    format: Format,
    text: &str,
) -> Option<String> {
    let first = text.split(' ').next().unwrap_or("");
    let mut said = expected_in(alloc, table, format, first, text)?;
    if is_of_three(format, first, text) {
        said.push_str("; until and * are of format 3").ok()?;
    }
    Some(said)
}
