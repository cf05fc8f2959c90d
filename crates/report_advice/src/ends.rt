//! Where the report of a text ends.

// How the lines begin that may stand behind a report: those of shares and of a summary.
const BEHIND: [&str; 8] = [
    "backend ",
    "node ",
    "connections ",
    "changed ",
    "changes ",
    "{\"type\":\"backend\",",
    "{\"type\":\"node\",",
    "{\"type\":\"summary\",",
];

fn stands_behind(line: &str) -> bool {
    BEHIND.iter().any(|words| line.starts_with(*words))
}

/// A text up to the end of its report: without the lines that stand behind it, which tell of shares and of changes. Their words
/// aren't the report's, and there may be many of them.
pub fn up_to_report(text: &str) -> &str {
    let mut rest = text;
    for _ in 0..text.len() {
        let whole = rest.strip_suffix('\n').unwrap_or(rest);
        let (before, line) = whole.rsplit_once('\n').unwrap_or(("", whole));
        if !stands_behind(line) {
            return rest;
        }
        rest = before;
    }
    rest
}
