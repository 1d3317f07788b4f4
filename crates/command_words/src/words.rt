ghost use Rattle.std.specs.Prelude.{◌≡◌, is_some, map, option_map, string_bytes};
ghost use Rattle.std.specs.Str.{bytes_eq};
ghost use Rattle.command_words.specs.Words.{are_once, behind_option, dashed, is_once, is_option, is_plain, positionals_of};

/// The options by name: those of every command, and the last three of `serve` alone.
pub const OPTION_NAMES: [&str; 10] = [
    "zone",
    "from",
    "days",
    "feeds",
    "speed",
    "reach",
    "scale",
    "port",
    "workers",
    "connections",
];

/// Whether a word is not empty and doesn't begin with `-`.
fn is_plain(word: &str) -> bool
    ensures { result ≡ is_plain word.now }
{
    match word.as_bytes() {
        [] => false,
        [first, ..] => *first != b'-',
    }
}

/// Whether a word names this option.
fn names(word: &str, option: &str) -> bool
    ensures { result ≡ bytes_eq word.now (dashed option.now) }
{
    match word.as_bytes().strip_prefix(b"--") {
        Some(name) => name == option.as_bytes(),
        None => false,
    }
}

/// Whether a word names an option.
fn is_option(word: &str) -> bool
    ensures { result ≡ is_option word.now }
{
    OPTION_NAMES.iter().any(|name| names(word, name))
}

/// Whether an option stands at most once among the words.
fn is_once(words: &[String], option: &str) -> bool
    ensures { result ≡ is_once (map string_bytes words.now) option.now }
{
    let uses = words
        .iter()
        .filter(|word| names(word.as_str(), option))
        .count();
    uses <= 1
}

/// Whether each option stands at most once.
pub fn are_once(words: &[String]) -> bool
    ensures { result ≡ are_once (map string_bytes words.now) }
{
    OPTION_NAMES.iter().all(|name| is_once(words, name))
}

/// Whether each word is positional or an option with its value behind it.
pub fn has_form(words: &[String]) -> bool
    ensures { result ≡ is_some (positionals_of (map string_bytes words.now)) }
{
    let mut left = words;
    while let Some((word, rest)) = left.split_first() {
        let text = word.as_str();
        if is_plain(text) {
            left = rest;
        } else {
            let Some(behind) = behind_option(text, rest) else {
                return false;
            };
            left = behind;
        }
    }
    true
}

/// What stands behind the value of an option, whose words are `name` and the first of `rest`.
fn behind_option<'a>(name: &str, rest: &'a [String]) -> Option<&'a [String]>
    ensures { option_map (λ left. map string_bytes left.now) result ≡ behind_option name.now (map string_bytes rest.now) }
{
    let (value, behind) = rest.split_first()?;
    if !is_option(name) || !is_plain(value.as_str()) {
        return None;
    }
    Some(behind)
}
