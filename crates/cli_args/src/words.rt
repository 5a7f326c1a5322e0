//! The shape of the words, checked before they are parsed.

ghost use Rattle.std.specs.Prelude.{◌≡◌, IfOk, map, option_map, string_bytes};
ghost use Rattle.std.specs.List.{list_any, before_first};
ghost use Rattle.cli_args.specs.Command as spec;
ghost use Rattle.cli_args.specs.inner.Shape as shape;

use std::alloc::{AllocError, Global};

/// Whether an option has a value.
#[derive(Clone, Copy)]
pub(crate) enum Kind {
    Valued,
    Flag,
}

/// The options that have a value.
pub(crate) static VALUED: [&str; 7] = [
    "workers",
    "fuel",
    "quantum",
    "bias",
    "hash-start",
    "tick",
    "states",
];

/// The options that have none.
pub(crate) static FLAGS: [&str; 4] = ["stats", "journal", "report", "witness"];

/// Whether the option with this name has a value, or `None` where there is no such option.
fn kind_of(name: &str) -> Option<Kind>
    ensures { result ≡ spec.kind_of name.now }
{
    if VALUED.as_slice().contains(&name) {
        Some(Kind::Valued)
    } else if FLAGS.as_slice().contains(&name) {
        Some(Kind::Flag)
    } else {
        None
    }
}

/// What follows a first hyphen.
fn after_hyphen(word: &str) -> Option<&str>
    ensures { option_map (λ s. s.now) result ≡ spec.after_hyphen word.now }
{
    word.strip_prefix('-')
}

/// What stands before the first `=`, and whether there is one.
fn at_equals(text: &str) -> (&str, bool)
    ensures name { result.0.now ≡ before_first spec.is_equals text.now }
    ensures attached { result.1 ≡ list_any spec.is_equals text.now }
{
    match text.split_once('=') {
        Some((name, _)) => (name, true),
        None => (text, false),
    }
}

/// Whether the value of an option is the next word, where the word has a value attached or not.
fn waits_as(kind: Kind, attached: bool) -> Option<bool>
    ensures { result ≡ shape.waits_as kind attached }
{
    match kind {
        Kind::Valued => Some(!attached),
        Kind::Flag if attached => None,
        Kind::Flag => Some(false),
    }
}

/// The name of the option that the word is, and whether its value is the next word. `None` where the word is no option.
fn option_word(word: &str) -> Option<(&str, bool)>
    ensures { option_map (λ p. (p.0.now, p.1)) result ≡ shape.form_of word.now }
{
    let text = after_hyphen(after_hyphen(word)?)?;
    let (name, attached) = at_equals(text);
    let kind = kind_of(name)?;
    let waits = waits_as(kind, attached)?;
    Some((name, waits))
}

/// Takes one more word. Answers whether the next word is a value, or `None` where the word isn't accepted.
fn take_word<'a>(
    names: &mut Vec<&'a str>,
    waits: bool,
    word: &'a str,
) -> Result<Option<bool>, AllocError>
    ensures { IfOk result (λ next. option_map
        (λ waits. record { names = map (λ s. s.now) names.new.items; waits = waits }) next
        ≡ shape.seen_after (record { names = map (λ s. s.now) names.old.items; waits = waits }) word.now) }
{
    if waits {
        let is_value = after_hyphen(word).is_none();
        return Ok(is_value.then_some(false));
    }
    let Some((name, waits)) = option_word(word) else {
        return Ok(None);
    };
    if is_one_of(names.as_slice(), name) {
        return Ok(None);
    }
    names.push(name)?;
    Ok(Some(waits))
}

/// Whether the name is one of these.
fn is_one_of(names: &[&str], name: &str) -> bool
    ensures { result ≡ spec.is_one_of (map (λ s. s.now) names.now) name.now }
{
    names.contains(&name)
}

/// Whether the words are options, each at most once, and each with a value where it has one.
pub(crate) fn has_shape(alloc: Global, words: &[String]) -> Result<bool, AllocError>
    ensures { IfOk result (λ b. b ≡ shape.has_shape (map (λ w. string_bytes w) words.now)) }
{
    let mut names: Vec<&str> = Vec::new(alloc);
    let mut waits = false;
    for word in words {
        match take_word(&mut names, waits, word.as_str())? {
            Some(next) => waits = next,
            None => return Ok(false),
        }
    }
    Ok(!waits)
}
