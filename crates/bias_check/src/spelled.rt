//! The words that say what a thread did.

ghost use Rattle.std.specs.Prelude.{◌≡◌};
ghost use Rattle.std.specs.Str.{bytes_eq};
ghost use Rattle.program_syntax.specs.Line.{spelled_among};
ghost use Rattle.bias_check.specs.inner.Spelled.{verbs, acts, faults, paths, verb_text};

use plain_monitor::{Fault, Path};

/// What an entry says that its thread did.
#[derive(Clone, Copy, Debug, PartialEq, Eq)]
pub(crate) enum Verb {
    Enter,
    Exit,
    Wait,
    Resume,
    Get,
    Put,
    Notify,
    NotifyAll,
    Hash,
    New,
    Print,
    Dump,
    Fault,
    Spent,
    Done,
}

/// Whether the word is spelled so.
pub(crate) fn is_word(spelling: &[u8], word: &[u8]) -> bool
    ensures { result ≡ bytes_eq spelling.now word.now }
{
    spelling == word
}

/// The verb that is spelled so. The one that the word's first byte and its length point to is compared first.
#[tactic(auto, using(crate::proofs::Spellings::verb_spelled))]
pub(crate) fn verb_of(word: &[u8]) -> Option<Verb>
    ensures { result ≡ spelled_among verbs word.now }
{
    let verb = likely_verb(word);
    if is_word(spelling_of(verb), word) {
        return Some(verb);
    }
    verb_among(word)
}

/// The verb that a word with this first byte and this length is, if it is one of those that journals mostly have.
fn likely_verb(word: &[u8]) -> Verb {
    let Some(first) = word.first() else {
        return Verb::Done;
    };
    match (*first, word.len()) {
        (b'e', 5) => Verb::Enter,
        (b'e', _) => Verb::Exit,
        (b'w', _) => Verb::Wait,
        (b'r', _) => Verb::Resume,
        (b'g', _) => Verb::Get,
        (b'p', 3) => Verb::Put,
        (b'p', _) => Verb::Print,
        (b'n', 3) => Verb::New,
        (b'n', 6) => Verb::Notify,
        (b'n', _) => Verb::NotifyAll,
        (b'h', _) => Verb::Hash,
        (b'f', _) => Verb::Fault,
        (b's', _) => Verb::Spent,
        _ => Verb::Done,
    }
}

/// How the verb is spelled.
fn spelling_of(verb: Verb) -> &'static [u8]
    ensures { result.now ≡ verb_text verb }
{
    match verb {
        Verb::Enter => b"enter",
        Verb::Exit => b"exit",
        Verb::Wait => b"wait",
        Verb::Resume => b"resume",
        Verb::Get => b"get",
        Verb::Put => b"put",
        Verb::Notify => b"notify",
        Verb::NotifyAll => b"notifyall",
        Verb::Hash => b"hash",
        Verb::New => b"new",
        Verb::Print => b"print",
        Verb::Dump => b"dump",
        Verb::Fault => b"fault",
        Verb::Spent => b"spent",
        Verb::Done => b"done",
    }
}

/// The verb with this spelling, found by comparing one after the other.
fn verb_among(word: &[u8]) -> Option<Verb>
    ensures { result ≡ spelled_among verbs word.now }
{
    if is_word(b"enter", word) {
        Some(Verb::Enter)
    } else if is_word(b"exit", word) {
        Some(Verb::Exit)
    } else if is_word(b"wait", word) {
        Some(Verb::Wait)
    } else if is_word(b"resume", word) {
        Some(Verb::Resume)
    } else if is_word(b"get", word) {
        Some(Verb::Get)
    } else if is_word(b"put", word) {
        Some(Verb::Put)
    } else {
        act_of(word)
    }
}

/// The verb, of those after the first six, that is spelled so.
fn act_of(word: &[u8]) -> Option<Verb>
    ensures { result ≡ spelled_among acts word.now }
{
    if is_word(b"notify", word) {
        Some(Verb::Notify)
    } else if is_word(b"notifyall", word) {
        Some(Verb::NotifyAll)
    } else if is_word(b"hash", word) {
        Some(Verb::Hash)
    } else if is_word(b"new", word) {
        Some(Verb::New)
    } else if is_word(b"print", word) {
        Some(Verb::Print)
    } else if is_word(b"dump", word) {
        Some(Verb::Dump)
    } else if is_word(b"fault", word) {
        Some(Verb::Fault)
    } else if is_word(b"spent", word) {
        Some(Verb::Spent)
    } else if is_word(b"done", word) {
        Some(Verb::Done)
    } else {
        None
    }
}

/// The path that is spelled so.
pub(crate) fn path_of(word: &[u8]) -> Option<Path>
    ensures { result ≡ spelled_among paths word.now }
{
    if is_word(b"bias-own", word) {
        Some(Path::BiasOwn)
    } else if is_word(b"bias-taken", word) {
        Some(Path::BiasTaken)
    } else if is_word(b"stack-first", word) {
        Some(Path::StackFirst)
    } else if is_word(b"stack-again", word) {
        Some(Path::StackAgain)
    } else if is_word(b"monitor-first", word) {
        Some(Path::MonitorFirst)
    } else if is_word(b"monitor-again", word) {
        Some(Path::MonitorAgain)
    } else {
        None
    }
}

/// The fault that is spelled so.
pub(crate) fn fault_of(word: &[u8]) -> Option<Fault>
    ensures { result ≡ spelled_among faults word.now }
{
    if is_word(b"IllegalMonitorState", word) {
        Some(Fault::IllegalMonitorState)
    } else if is_word(b"Unguarded", word) {
        Some(Fault::Unguarded)
    } else if is_word(b"NotRef", word) {
        Some(Fault::NotRef)
    } else if is_word(b"NotInt", word) {
        Some(Fault::NotInt)
    } else if is_word(b"Range", word) {
        Some(Fault::Range)
    } else if is_word(b"Overflow", word) {
        Some(Fault::Overflow)
    } else if is_word(b"TooDeep", word) {
        Some(Fault::TooDeep)
    } else if is_word(b"TooManyDumps", word) {
        Some(Fault::TooManyDumps)
    } else if is_word(b"TooMany", word) {
        Some(Fault::TooMany)
    } else {
        None
    }
}
