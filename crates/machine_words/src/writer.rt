//! Words that are written after others.

ghost use Rattle.std.specs.Prelude.{◌≡◌, ◌++◌, ◌∷◌, [], map, OnOk};
ghost use Rattle.std.specs.List.{AllByRecursion};
ghost use Rattle.plain_monitor.specs.ValueWords.{IsSpellable, word_of};
ghost use Rattle.machine_words.specs.Readers.{option_word, pair_words};

use plain_monitor::{NoMemory, Value, value_word};

/// One word more.
pub(crate) fn add(out: &mut Vec<u64>, word: u64) -> Result<(), NoMemory>
    ensures { OnOk result (out.new.items ≡ out.old.items ++ word ∷ []) }
{
    out.push(word).map_err(|_| NoMemory)
}

/// The word of a number that may be missing.
pub(crate) fn option_word(number: Option<u32>) -> u64
    ensures { result ≡ option_word number }
{
    match number {
        Some(number) => u64::from(number) + 1,
        None => 0,
    }
}

/// The words of threads with their counts.
pub(crate) fn add_pairs(out: &mut Vec<u64>, pairs: &[(u32, u32)]) -> Result<(), NoMemory>
    ensures { OnOk result (out.new.items ≡ out.old.items ++ pair_words pairs.now) }
{
    for (thread, count) in pairs {
        add(out, u64::from(*thread))?;
        add(out, u64::from(*count))?;
    }
    Ok(())
}

/// The words of values.
pub(crate) fn add_values(out: &mut Vec<u64>, values: &[Value]) -> Result<(), NoMemory>
    requires { AllByRecursion IsSpellable values.now }
    ensures { OnOk result (out.new.items ≡ out.old.items ++ map word_of values.now) }
{
    for value in values {
        add(out, value_word(value))?;
    }
    Ok(())
}

/// Numbers as words.
pub(crate) fn add_numbers(out: &mut Vec<u64>, numbers: &[u32]) -> Result<(), NoMemory>
    ensures { OnOk result (out.new.items ≡ out.old.items ++ numbers.now) }
{
    for number in numbers {
        add(out, u64::from(*number))?;
    }
    Ok(())
}
