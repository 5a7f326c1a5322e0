//! The names of a program, and the words that stand for numbers and names.

ghost use Rattle.std.specs.Prelude.{◌≡◌, ◌<◌, ◌==◌, map, length, position, IfOk, IfSome, MatchOption, Some, None};
ghost use Rattle.std.specs.Fmt.{signed_decimal};
ghost use Rattle.std.specs.Str.{bytes_eq};
ghost use Rattle.plain_monitor.specs.Limits.{most_threads};
ghost use Rattle.program_syntax.specs.Number.{number_of};
ghost use Rattle.bias_check.specs.inner.Table.{names_of, place_in, thread_in, class_in, declared_in, element_in, undotted_in, made_in, object_in, int_in, count_below, count_in, stamp_in, unbracketed};
ghost use Rattle.bias_check.specs.inner.Printed.{is_printed};

use crate::finder::Finder;
use object_program::{Name, ObjectDef, Program};
use plain_monitor::NoMemory;
use plain_monitor::limits::{CLASSES, MADE, THREADS};
use program_syntax::{Directory, number_within};
use std::alloc::Global;

/// The greatest stamp is below this.
const STAMP_LIMIT: i64 = 1 << 46;
/// The most threads that a program has.
const MOST_THREADS: usize = THREADS as usize;
/// The most classes that a program has.
const MOST_CLASSES: usize = CLASSES as usize;

/// The names of a program's threads and classes, its declarations of objects, and how many objects these stand for.
#[derive(Drop)]
pub(crate) struct Names {
    pub(crate) threads: Finder<Name>,
    pub(crate) objects: Finder<ObjectDef>,
    pub(crate) classes: Finder<Name>,
    pub(crate) total: u32,
}

impl Names {
    /// The names of this program.
    pub(crate) fn new(alloc: Global, program: &Program) -> Result<Names, NoMemory>
        ensures { IfOk result (λ names. names ≡ names_of program.now) }
    {
        let threads = Finder::new(alloc, thread_names(alloc, program)?)?;
        let objects = Finder::new(alloc, object_names(alloc, program)?)?;
        let classes = Finder::new(alloc, class_names(alloc, program)?)?;
        Ok(Names {
            threads,
            objects,
            classes,
            total: program.declared_total(),
        })
    }

    /// The number of the thread with this name.
    pub(crate) fn thread(&self, word: &[u8]) -> Option<u32>
        ensures thread { result ≡ thread_in self.now word.now }
        ensures within { IfSome result (λ t. t < length self.now.threads) }
        ensures few { IfSome result (λ t. t < most_threads) }
    {
        let place = self.threads.place_of(word)?;
        if place < MOST_THREADS {
            Some(place as u32)
        } else {
            None
        }
    }

    /// The number of the class with this name.
    pub(crate) fn class(&self, word: &[u8]) -> Option<u32>
        ensures { result ≡ class_in self.now word.now }
    {
        let place = self.classes.place_of(word)?;
        if place < MOST_CLASSES {
            Some(place as u32)
        } else {
            None
        }
    }

    /// The declaration of objects with this name.
    fn declared(&self, name: &[u8]) -> Option<ObjectDef>
        ensures { result ≡ declared_in self.now name.now }
    {
        let place = self.objects.place_of(name)?;
        self.objects.items().get(place).copied()
    }

    /// The number of the object that the word names: `NAME` or `NAME[i]` of a declared one, and `THREAD.k` of one that a thread makes.
    pub(crate) fn object(&self, word: &[u8]) -> Option<u32>
        ensures { result ≡ object_in self.now word.now }
    {
        match dot(word) {
            None => self.undotted(word),
            Some(end) => self.made(&word[..end], &word[end + 1..]),
        }
    }

    /// The k-th object, from 0, that the thread with this name makes.
    fn made(&self, name: &[u8], digits: &[u8]) -> Option<u32>
        ensures { result ≡ made_in self.now name.now digits.now }
    {
        let thread = self.thread(name)?;
        let place = count_below(digits, MADE)?;
        self.total.checked_add(MADE * thread + place)
    }

    /// The number of the declared object that the word names: `NAME`, or `NAME[i]` for an element of an array.
    fn undotted(&self, word: &[u8]) -> Option<u32>
        ensures { result ≡ undotted_in self.now word.now }
    {
        match bracket(word) {
            None => self.single(word),
            Some(end) => self.element(&word[..end], &word[end + 1..]),
        }
    }

    /// The object of a declaration that is no array.
    fn single(&self, name: &[u8]) -> Option<u32>
        ensures { result ≡ element_in self.now name.now None }
    {
        let declared = self.declared(name)?;
        if declared.array {
            return None;
        }
        Some(declared.first)
    }

    /// An element of the array with this name, whose number and closing bracket are given.
    fn element(&self, name: &[u8], index: &[u8]) -> Option<u32>
        ensures { result ≡ element_in self.now name.now (Some index.now) }
    {
        let declared = self.declared(name)?;
        if !declared.array {
            return None;
        }
        let digits = unbracketed(index)?;
        let index = count_below(digits, declared.size)?;
        declared.first.checked_add(index)
    }
}

/// The names of the program's threads.
fn thread_names(alloc: Global, program: &Program) -> Result<Directory<Name>, NoMemory>
    ensures { IfOk result (λ names. names ≡ map (λ t. t.name) program.now.threads) }
{
    let mut names = Directory::new(alloc);
    for thread in program.threads.items() {
        names = names.with(thread.name)?;
    }
    Ok(names)
}

/// The names of the program's classes.
fn class_names(alloc: Global, program: &Program) -> Result<Directory<Name>, NoMemory>
    ensures { IfOk result (λ names. names ≡ map (λ c. c.name) program.now.classes) }
{
    let mut names = Directory::new(alloc);
    for class in program.classes.items() {
        names = names.with(class.name)?;
    }
    Ok(names)
}

/// The program's declarations of objects.
fn object_names(alloc: Global, program: &Program) -> Result<Directory<ObjectDef>, NoMemory>
    ensures { IfOk result (λ objects. objects ≡ program.now.objects) }
{
    let mut objects = Directory::new(alloc);
    for object in program.objects.items() {
        objects = objects.with(*object)?;
    }
    Ok(objects)
}

/// Where the first dot stands.
fn dot(word: &[u8]) -> Option<usize>
    ensures { result ≡ position (λ b. b == 46) word.now }
{
    word.iter().position(|b| *b == b'.')
}

/// Where the opening bracket stands.
fn bracket(word: &[u8]) -> Option<usize>
    ensures { result ≡ position (λ b. b == 91) word.now }
{
    word.iter().position(|b| *b == b'[')
}

/// What stands before the closing bracket at the end.
fn unbracketed(index: &[u8]) -> Option<&[u8]>
    ensures { MatchOption result (unbracketed index.now ≡ None) (λ digits. unbracketed index.now ≡ Some digits.now) }
{
    let Some((last, front)) = index.split_last() else {
        return None;
    };
    if *last == b']' { Some(front) } else { None }
}

/// The number from `low` to `high` that the word is, written as numbers are printed.
pub(crate) fn int_in(word: &[u8], low: i64, high: i64) -> Option<i64>
    ensures { result ≡ int_in low high word.now }
{
    let number = number_within(word, low, high)?;
    if is_as_printed(word, number) {
        Some(number)
    } else {
        None
    }
}

/// Whether the word, which is this number, is written as numbers are printed.
fn is_as_printed(word: &[u8], number: i64) -> bool
    requires { number_of word.now ≡ Some number }
    ensures { result ≡ bytes_eq (signed_decimal number) word.now }
{
    is_printed(word)
}

/// Whether no zero leads in a word that is a number, and `0` has no sign.
fn is_printed(word: &[u8]) -> bool
    ensures { result ≡ is_printed word.now }
{
    let Some((first, rest)) = word.split_first() else {
        return true;
    };
    let Some((second, _)) = rest.split_first() else {
        return true;
    };
    *first != b'0' && (*first != b'-' || *second != b'0')
}

/// The number below the limit that the word is.
fn count_below(word: &[u8], limit: u32) -> Option<u32>
    ensures count { result ≡ count_below limit word.now }
    ensures below { IfSome result (λ n. n < limit) }
{
    let number = count_in(word)?;
    if number < limit { Some(number) } else { None }
}

/// The number below 2^32 that the word is.
pub(crate) fn count_in(word: &[u8]) -> Option<u32>
    ensures { result ≡ count_in word.now }
{
    let number = int_in(word, 0, i64::from(u32::MAX))?;
    Some(number as u32)
}

/// The stamp that the word is: `@`, and a number from 0 to 2^46 - 1.
pub(crate) fn stamp_in(word: &[u8]) -> Option<u64>
    ensures { result ≡ stamp_in word.now }
{
    let Some((first, digits)) = word.split_first() else {
        return None;
    };
    if *first != b'@' {
        return None;
    }
    let number = int_in(digits, 0, STAMP_LIMIT - 1)?;
    Some(number as u64)
}
