//! What a line tells.

ghost use Rattle.std.specs.Prelude.{◌≡◌, ◌<◌, length, option_copied, IfSome};
ghost use Rattle.bias_check.specs.inner.Words.{words_after};
ghost use Rattle.bias_check.specs.inner.Table.{value_in, woken_in, none_told, one_told, two_told, three_told, four_told, told, read_line, sure, print_read, notify_read, get_read, put_read};

use crate::lines::{ended, next_word};
use crate::names::{Names, count_in, int_in, stamp_in};
use crate::spelled::{Verb, fault_of, is_word, path_of, verb_of};
use plain_monitor::{Entry, Value};

/// What a word tells in the place of a value. Where an object is named `nil`, that word has a second reading, this object.
#[derive(Clone, Copy)]
pub(crate) struct ValueRead {
    pub(crate) plain: Value,
    pub(crate) other: Option<u32>,
}

/// What a word tells in the place of a woken thread. Where a thread is named `none`, that word has a second reading, this thread.
#[derive(Clone, Copy)]
pub(crate) struct WokenRead {
    pub(crate) plain: Option<u32>,
    pub(crate) other: Option<u32>,
}

/// What the words of a line tell after the thread: an entry, and a second one where a word has two readings.
#[derive(Clone, Copy)]
pub(crate) struct EntryRead {
    pub(crate) plain: Entry,
    pub(crate) other: Option<Entry>,
}

/// What a line tells.
#[derive(Clone, Copy)]
pub(crate) struct LineRead {
    pub(crate) stamp: u64,
    pub(crate) thread: u32,
    pub(crate) entry: EntryRead,
}

/// The only reading.
fn sure(plain: Entry) -> EntryRead
    ensures { result ≡ sure plain }
{
    EntryRead { plain, other: None }
}

/// A print of a value.
fn print_read(value: ValueRead) -> EntryRead
    ensures { result ≡ print_read value }
{
    let other = match value.other {
        None => None,
        Some(o) => Some(Entry::Print {
            value: Value::Ref(o),
        }),
    };
    EntryRead {
        plain: Entry::Print { value: value.plain },
        other,
    }
}

/// A notify of an object.
fn notify_read(object: u32, woken: WokenRead) -> EntryRead
    ensures { result ≡ notify_read object woken }
{
    let other = match woken.other {
        None => None,
        Some(t) => Some(Entry::Notify {
            object,
            woken: Some(t),
        }),
    };
    EntryRead {
        plain: Entry::Notify {
            object,
            woken: woken.plain,
        },
        other,
    }
}

/// A read of a slot.
fn get_read(object: u32, slot: u32, value: ValueRead) -> EntryRead
    ensures { result ≡ get_read object slot value }
{
    let other = match value.other {
        None => None,
        Some(o) => Some(Entry::Get {
            object,
            slot,
            value: Value::Ref(o),
        }),
    };
    EntryRead {
        plain: Entry::Get {
            object,
            slot,
            value: value.plain,
        },
        other,
    }
}

/// A write of a slot.
fn put_read(object: u32, slot: u32, value: ValueRead) -> EntryRead
    ensures { result ≡ put_read object slot value }
{
    let other = match value.other {
        None => None,
        Some(o) => Some(Entry::Put {
            object,
            slot,
            value: Value::Ref(o),
        }),
    };
    EntryRead {
        plain: Entry::Put {
            object,
            slot,
            value: value.plain,
        },
        other,
    }
}

/// What a verb alone tells.
fn none_told(verb: Verb) -> Option<EntryRead>
    ensures { result ≡ none_told verb }
{
    match verb {
        Verb::Spent => Some(sure(Entry::Spent)),
        Verb::Done => Some(sure(Entry::Done)),
        _ => None,
    }
}

impl Names {
    /// What the word tells in the place of a value.
    fn value(&self, word: &[u8]) -> Option<ValueRead>
        ensures { result ≡ value_in self.now word.now }
    {
        if is_word(b"nil", word) {
            let plain = Value::Nil;
            let other = self.object(word);
            return Some(ValueRead { plain, other });
        }
        if let Some(number) = int_in(word, Value::LEAST, Value::GREATEST) {
            let plain = Value::Int(number);
            return Some(ValueRead { plain, other: None });
        }
        let plain = Value::Ref(self.object(word)?);
        Some(ValueRead { plain, other: None })
    }

    /// What the word tells in the place of a woken thread.
    fn woken(&self, word: &[u8]) -> Option<WokenRead>
        ensures { result ≡ woken_in self.now word.now }
    {
        if is_word(b"none", word) {
            let other = self.thread(word);
            return Some(WokenRead { plain: None, other });
        }
        let plain = Some(self.thread(word)?);
        Some(WokenRead { plain, other: None })
    }

    /// What a verb with one word tells.
    fn one_told(&self, verb: Verb, a: &[u8]) -> Option<EntryRead>
        ensures { result ≡ one_told self.now verb a.now }
    {
        match verb {
            Verb::Exit => {
                let object = self.object(a)?;
                Some(sure(Entry::Exit { object }))
            }
            Verb::Wait => {
                let object = self.object(a)?;
                Some(sure(Entry::Wait { object }))
            }
            Verb::Resume => {
                let object = self.object(a)?;
                Some(sure(Entry::Resume { object }))
            }
            Verb::Print => {
                let value = self.value(a)?;
                Some(print_read(value))
            }
            Verb::Dump => {
                let number = count_in(a)?;
                Some(sure(Entry::Dump { number }))
            }
            _ => None,
        }
    }

    /// What a verb with two words tells.
    fn two_told(&self, verb: Verb, a: &[u8], b: &[u8]) -> Option<EntryRead>
        ensures { result ≡ two_told self.now verb a.now b.now }
    {
        match verb {
            Verb::Enter => {
                let object = self.object(a)?;
                let path = path_of(b)?;
                Some(sure(Entry::Enter { object, path }))
            }
            Verb::Notify => {
                let object = self.object(a)?;
                let woken = self.woken(b)?;
                Some(notify_read(object, woken))
            }
            Verb::NotifyAll => {
                let object = self.object(a)?;
                let woken = count_in(b)?;
                Some(sure(Entry::NotifyAll { object, woken }))
            }
            Verb::Hash => {
                let object = self.object(a)?;
                let value = count_in(b)?;
                let drawn = None;
                Some(sure(Entry::Hash {
                    object,
                    value,
                    drawn,
                }))
            }
            Verb::New => {
                let object = self.object(a)?;
                let class = self.class(b)?;
                Some(sure(Entry::New { object, class }))
            }
            _ => None,
        }
    }

    /// What a verb with three words tells.
    fn three_told(&self, verb: Verb, a: &[u8], b: &[u8], c: &[u8]) -> Option<EntryRead>
        ensures { result ≡ three_told self.now verb a.now b.now c.now }
    {
        match verb {
            Verb::Get => {
                let object = self.object(a)?;
                let slot = count_in(b)?;
                let value = self.value(c)?;
                Some(get_read(object, slot, value))
            }
            Verb::Put => {
                let object = self.object(a)?;
                let slot = count_in(b)?;
                let value = self.value(c)?;
                Some(put_read(object, slot, value))
            }
            Verb::Fault => {
                if !is_word(b"at", b) {
                    return None;
                }
                let fault = fault_of(a)?;
                let index = count_in(c)?;
                Some(sure(Entry::Trap { fault, index }))
            }
            _ => None,
        }
    }

    /// What a verb with four words tells.
    fn four_told(&self, verb: Verb, a: &[u8], b: &[u8], c: &[u8], d: &[u8]) -> Option<EntryRead>
        ensures { result ≡ four_told self.now verb a.now b.now c.now d.now }
    {
        match verb {
            Verb::Hash => {
                if !is_word(b"draw", c) {
                    return None;
                }
                let object = self.object(a)?;
                let value = count_in(b)?;
                let drawn = Some(count_in(d)?);
                Some(sure(Entry::Hash {
                    object,
                    value,
                    drawn,
                }))
            }
            _ => None,
        }
    }

    /// What a verb tells with the words that are left of its line.
    fn told(&self, verb: Verb, rest: Option<&[u8]>) -> Option<EntryRead>
        ensures { result ≡ told self.now verb (words_after (option_copied rest.entry)) }
    {
        let Some((a, rest)) = next_word(rest) else {
            return none_told(verb);
        };
        let Some((b, rest)) = next_word(rest) else {
            return self.one_told(verb, a);
        };
        let Some((c, rest)) = next_word(rest) else {
            return self.two_told(verb, a, b);
        };
        let Some((d, rest)) = next_word(rest) else {
            return self.three_told(verb, a, b, c);
        };
        match next_word(rest) {
            None => self.four_told(verb, a, b, c, d),
            Some(_) => None,
        }
    }

    /// What the line tells; `None` where it is the line of no entry.
    pub(crate) fn read_line(&self, line: &[u8]) -> Option<LineRead>
        ensures line { result ≡ read_line self.now line.now }
        ensures thread { IfSome result (λ read. read.thread < length self.now.threads) }
    {
        let text = ended(line)?;
        let (first, rest) = next_word(Some(text))?;
        let stamp = stamp_in(first)?;
        let (second, rest) = next_word(rest)?;
        let thread = self.thread(second)?;
        let (third, rest) = next_word(rest)?;
        let verb = verb_of(third)?;
        let entry = self.told(verb, rest)?;
        Some(LineRead {
            stamp,
            thread,
            entry,
        })
    }
}
