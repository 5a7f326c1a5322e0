//! Items with names, in their order, and the first that has a name.

ghost use Rattle.std.specs.Prelude.{◌≡◌, ◌<◌, ◌^◌, ℕ, List, [], ◌∷◌, ◌++◌, length, map, true, false, IfOk};
ghost use Rattle.program_syntax.specs.Reading.{number_among};
ghost use Rattle.object_program.specs.Valid.{is_among};
ghost use Rattle.program_syntax.specs.Directory.{IsPlace};

use object_program::{ClassDef, LabelDef, Name, ObjectDef, ThreadDef};
use plain_monitor::NoMemory;
use std::alloc::Global;
use std::collections::BTreeMap;
use std::marker::Model;

/// What has a name.
pub trait Named {
    ghost name_of: { Self → List ℕ };

    fn name(&self) -> &Name
        ensures { result.now ≡ name_of self.now };
}

impl Named for Name {
    ghost name_of = { λ n. n };

    fn name(&self) -> &Name {
        self
    }
}

impl Named for ClassDef {
    ghost name_of = { λ c. c.name };

    fn name(&self) -> &Name {
        &self.name
    }
}

impl Named for ObjectDef {
    ghost name_of = { λ d. d.name };

    fn name(&self) -> &Name {
        &self.name
    }
}

impl Named for ThreadDef {
    ghost name_of = { λ t. t.name };

    fn name(&self) -> &Name {
        &self.name
    }
}

impl Named for LabelDef {
    ghost name_of = { λ l. l.name };

    fn name(&self) -> &Name {
        &self.name
    }
}

/// Items with names, in their order. Contracts see their list. The first item with a name is found in the time of a look-up in
/// an ordered map.
#[derive(Drop)]
pub struct Directory<T: Named + Drop> {
    items: Vec<T>,
    places: BTreeMap<Name, usize>,
}

impl<T: Named + Drop> Model for Directory<T> {
    ghost use Rattle.std.specs.Prelude.{List, map};

    ghost Value = { List T };

    ghost use Rattle.program_syntax.specs.inner.Places.{ArePlaces};

    ghost view = { λ d. d.items.items };

    ghost invariant = { λ d. ArePlaces (map T.name_of d.items.items) d.places };
}

impl<T: Named + Drop> Directory<T> {
    /// Without items.
    pub fn new(alloc: Global) -> Directory<T>
        ensures { result ≡ [] }
    {
        Directory {
            items: Vec::new(alloc),
            places: BTreeMap::new(alloc),
        }
    }

    /// The items, in their order.
    pub fn items(&self) -> &[T]
        ensures { result.now ≡ self.now }
    {
        self.items.as_slice()
    }

    /// The items alone.
    pub fn into_items(self) -> Vec<T>
        ensures { result.items ≡ self }
    {
        let Directory { items, places: _ } = self;
        items
    }

    /// The number of the first item with this name, from 0.
    pub fn place_of(&self, name: &[u8]) -> Option<usize>
        ensures { IsPlace (map T.name_of self.now) name.now result }
    {
        let places = &self.places;
        match Name::new(name) {
            Some(name) => places.get(&name).copied(),
            None => None,
        }
    }

    /// How many items stand before the first with this name; all, where none has it.
    pub fn number_of(&self, name: &[u8]) -> u32
        requires { length self.now < 2 ^ 32 }
        ensures { result ≡ number_among (map T.name_of self.now) name.now }
    {
        match self.place_of(name) {
            Some(place) => place as u32,
            None => self.items.len() as u32,
        }
    }

    /// With one more item at the end.
    ///
    /// # Errors
    ///
    /// `NoMemory` where an allocation fails.
    pub fn with(self, item: T) -> Result<Directory<T>, NoMemory>
        ensures { IfOk result (λ d. d ≡ self ++ item ∷ []) }
    {
        let name = *item.name();
        match self.place_of(name.bytes()) {
            Some(_) => self.with_again(name, item),
            None => self.with_new(name, item),
        }
    }

    /// With an item whose name stands among the items already.
    fn with_again(mut self, name: Name, item: T) -> Result<Directory<T>, NoMemory>
        requires name { name ≡ T.name_of item }
        requires there { is_among (map T.name_of self) name ≡ true }
        ensures { IfOk result (λ d. d ≡ self ++ item ∷ []) }
    {
        let _ = name.bytes();
        match self.items.push(item) {
            Ok(()) => Ok(self),
            Err(_) => Err(NoMemory),
        }
    }

    /// With an item whose name is new.
    fn with_new(mut self, name: Name, item: T) -> Result<Directory<T>, NoMemory>
        requires name { name ≡ T.name_of item }
        requires new { is_among (map T.name_of self) name ≡ false }
        ensures { IfOk result (λ d. d ≡ self ++ item ∷ []) }
    {
        let _ = name.bytes();
        let place = self.items.len();
        match self.places.insert(name, place) {
            Ok(_) => {}
            Err(_) => return Err(NoMemory),
        }
        match self.items.push(item) {
            Ok(()) => Ok(self),
            Err(_) => Err(NoMemory),
        }
    }
}
