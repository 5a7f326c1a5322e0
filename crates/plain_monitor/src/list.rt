//! The list of the public types.

ghost use Rattle.std.specs.Prelude.{◌≡◌};

use std::marker::Model;

/// A list that contracts see as a list. It is made from a `Vec` and gives it back, and neither takes memory.
#[derive(Drop)]
pub struct List<A> {
    items: Vec<A>,
}

impl<A> Model for List<A> {
    ghost use Rattle.std.specs.Prelude.{List};

    ghost Value = { List A };

    ghost view = { λ a. a.items.items };
}

impl<A> List<A> {
    /// The list of these items, in their order.
    pub fn of(items: Vec<A>) -> List<A>
        ensures { result ≡ items.items }
    {
        List { items }
    }

    /// The items, in their order.
    pub fn into_vec(self) -> Vec<A>
        ensures { result.items ≡ self }
    {
        self.items
    }

    /// A look at the items, in their order.
    pub fn items(&self) -> &[A]
        ensures { result.now ≡ self.now }
    {
        self.items.as_slice()
    }
}
