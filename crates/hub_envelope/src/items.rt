ghost use Rattle.std.specs.Prelude.{◌≡◌, [], ◌∷◌, ◌++◌, IfErr, OnOk};

use crate::OutOfMemory;
use std::alloc::Global;
use std::marker::Model;

/// Values in order. A contract says which they are, and not how much memory they were given.
///
/// ```rust
/// let mut ends = Items::none(alloc);
/// ends.push(EndId(2))?;
/// ```
#[derive(Debug, Drop)]
pub struct Items<T> {
    items: Vec<T>,
}

impl<T> Model for Items<T> {
    ghost use Rattle.std.specs.Prelude.{List};

    ghost Value = { List T };

    ghost view = { λ i. i.items.items };
}

impl<T> Items<T> {
    /// No value. It takes no memory.
    pub fn none(alloc: Global) -> Items<T>
        ensures { result ≡ [] }
    {
        Items {
            items: Vec::new(alloc),
        }
    }

    /// The values of a list, which stay where they lie.
    pub fn from_vec(items: Vec<T>) -> Items<T>
        ensures { result ≡ items.items }
    {
        Items { items }
    }

    /// The values as a slice.
    pub fn as_slice(&self) -> &[T]
        ensures { result.now ≡ self.now }
    {
        self.items.as_slice()
    }

    /// The values as a list, which stay where they lie.
    pub fn into_list(self) -> Vec<T>
        ensures { result.items ≡ self }
    {
        let Items { items } = self;
        items
    }
}

impl<T: Drop> Items<T> {
    /// Puts a value behind the others. After an error the values are as they were.
    pub fn push(&mut self, item: T) -> Result<(), OutOfMemory>
        ensures ok { OnOk result (self.new ≡ self.old ++ item ∷ []) }
        ensures err { IfErr result (λ e. self.new ≡ self.old) }
    {
        self.items.push(item)?;
        Ok(())
    }
}
