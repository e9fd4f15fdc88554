ghost use Rattle.std.specs.Prelude.{◌≡◌, [], ◌∷◌, length, OnOk};
ghost use Rattle.te_reader.specs.Finding.{PopsTop, IsOnTop, set_top};

use std::alloc::Global;
use std::marker::Model;
use te_terms::NoMemory;

/// A stack of items, seen as the list of them, the top first.
#[derive(Drop)]
pub struct Stack<T> {
    items: Vec<T>,
}

impl<T> Model for Stack<T> {
    ghost use Rattle.std.specs.Prelude.{List, reverse};

    ghost Value = { List T };

    ghost view = { λ s. reverse s.items.items };
}

impl<T: Drop> Stack<T> {
    /// No item. It takes no memory.
    pub fn new(alloc: Global) -> Stack<T>
        ensures { result ≡ [] }
    {
        Stack {
            items: Vec::new(alloc),
        }
    }

    /// The number of items.
    pub fn len(&self) -> usize
        ensures { result ≡ length self.now }
    {
        self.items.len()
    }

    /// Takes all items away.
    pub fn clear(&mut self)
        ensures { self.new ≡ [] }
    {
        self.items.clear();
    }

    /// Takes the top off.
    pub fn pop(&mut self) -> Option<T>
        ensures { PopsTop result self.old self.new }
    {
        self.items.pop()
    }
}

impl<T: Copy> Stack<T> {
    /// The top.
    pub fn top(&self) -> Option<T>
        ensures { IsOnTop result self.now }
    {
        self.items.last().copied()
    }
}

impl<T: Drop> Stack<T> {
    /// Puts an item on top.
    pub fn push(&mut self, item: T) -> Result<(), NoMemory>
        ensures { OnOk result (self.new ≡ item ∷ self.old) }
    {
        self.items.push(item)?;
        Ok(())
    }
}
