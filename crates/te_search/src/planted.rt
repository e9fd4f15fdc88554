// The threads whose events are planted.

ghost use Rattle.std.specs.Prelude.{◌≡◌, ◌++◌, ◌∷◌, [], length, take, false, OnOk, OnErr};
ghost use Rattle.te_search.specs.Plantings.{has_number, IsPlaceOf};

use std::alloc::Global;
use std::marker::Model;
use te_terms::NoMemory;

// A table tells of the threads below this one.
const TABLED: usize = 64;

/// The threads whose events are planted, in the order of planting, none twice. Of a thread below 64 a table tells whether
/// it is one.
#[derive(Drop)]
pub(crate) struct PlantedThreads {
    threads: Vec<u32>,
    table: [bool; 64],
}

impl Model for PlantedThreads {
    ghost use Rattle.std.specs.Prelude.{List, ℕ};
    ghost use Rattle.te_search.specs.Plantings.{IsTabled};

    ghost Value = { List ℕ };

    ghost view = { λ p. p.threads.items };

    ghost invariant = { λ p. IsTabled p.threads.items p.table };
}

/// The first place of a thread.
pub(crate) fn place_of(threads: &[u32], thread: u32) -> Option<usize>
    ensures { IsPlaceOf threads.now thread result }
{
    'threads: for i in 0..threads.len() {
        if threads[i] == thread {
            return Some(i);
        }
    }
    None
}

impl PlantedThreads {
    pub(crate) fn new(alloc: Global) -> PlantedThreads
        ensures { result ≡ [] }
    {
        PlantedThreads {
            threads: Vec::new(alloc),
            table: [false; 64],
        }
    }

    pub(crate) fn len(&self) -> usize
        ensures { result ≡ length self.now }
    {
        self.threads.len()
    }

    pub(crate) fn as_slice(&self) -> &[u32]
        ensures { result.now ≡ self.now }
    {
        self.threads.as_slice()
    }

    /// Whether there is such a thread.
    pub(crate) fn has(&self, thread: u32) -> bool
        ensures { result ≡ has_number self.now thread }
    {
        let at = thread as usize;
        if at < TABLED {
            return self.table[at];
        }
        match place_of(&self.threads, thread) {
            Some(_) => true,
            None => false,
        }
    }

    /// The place of a thread.
    pub(crate) fn place(&self, thread: u32) -> Option<usize>
        ensures { IsPlaceOf self.now thread result }
    {
        if !self.has(thread) {
            return None;
        }
        place_of(&self.threads, thread)
    }

    /// Puts a thread behind the others.
    pub(crate) fn push(&mut self, thread: u32) -> Result<(), NoMemory>
        requires { has_number self.old thread ≡ false }
        ensures ok { OnOk result (self.new ≡ self.old ++ thread ∷ []) }
        ensures err { OnErr result (self.new ≡ self.old) }
    {
        self.threads.push(thread)?;
        let at = thread as usize;
        if at < TABLED {
            self.table[at] = true;
        }
        Ok(())
    }

    /// Goes back to so many threads.
    pub(crate) fn cut(&mut self, count: usize)
        ensures { self.new ≡ take count self.old }
    {
        'back: while self.threads.len() > count {
            if let Some(thread) = self.threads.pop() {
                let at = thread as usize;
                if at < TABLED {
                    self.table[at] = false;
                }
            }
        }
    }
}
