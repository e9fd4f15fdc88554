ghost use Rattle.std.specs.Prelude.{◌≡◌, ◌≤◌, ◌<◌, ◌↔◌, ℕ, List, [], ◌∷◌, ◌++◌, length, take, nat_eq, IfOk, OnOk, OnErr, IsTrue};
ghost use Rattle.std.specs.List.{Contains, IsDistinct};
ghost use Rattle.std.specs.List.Sorted.{IsStrictlyIncreasing};
ghost use Rattle.te_pair.specs.Ends.{IsAtEnd, AreEnds, paths_at, PathIsKept, IsAdded, IsPartner};

use crate::end::{End, end_of};
use crate::places::Places;
use std::alloc::Global;
use std::marker::Model;
use te_terms::{NoMemory, Rows};
use te_trail::TrailStore;

/// Paths that are kept while they wait at a send or a receive. They are seen as the list of the kept paths, in the
/// order of adding, each with its channel and direction; none is kept twice. What waits for what is that of Donnelly
/// and Fluet, Transactional Events, JFP 18(5-6), 2008; kept paths are this project's own.
#[derive(Drop)]
pub struct Waiting {
    kept: Vec<End>,
    places: Places,
}

impl Model for Waiting {
    ghost use Rattle.std.specs.Prelude.{List};
    ghost use Rattle.te_pair.specs.declared.end.End.{End};
    ghost use Rattle.te_pair.specs.Places.{IsPlaced};

    ghost Value = { List End };

    ghost view = { λ w. w.kept.items };

    ghost invariant = { λ w. IsPlaced w.kept.items w.places };
}

impl Waiting {
    /// Keeps nothing yet. It takes no memory.
    pub fn new(alloc: Global) -> Waiting
        ensures { result ≡ [] }
    {
        Waiting {
            kept: Vec::new(alloc),
            places: Places::new(alloc),
        }
    }

    /// Keeps path `p` of the store. Conditions: it stands at Send or Recv and isn't kept, and each kept path is one
    /// of the store and stands so in it. After a refusal, for want of memory, the same paths are kept as before.
    pub fn add(&mut self, store: &TrailStore, p: u32) -> Result<(), NoMemory>
        requires path { p < length store.now.paths }
        requires stands { IsAtEnd store.now p }
        requires fresh { ¬ PathIsKept self.old p }
        requires ends { AreEnds store.now self.old }
        ensures ok { OnOk result (IsAdded store.now self.old p self.new) }
        ensures err { OnErr result (self.new ≡ self.old) }
        ensures ends { AreEnds store.now self.new }
    {
        self.keep(end_of(store, p))
    }

    /// The kept paths of the other direction on the channel at which path `p` stands, as far as they agree with it,
    /// in rising order. Conditions: `p` stands at Send or Recv, and each kept path is one of the store and stands so
    /// in it. The one refusal is want of memory.
    pub fn partners(&self, alloc: Global, store: &TrailStore, p: u32) -> Result<Rows<u32>, NoMemory>
        requires path { p < length store.now.paths }
        requires stands { IsAtEnd store.now p }
        requires ends { AreEnds store.now self.now }
        ensures rising { IfOk result IsStrictlyIncreasing }
        ensures exact { IfOk result (λ found. (q : ℕ) → Contains found q ↔ IsPartner store.now self.now p q) }
    {
        let own = end_of(store, p);
        let ends = self.ends(own.channel, !own.sends);
        let mut found = Vec::new(alloc);
        'ends: for i in 0..ends.len() {
            let q = ends[i];
            if store.agree(p, q) {
                found.push(q)?;
            }
        }
        found.sort_unstable();
        Ok(Rows::from(found))
    }

    /// The kept paths of a channel that send, or else those that receive, in the order of adding, none twice. It is
    /// public for the crates above alone.
    #[doc(hidden)]
    pub fn ends(&self, channel: u32, sends: bool) -> &[u32]
        ensures there { result.now ≡ paths_at channel sends self.now }
        ensures once { IsDistinct nat_eq result.now }
    {
        self.places.at(channel, sends)
    }

    /// Whether path `p` is kept. It looks at every kept path, and is public for tests of the crates above alone.
    #[doc(hidden)]
    pub fn keeps(&self, p: u32) -> bool
        ensures { IsTrue result ↔ PathIsKept self.now p }
    {
        'kept: for i in 0..self.kept.len() {
            if self.kept[i].path == p {
                return true;
            }
        }
        false
    }

    /// A mark of what is kept: how many paths. It is public for the crates above alone.
    #[doc(hidden)]
    pub fn mark(&self) -> usize
        ensures { result ≡ length self.now }
    {
        self.kept.len()
    }

    /// Goes back to a mark: the paths that were added since go away. It is public for the crates above alone.
    #[doc(hidden)]
    pub fn cut(&mut self, mark: usize)
        ensures { self.new ≡ take mark self.old }
    {
        'back: while self.kept.len() > mark {
            if let Some(end) = self.kept.pop() {
                self.places.drop_last(end);
            }
        }
    }

    /// Keeps a path that isn't kept, as one that stands at a send, or else at a receive, on a channel. After a refusal,
    /// for want of memory, the same paths are kept as before. It is public for the crates above alone, which know already
    /// where the path stands.
    #[doc(hidden)]
    pub fn keep_at(&mut self, path: u32, channel: u32, sends: bool) -> Result<(), NoMemory>
        requires { ¬ PathIsKept self.old path }
        ensures ok { OnOk result (self.new ≡ self.old ++ record { path = path; channel = channel; sends = sends } ∷ []) }
        ensures err { OnErr result (self.new ≡ self.old) }
    {
        self.keep(End {
            path,
            channel,
            sends,
        })
    }

    // Keeps an end.
    fn keep(&mut self, end: End) -> Result<(), NoMemory>
        requires { ¬ PathIsKept self.old end.path }
        ensures ok { OnOk result (self.new ≡ self.old ++ end ∷ []) }
        ensures err { OnErr result (self.new ≡ self.old) }
    {
        self.kept.reserve(1)?;
        self.places.add(end)?;
        self.kept.push_reserved(end);
        Ok(())
    }
}
