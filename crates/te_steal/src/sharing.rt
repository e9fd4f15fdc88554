// The owner of a relay, and its thieves.

ghost use Rattle.std.specs.Prelude.{◌≡◌, ℕ, ◌+◌, ◌<◌, ◌≤◌, true, [], ◌∷◌, ◌++◌, length, All, IfOk, MatchOption};
ghost use Rattle.te_steal.specs.Relays.{IsSize, IsThiefOf, IsSameOwner, IsSameThief, IsInOrderOf};

use crate::rule::{Account, Pushed, Sharing, Thieves, Took};
use crossbeam_deque::{Pass, Steal, Stealer, Worker};
use std::alloc::Global;
use std::marker::Model;
use te_terms::{NoMemory, Rows};

/// Who pushes the numbers of a relay, and takes of them too. It is seen as its relay, how many numbers it may push and how
/// many thieves it has, and the lists of what it has pushed and of what it took. This is the project's own.
#[derive(Drop)]
pub struct Owner {
    pub(crate) worker: Worker<u32, Global, Account, Sharing>,
    pub(crate) most: u32,
    pub(crate) pushed: u32,
}

impl Model for Owner {
    ghost use Rattle.te_steal.specs.Relays.{OwnerOf};
    ghost use Rattle.te_steal.specs.Owners.{owner_of, IsOwnerAt};

    ghost Value = { OwnerOf };

    ghost view = { λ o. owner_of o.worker o.most };

    ghost invariant = { λ o. IsOwnerAt o.worker o.most o.pushed };
}

/// Who takes numbers of a relay in its owner's place. It is seen as its relay and the list of what it took. This is the
/// project's own.
#[derive(Drop)]
pub struct Thief {
    pub(crate) stealer: Stealer<u32, Global, Account, Sharing>,
    pub(crate) pass: Pass<u32, Account>,
    pub(crate) most: u32,
}

impl Model for Thief {
    ghost use Rattle.te_steal.specs.Relays.{ThiefOf};
    ghost use Rattle.te_steal.specs.Owners.{thief_of, IsThiefAt};

    ghost Value = { ThiefOf };

    ghost view = { λ t. thief_of t.stealer t.pass };

    ghost invariant = { λ t. IsThiefAt t.stealer t.pass };
}

/// An owner with its thieves: nothing is pushed or taken.
///
/// Conditions: the owner may push 1 to 64 numbers, and has 1 to 7 thieves. The one refusal is want of memory.
pub fn relay(alloc: Global, most: u32, thieves: u32) -> Result<(Owner, Rows<Thief>), NoMemory>
    requires { IsSize most thieves }
    ensures most { IfOk result (λ r. r.0.most ≡ most) }
    ensures owner { IfOk result (λ r. (r.0.pushed ≡ []) × (r.0.took ≡ [])) }
    ensures count { IfOk result (λ r. (r.0.thieves ≡ thieves) × (length r.1 ≡ thieves)) }
    ensures thieves { IfOk result (λ r. All (λ t. IsThiefOf r.0 t × (t.took ≡ [])) r.1) }
{
    let mut worker: Worker<u32, Global, Account, Sharing> = Worker::fifo_as(alloc, most as usize)?;
    let mut made = Vec::new(alloc);
    'thieves: for _ in 0..thieves {
        let stealer = worker.stealer()?;
        let pass = worker.another::<Thieves>();
        made.push(Thief {
            stealer,
            pass,
            most,
        })?;
    }
    let owner = Owner {
        worker,
        most,
        pushed: 0,
    };
    Ok((owner, Rows::from(made)))
}

impl Owner {
    /// Pushes a number behind those that were pushed. It takes no memory. Condition: fewer numbers were pushed than the
    /// relay takes.
    pub fn push(&mut self, n: u32)
        requires { length self.old.pushed < self.old.most }
        ensures same { IsSameOwner self.old self.new }
        ensures pushed { self.new.pushed ≡ self.old.pushed ++ n ∷ [] }
        ensures took { self.new.took ≡ self.old.took }
    {
        match self.worker.push_as::<Pushed>(n) {
            Ok(()) => self.pushed += 1,
            Err(_) => unreachable!(),
        }
    }

    /// Takes the first number that is left. `None` is the deque's answer that at one moment of the call every number that
    /// was pushed was taken; no clause says so.
    pub fn pop(&mut self) -> Option<u32>
        ensures same { IsSameOwner self.old self.new }
        ensures pushed { self.new.pushed ≡ self.old.pushed }
        ensures took { MatchOption result (self.new.took ≡ self.old.took) (λ n. self.new.took ≡ self.old.took ++ n ∷ []) }
        ensures order { IsInOrderOf self.new.took self.new.pushed }
    {
        self.worker.pop_as::<Took>()
    }
}

impl Thief {
    /// Takes the first number that is left. `None` is the deque's answer that at one moment of the call no number was left;
    /// no clause says so. Where the deque answers that another number was taken meanwhile, the call tries again, as often
    /// as numbers may be pushed in all, and then answers `None`.
    pub fn steal(&mut self) -> Option<u32>
        ensures same { IsSameThief self.old self.new }
        ensures took { MatchOption result (self.new.took ≡ self.old.took) (λ n. self.new.took ≡ self.old.took ++ n ∷ []) }
    {
        'tries: for _ in 0..self.most {
            match self.stealer.steal_as::<Took>(&mut self.pass) {
                Steal::Success(n) => return Some(n),
                Steal::Empty => return None,
                Steal::Retry => {}
            }
        }
        None
    }
}
