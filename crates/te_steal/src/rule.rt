// What each party of a relay knows, and how it changes. No public clause cites this module.

ghost use Rattle.std.specs.Prelude.{◌≡◌, true, []};

use crossbeam_deque::protocol::{Join, Outcome, Protocol, Split};
use std::collections::LinkedList;

/// What one party knows. No value of it is made.
pub struct Account {
    /// The owner knows all that was pushed.
    pub owns: bool,
    /// A thief that the owner hasn't absorbed.
    pub steals: bool,
    pub pushed: LinkedList<u32>,
    pub took: LinkedList<u32>,
    /// What each thief took that the owner has absorbed.
    pub absorbed: LinkedList<LinkedList<u32>>,
    /// How many thieves aren't absorbed.
    pub thieves: u64,
}

/// The rule of a relay.
pub struct Sharing;

impl Protocol<u32, Account> for Sharing {
    ghost use Rattle.te_steal.specs.Accounts.{first_owner, nobody};
    ghost use Rattle.te_steal.specs.Rule.{IsShared};

    ghost holds = { IsShared };

    ghost first = { first_owner };

    ghost guest = { nobody };
}

/// The owner makes a thief, and absorbs one.
pub struct Thieves;

impl Split<Account> for Thieves {
    ghost use Rattle.te_steal.specs.Accounts.{with_thief, thief_with};

    ghost left = { with_thief };

    ghost right = { λ _. thief_with [] };
}

impl Join<Account> for Thieves {
    ghost use Rattle.te_steal.specs.Accounts.{absorbing, nobody};

    ghost both = { absorbing };

    ghost spent = { nobody };
}

/// Numbers were pushed.
pub struct Pushed;

impl Outcome<u32, Account> for Pushed {
    ghost use Rattle.te_steal.specs.Accounts.{pushing};

    ghost then = { λ v ns w. w ≡ pushing v ns };
}

/// Numbers were taken, or an owner of no thieves has found that none is left.
pub struct Took;

impl Outcome<u32, Account> for Took {
    ghost use Rattle.te_steal.specs.Relays.{IsInOrderOf};
    ghost use Rattle.te_steal.specs.Accounts.{taking, AreAllTaken};

    ghost then = { λ v ns w. (w ≡ taking v ns) × (v.owns ≡ true → IsInOrderOf w.took w.pushed) };

    ghost empty = { λ v. v.owns ≡ true → v.thieves ≡ 0 → AreAllTaken v };
}
