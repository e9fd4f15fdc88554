// The rule of the lock's table, and what its steps tell.
use crate::kept::Kept;
use crate::view::View;
use atomic_table::{Join, Play, Split, TableRule};

/// The rule: one word, one slot, and what every view knows of the one history.
pub struct Law;

impl<V: Kept> TableRule<Option<V>, View<V::Entry>, u32> for Law {
    ghost use Rattle.te_lock.specs.Rule.{IsKept, maker_of};

    ghost holds = { λ callers s. IsKept V.entries V.members V.author V.lawful callers s };

    ghost first = { λ callers. maker_of 0 callers };
}

/// The step that asks for the turn.
pub struct Asks;

impl<V: Kept> Play<Option<V>, View<V::Entry>> for Asks {
    ghost use Rattle.te_lock.specs.Rule.{Asked};

    ghost then = { λ _ me found after. Asked V.entries V.members V.author V.lawful me found after };
}

/// The step that looks at the word.
pub struct Loads;

impl<V: Kept> Play<Option<V>, View<V::Entry>> for Loads {
    ghost use Rattle.te_lock.specs.Rule.{Looks};

    ghost then = { λ _ me found after. Looks me found after };
}

/// The step that looks at the word and changes nothing.
pub struct Checks;

impl<V: Kept> Play<Option<V>, View<V::Entry>> for Checks {
    ghost use Rattle.te_lock.specs.Rule.{Confirms};

    ghost then = { λ _ me _ after. Confirms me after };
}

/// The step that gives the turn back.
pub struct Releases;

impl<V: Kept> Play<Option<V>, View<V::Entry>> for Releases {
    ghost use Rattle.te_lock.specs.Rule.{Released};

    ghost then = { λ _ me _ after. Released V.entries me after };
}

/// The step that makes the pass of the next caller number.
pub struct Makes;

impl<E> Split<View<E>> for Makes {
    ghost use Rattle.te_lock.specs.Rule.{counted, next_pass};

    ghost left = { counted };

    ghost right = { next_pass };
}

/// The step that makes a note.
pub struct Notes;

impl<E> Split<View<E>> for Notes {
    ghost use Rattle.te_lock.specs.Rule.{noted};

    ghost left = { λ v. v };

    ghost right = { noted };
}

/// The step that joins two views.
pub struct Meets;

impl<E> Join<View<E>> for Meets {
    ghost use Rattle.te_lock.specs.Rule.{joined, spent};

    ghost both = { joined };

    ghost spent = { spent };
}
