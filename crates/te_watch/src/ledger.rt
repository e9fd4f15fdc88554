// The record of what was published. It stands in proofs alone, but for one word that only the publisher has: the length.
use logbook::{Gain, Plain, Play, Rule};
use std::collections::LinkedList;
use te_history::Entry;
use te_terms::Rows;

/// The entries that one publication adds. It stands in proofs alone: no value of it is made.
pub struct Batch {
    pub items: LinkedList<Entry>,
}

/// The rule: the word tells how many entries were published.
pub struct Ledger;

impl Rule<Batch, u64> for Ledger {
    ghost use Rattle.std.specs.Prelude.{[]};
    ghost use base.Fml.{ftrue};
    ghost use Rattle.te_watch.specs.Ledgers.{CountsAll};

    ghost holds = { CountsAll };

    ghost first = { [] };

    ghost hinted = { λ _ _. Unit {0} };

    ghost shows = { λ _. [] };

    ghost keeps = { λ _ _. ftrue };

    ghost moves = { λ _ _ _ _. Unit {0} };
}

/// Who adds a batch gains nothing by it.
pub struct NoGain;

impl Gain<Batch, u64> for NoGain {
    ghost use base.Fml.{ftrue};

    ghost after = { λ _ _ _. ftrue };
}

/// The step that adds a batch.
pub struct Adding;

impl Play<Batch, u64> for Adding {
    ghost use Rattle.te_watch.specs.Ledgers.{AddsBatch};

    ghost then = { AddsBatch };
}

impl Plain<Rows<Entry>, Batch, u64> for Adding {
    ghost use Rattle.std.specs.Prelude.{None};

    ghost ask = { λ rows. record { items = rows } };

    ghost state = { λ _. None };
}
