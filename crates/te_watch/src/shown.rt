// The rule of what is shown, and what its steps tell.
use crate::notice::Notice;
use atomic_table::{Join, Split};
use crossbeam_utils::rule::{Outcome, Protocol};
use left_right::reader::Reader;
use left_right::writer::Writer;

/// Which watch it is, where that is known. It stands in proofs alone: no value of it is made.
pub struct Name {
    pub known: bool,
    pub number: u64,
    pub log_name: u64,
    pub cells_name: u64,
    pub callers: u64,
}

/// The rule: who knows the watch knows that of what is shown.
pub struct OneWatch;

impl Protocol<Notice, Name> for OneWatch {
    ghost use Rattle.te_watch.specs.Naming.{AllName, nameless};

    ghost holds = { AllName };

    ghost first = { nameless };
}

/// The step that reads what is shown, or shows what goes on from it.
pub struct Keeps;

impl Outcome<Notice, Name> for Keeps {
    ghost use Rattle.te_watch.specs.Naming.{KeepsName};

    ghost then = { KeepsName };
}

/// The step that shows the first notice of a watch.
pub struct Takes;

impl Outcome<Notice, Name> for Takes {
    ghost use Rattle.te_watch.specs.Naming.{TakesName};

    ghost then = { TakesName };
}

/// The step that tells the name to a reader.
pub struct Tells;

impl Split<Name> for Tells {
    ghost left = { λ v. v };

    ghost right = { λ v. v };
}

impl Join<Name> for Tells {
    ghost use Rattle.te_watch.specs.Naming.{nameless};

    ghost both = { λ _ w. w };

    ghost spent = { nameless };
}

pub type Readers = Reader<Notice, Name, OneWatch>;

pub type Writers = Writer<Notice, Notice, Name, OneWatch>;
