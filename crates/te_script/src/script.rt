use std::marker::Model;
use std::sync::Arc;
use te_terms::{EventCode, Expr, Name, Rows};

/// A statement of a thread.
#[derive(Drop)]
pub enum Stmt {
    /// Synchronises on the event under `root` and writes what it gives to register `reg`.
    Sync {
        reg: u8,
        code: Arc<EventCode>,
        root: u32,
    },
    /// Adds the value of the expression to what the thread has emitted.
    Emit(Expr),
    /// Does the next `count` statements, which are syncs, `times` times: from 1 to 10,000.
    Repeat {
        times: u32,
        count: u32,
    },
}

/// One thread of a script: its name, the names of its registers by number, and its statements. A name is a letter,
/// then letters, digits and `_`, and no reserved word of the language.
#[derive(Drop)]
pub struct ThreadText {
    pub name: Name,
    pub regs: Rows<Name>,
    pub stmts: Rows<Stmt>,
}

impl Model for ThreadText {
    ghost use Rattle.std.specs.Prelude.{map};
    ghost use Rattle.te_script.specs.Scripts.{Thread};
    ghost use Rattle.te_script.specs.Stored.{coded_thread};

    ghost Value = { Thread };

    ghost coded = { coded_thread };

    ghost use Rattle.te_script.specs.Texts.{statement_of, IsText};

    ghost view = { λ t. record { name = t.name; registers = t.regs; statements = map statement_of t.stmts } };

    ghost invariant = { λ t. IsText (record { name = t.name; registers = t.regs; statements = map statement_of t.stmts }) t.stmts };
}

impl ThreadText {
    ghost use Rattle.std.specs.Prelude.{◌≡◌, map};
    ghost use Rattle.std.specs.List.{AllByRecursion};
    ghost use Rattle.te_script.specs.Texts.{statement_of, RootIsNode};
    ghost use Rattle.te_script.specs.Limits.{most_channels};
    ghost use Rattle.te_script.specs.Scripts.{IsThread};
    ghost use Rattle.te_script.specs.Cores.{HasBodies};

    // The statements, in order.
    pub(crate) fn statements(&self) -> &[Stmt]
        ensures value { map statement_of result.now ≡ self.now.statements }
        ensures thread { IsThread most_channels self.now }
        ensures roots { AllByRecursion RootIsNode result.now }
        ensures bodies { HasBodies (map statement_of result.now) }
    {
        self.stmts.as_slice()
    }
}

/// A script: the names of its channels by number, and its threads. Each script can be spelled.
#[derive(Drop)]
pub struct Script {
    pub channels: Rows<Name>,
    pub threads: Rows<Arc<ThreadText>>,
}

impl Model for Script {
    ghost use Rattle.std.specs.Prelude.{map};
    ghost use Rattle.te_script.specs.Scripts.{Program, IsScript};
    ghost use Rattle.te_script.specs.Stored.{coded_program};

    ghost Value = { Program };

    ghost coded = { coded_program };

    ghost view = { λ s. record { channels = s.channels; threads = map (λ a. a.value) s.threads } };

    ghost invariant = { λ s. IsScript (record { channels = s.channels; threads = map (λ a. a.value) s.threads }) };
}
