//! Values, expressions and events of transactional events, and the steps that they take.
#![tactic(auto)]

mod code;
mod event;
mod expr;
mod laws;
mod lent;
mod limits;
mod memory;
mod name;
mod rows;
mod same;
mod slot;
mod value;

pub use code::{CodeFault, Counts, EventCode, Node};
pub use event::{Event, Outcome, Parked};
pub use expr::{Arith, Calc, Calcs, Cond, Expr, Operand as Prim, Scope, Test, Var};
pub use laws::{
    bindings_extend, first_parts_step, fresh_channels_stay_few, heads_are_replaced,
    members_do_one_thing, members_settle, quiet_steps_end, settled_members_stand, turns_end,
};
#[doc(hidden)]
pub use lent::{ExprView, NodeView};
#[doc(hidden)]
pub use limits::{
    GREATEST_HEIGHT, LONGEST_NAME, MOST_ATOMS, MOST_FRESH, MOST_NODES, MOST_REGISTERS, MOST_THREADS,
};
pub use memory::NoMemory;
pub use name::Name;
pub use rows::Rows;
pub use value::{Atom, Trap, Value};
