//! The text of a script, read as a script.
#![tactic(auto)]

mod brace;
mod cause;
mod channels;
mod context;
mod cursor;
mod event;
mod expression;
mod fault;
mod finder;
mod form;
mod integer;
mod label;
mod laws;
mod lexing;
mod limits;
mod name_set;
mod names;
mod node;
mod part;
mod place;
mod printing;
mod refusal;
mod reserved;
mod scanner;
mod scope;
mod script;
mod stack;
mod statement;
mod sync;
mod telling;
mod thread;
mod token;

pub use cause::Which;
pub use fault::ScriptFault;
#[doc(hidden)]
pub use laws::texts_are_decided;
#[doc(hidden)]
pub use limits::MOST_BYTES;
pub use place::Place;
pub use printing::print_script;
pub use script::read_script;
