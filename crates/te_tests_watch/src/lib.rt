//! Tests of observers, as their callers use them.
#![tactic(auto)]

#[cfg(test)]
mod calls;
#[cfg(test)]
mod observers;
#[cfg(test)]
mod rows;
