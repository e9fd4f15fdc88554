//! Tests of runtimes, as their callers call them.
#![tactic(auto)]

#[cfg(test)]
mod runtime;
#[cfg(test)]
mod waiting;
