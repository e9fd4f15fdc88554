//! Tests of boards, of searches of them and of forms, as a user calls them.
#![tactic(auto)]

#[cfg(test)]
mod board;
#[cfg(test)]
mod changing;
#[cfg(test)]
mod forms;
#[cfg(test)]
mod grouping;
#[cfg(test)]
mod stale;
