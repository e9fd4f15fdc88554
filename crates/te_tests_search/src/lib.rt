//! Tests of the paths of a search, their partners, and of searches that are whole, in batches, kept and shared, as a user calls them.
#![tactic(auto)]

#[cfg(test)]
mod batches;
#[cfg(test)]
mod crew;
#[cfg(test)]
mod events;
#[cfg(test)]
mod finding;
#[cfg(test)]
mod looking;
#[cfg(test)]
mod pair;
#[cfg(test)]
mod seeded;
