//! Tests of scripts whose threads run in threads of their own, as a user calls them.
#![tactic(auto)]

#[cfg(test)]
mod threads;
