//! Tests of histories, reports and rounds, as a user calls them.
#![tactic(auto)]

#[cfg(test)]
mod history;
#[cfg(test)]
mod report;
#[cfg(test)]
mod serial;
