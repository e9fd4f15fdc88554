/// What a call does with the script that it reads.
#[derive(Clone, Copy)]
pub(crate) enum Task {
    /// Runs its threads, by a budget for each search.
    Run { budget: u64 },
    /// Writes its canonical text.
    Print,
    /// Decides whether a report is one of a whole legal run of it, by a budget for the search of the list that was declared.
    Check { budget: u64 },
    /// Writes a report of it in the second version.
    Lift,
}
