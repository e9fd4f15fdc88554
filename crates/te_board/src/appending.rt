// One entry more, and the room that it claims and gives back.

ghost use Rattle.std.specs.Prelude.{◌≡◌, ◌≢◌, ℕ, ◌+◌, ◌-◌, ◌≤◌, ◌<◌, [], ◌∷◌, ◌++◌, length};
ghost use Rattle.te_terms.specs.Terms.{Term};
ghost use Rattle.te_history.specs.declared.entry.Entry.TheVariants.{Post};
ghost use Rattle.te_history.specs.Follows.{Follows};
ghost use Rattle.te_history.specs.Histories.{pushed};
ghost use Rattle.te_history.specs.Room.{claimed, freed};
ghost use Rattle.te_board.specs.Boards.{IsReserved, most_entries};

use te_history::{Entry, Hist, How, room_goes_by_entries};

/// The room that an entry claims beyond its own place.
fn claims(entry: &Entry) -> usize
    ensures { result ≡ claimed entry.now }
{
    match entry {
        Entry::Post { .. } => 2,
        _ => 0,
    }
}

/// The room that an entry gives back.
fn frees(entry: &Entry) -> usize
    ensures { result ≡ freed entry.now }
{
    match entry {
        Entry::Post { .. } => 0,
        Entry::Commit { cert, .. } => cert.members.len(),
        Entry::Withdraw { .. } => 2,
        Entry::Take { .. } | Entry::Rest { .. } | Entry::Stuck { .. } => 1,
        Entry::End { how, .. } => match how {
            How::Stuck => 3,
            How::Done(_) | How::Raised(_) => 1,
        },
    }
}

/// Appends an entry that follows. Condition: with what it claims there is room for it and for all that may follow.
pub(crate) fn append(hist: &mut Hist, reserved: &mut usize, entry: Entry)
    requires kept { IsReserved hist.old reserved.old }
    requires follows { Follows hist.old.callers hist.old.entries entry }
    requires fits { length hist.old.entries + 1 + reserved.old + claimed entry ≤ most_entries + freed entry }
    ensures kept { IsReserved hist.new reserved.new }
    ensures pushed { hist.new ≡ pushed hist.old entry }
{
    room_goes_by_entries();
    *reserved = *reserved + claims(&entry) - frees(&entry);
    hist.push(entry);
}

/// Appends an entry that follows and isn't a post.
pub(crate) fn add(hist: &mut Hist, reserved: &mut usize, entry: Entry)
    requires kept { IsReserved hist.old reserved.old }
    requires follows { Follows hist.old.callers hist.old.entries entry }
    requires other { (by ticket : ℕ) (event : Term) → entry ≢ Post by ticket event }
    ensures kept { IsReserved hist.new reserved.new }
    ensures pushed { hist.new ≡ pushed hist.old entry }
{
    append(hist, reserved, entry);
}
