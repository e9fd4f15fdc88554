// What is promised of fresh channels, each promise the contract of a function with nothing to do.

ghost use Rattle.std.specs.Prelude.{ℕ, ◌≤◌, List, length};
ghost use Rattle.te_script.specs.Scripts.{Program, IsProgram};
ghost use Rattle.te_history.specs.declared.entry.Entry.{Entry};
ghost use Rattle.te_history.specs.Follows.{IsLegal};
ghost use Rattle.te_report.specs.OfScript.{IsOfScript};
ghost use Rattle.te_serial.specs.FreshChannels.{ChannelsAreMade, AreDifferent};

/// Each fresh channel in an entry of a legal history of a script, as `finish` leaves them, was made by a commit at or before
/// the entry: it has the member whose thread and ticket the channel's number names. Fresh channels are this project's own.
pub fn fresh_channels_are_made_by_commits()
    ensures { (script : Program) (history : List Entry) → IsProgram script → IsLegal (length script.threads) history → IsOfScript script history
        → length history ≤ 200000 → ChannelsAreMade history }
{}

/// Two steps at which an event makes a fresh channel, in one chain of joint steps of a commit's group or in chains of the
/// groups of two commits, make channels with different numbers.
pub fn fresh_channels_are_different()
    ensures { (script : Program) (history : List Entry) → IsProgram script → IsLegal (length script.threads) history → IsOfScript script history
        → length history ≤ 200000 → AreDifferent (length script.threads) history }
{}
