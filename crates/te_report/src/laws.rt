// The laws of reports, each the contract of a function with nothing to do: what stands on reports goes by these.

ghost use Rattle.std.specs.Prelude.{◌≡◌, ◌⊎◌, ℕ, ◌<◌, ◌%◌, ◌^◌, ◌++◌, List, length, codes, decimal};
ghost use Rattle.std.specs.List.{AllByRecursion};
ghost use Rattle.te_terms.specs.Values.{fresh_channel};
ghost use Rattle.te_terms.specs.Limits.{most_threads, most_fresh};
ghost use Rattle.te_script.specs.Scripts.{Program, IsProgram, IsScript};
ghost use Rattle.te_history.specs.declared.entry.Entry.{Entry};
ghost use Rattle.te_history.specs.Follows.{IsLoose};
ghost use Rattle.te_report.specs.declared.ending.Ending.{Ending as End};
ghost use Rattle.te_report.specs.declared.fault.ReportFault.{ReportFault as Fault};
ghost use Rattle.te_report.specs.declared.fault.ReportFault.TheVariants.{Memory};
ghost use Rattle.te_report.specs.Told.{IsReadAs, IsRefusedFor};
ghost use Rattle.te_report.specs.OfScript.{IsOfScript};
ghost use Rattle.te_report.specs.ScriptChannels.{HasChannelsOf};
ghost use Rattle.te_report.specs.Report.{name_of, channel_text};

/// Each channel in a loose history of a script's threads is a channel of the script or a fresh one of one of its threads.
pub fn channels_are_of_the_script()
    ensures { (script : Program) (history : List Entry) → IsProgram script → IsLoose (length script.threads) history → IsOfScript script history → AllByRecursion (HasChannelsOf script) history }
{}

/// A fresh channel is spelled by the name of the thread that made it, the ticket below 2^18 and the count.
pub fn fresh_channels_are_spelled()
    ensures { (script : Program) (thread ticket count : ℕ) → thread < most_threads → count < most_fresh
        → channel_text script (fresh_channel thread ticket count) ≡ name_of script thread ++ codes "." ++ decimal
        (ticket % 2 ^ 18) ++ codes "." ++ decimal count }
{}

/// Of bytes one thing is told: a history and how it ends, or one fault; want of memory alone is free.
#[doc(hidden)]
pub fn readings_are_one()
    ensures read { (script : Program) (bytes : List ℕ) (history other : List Entry) (ending last : End) → IsScript script → IsReadAs script history ending bytes → IsReadAs script other last bytes
        → (history ≡ other) × (ending ≡ last) }
    ensures unrefused { (script : Program) (bytes : List ℕ) (history : List Entry) (ending : End) (fault : Fault)
        → IsScript script → IsReadAs script history ending bytes → IsRefusedFor script bytes fault
        → fault ≡ Memory }
    ensures one { (script : Program) (bytes : List ℕ) (a b : Fault) → IsScript script → IsRefusedFor script bytes a → IsRefusedFor script bytes b → (a ≡ b) ⊎ ((a ≡ Memory) ⊎ (b ≡ Memory)) }
{}
