ghost use Rattle.std.specs.Prelude.{◌≡◌, ◌≢◌, ◌⊎◌, ℕ, List, [], Some, map};
ghost use Rattle.std.specs.String.{string_bytes};
ghost use Rattle.te_io.specs.Stream.{GrewBy, GrewByPrefix};
ghost use Rattle.te_io.specs.Causes.{Rose};
ghost use Rattle.te_reader.specs.declared.fault.ScriptFault.{ScriptFault};
ghost use Rattle.tevents.specs.declared.words.Words.{Words};
ghost use Rattle.tevents.specs.declared.words.Mode.TheVariants as modes;
ghost use Rattle.tevents.specs.Words.{Says, AreRefused};
ghost use Rattle.tevents.specs.Headline.{mode_of, IsHeadline};
ghost use Rattle.tevents.specs.Runs.{Way};
ghost use Rattle.tevents.specs.FaultLines.{fault_line};
ghost use Rattle.tevents.specs.Summaries.{IsSummary};
ghost use Rattle.tevents.specs.Inputs.{HasLegalReport, IsCheckedInput, HasReport, IsLiftedInput};
ghost use Rattle.tevents.specs.Causes.{IsStatus, IsDone, HasStopped, IsTold, IsReadWhole, IsSilent, IsScriptText, Answers};

use crate::generating::gen_run;
use crate::modes::{check_run, lift_run, print_run, serial_run, threads_run};
use crate::words::{Mode, WordFault, read_words};
use std::alloc::Global;
use std::sync::Wait;
use std::thread::Threads;
use te_io::{Sink, Source};
use te_runtime::Gate;

/// Does what the words tell, and answers the status of the program. The words are those after the program's name: a
/// mode, and the options `--budget N`, from 1 to 1,000,000, by default 100,000, and `--number N`, from 0 to 999, by
/// default 0. An option that a mode doesn't use is ignored. In the mode `run` the call starts threads, which pass the gate
/// before each sync, and waits for them all; in every other mode it waits for nobody, and returns.
///
/// | mode | does |
/// |---|---|
/// | `serial` | reads a script from the source, runs its threads in rounds, and writes the report of the run |
/// | `run` | reads a script from the source, runs each of its threads in a thread of its own, and in rounds what these leave undone, and writes the report of the run |
/// | `print` | reads a script from the source, and writes its canonical text |
/// | `gen` | runs the generated script of the number in rounds, and writes a summary |
/// | `check` | reads a script, a line `---` and a report, and decides whether the report is one of a whole legal run of the script |
/// | `lift` | reads the same, and writes the report in the second version |
///
/// | status | when | written |
/// |---|---|---|
/// | 0 | done; of `serial` and `run`: the threads have run, and none ended stuck | the report, the text, or the summary |
/// | 1 | `serial`, `run`: the threads have run, and one ended stuck | the report |
/// | 2 | the words are none of the command's, or their mode is none | nothing, and nothing is read |
/// | 3 | the source failed | nothing |
/// | 4 | the sink failed | a prefix of a text that the call could have written |
/// | 5 | the bytes are no text of a script | the line of its fault, as `script fault 3 at 1:14` |
/// | 6 | `serial`, `run`: the history had no room for a post and all that may follow it | the report of what was done by then |
/// | 7 | `serial`, `run`, `gen`, `check`: a search has used up its budget | the report of what was done by then, the summary, or a line that tells it |
/// | 8 | `check`, `lift`: the bytes behind the script are no report that the mode asks for | the line of the fault, as `report fault 3 at line 4` |
/// | 9 | want of memory | nothing |
pub fn tevents<R: Threads + Wait + Sync, S: Source, K: Sink, G: Gate + Sync>(
    rt: &R,
    alloc: Global,
    words: &[String],
    source: &mut S,
    sink: &mut K,
    gate: &G,
) -> u8
    ensures statuses { IsStatus result }

    // 0 and 1 of `serial` and `run`: what was read is a script, and what was written is the report of one whole run of it.
    ensures headline { IsDone result → (w : Words) → Says (map string_bytes words.now) w → (way : Way) → w.mode ≡ mode_of way
        → (read : List ℕ) → S.bytes_left source.old ≡ Some read
        → (written : List ℕ) × IsHeadline way read written result
        × GrewBy (K.bytes_held sink.old) (K.bytes_held sink.new) written }

    // 0 of `check` and `lift`: the first part is a script, and the other a report of it.
    ensures checked { result ≡ 0 → (w : Words) → Says (map string_bytes words.now) w → w.mode ≡ modes.Check
        → (read : List ℕ) → S.bytes_left source.old ≡ Some read
        → IsCheckedInput read (λ written. GrewBy (K.bytes_held sink.old) (K.bytes_held sink.new) written) }
    ensures lifted { result ≡ 0 → (w : Words) → Says (map string_bytes words.now) w → w.mode ≡ modes.Lift
        → (read : List ℕ) → S.bytes_left source.old ≡ Some read
        → IsLiftedInput read (λ written. GrewBy (K.bytes_held sink.old) (K.bytes_held sink.new) written) }

    // 0, 1, 5, 6, 7 and 8: what is written is what the mode tells of the bytes that were read.
    ensures told { IsTold result → (w : Words) → Says (map string_bytes words.now) w
        → (read : List ℕ) → S.bytes_left source.old ≡ Some read
        → (written : List ℕ) × Answers w read written result
        × GrewBy (K.bytes_held sink.old) (K.bytes_held sink.new) written }
    ensures generated { IsTold result → (w : Words) → Says (map string_bytes words.now) w → w.mode ≡ modes.Gen
        → (written : List ℕ) × IsSummary w.number w.budget written result
        × GrewBy (K.bytes_held sink.old) (K.bytes_held sink.new) written }
    ensures generated_alone { (w : Words) → Says (map string_bytes words.now) w → w.mode ≡ modes.Gen
        → source.new ≡ source.old }
    ensures read_to_the_end { IsReadWhole result → (w : Words) → Says (map string_bytes words.now) w
        → w.mode ≢ modes.Gen → (read : List ℕ) → S.bytes_left source.old ≡ Some read
        → S.bytes_left source.new ≡ Some [] }
    ensures line { result ≡ 5 → (fault : ScriptFault)
        × GrewBy (K.bytes_held sink.old) (K.bytes_held sink.new) (fault_line fault) }

    // Words that aren't refused say one thing.
    ensures says { result ≢ 2 → result ≢ 9 → (w : Words) × Says (map string_bytes words.now) w }

    // 2
    ensures refused { result ≡ 2 → AreRefused (map string_bytes words.now) }
    ensures refuses { AreRefused (map string_bytes words.now) → (result ≡ 2) ⊎ (result ≡ 9) }
    ensures unread { result ≡ 2 → source.new ≡ source.old }

    // 2, 3 and 9
    ensures unwritten { IsSilent result → sink.new ≡ sink.old }

    // 3
    ensures source_failed { result ≡ 3 → Rose (S.faults source.old) (S.faults source.new) }

    // 4
    ensures sink_failed { result ≡ 4 → Rose (K.faults sink.old) (K.faults sink.new) }
    ensures cut_short { result ≡ 4 → (w : Words) → Says (map string_bytes words.now) w
        → (read : List ℕ) → S.bytes_left source.old ≡ Some read
        → (written : List ℕ) × (status : ℕ) × Answers w read written status
        × GrewByPrefix (K.bytes_held sink.old) (K.bytes_held sink.new) written }

    ensures generated_cut_short { result ≡ 4 → (w : Words) → Says (map string_bytes words.now) w → w.mode ≡ modes.Gen
        → (written : List ℕ) × (status : ℕ) × IsSummary w.number w.budget written status
        × GrewByPrefix (K.bytes_held sink.old) (K.bytes_held sink.new) written }

    // Where no end failed and there was memory, a script is run or printed.
    ensures runs { (w : Words) → Says (map string_bytes words.now) w → (way : Way) → w.mode ≡ mode_of way
        → (read : List ℕ) → S.bytes_left source.old ≡ Some read → IsScriptText read
        → ¬ Rose (S.faults source.old) (S.faults source.new) → ¬ Rose (K.faults sink.old) (K.faults sink.new)
        → result ≢ 9 → IsDone result ⊎ HasStopped result }
    ensures prints { (w : Words) → Says (map string_bytes words.now) w → w.mode ≡ modes.Print
        → (read : List ℕ) → S.bytes_left source.old ≡ Some read → IsScriptText read
        → ¬ Rose (S.faults source.old) (S.faults source.new) → ¬ Rose (K.faults sink.old) (K.faults sink.new)
        → result ≢ 9 → result ≡ 0 }
    ensures checks { (w : Words) → Says (map string_bytes words.now) w → w.mode ≡ modes.Check
        → (read : List ℕ) → S.bytes_left source.old ≡ Some read → HasLegalReport read
        → ¬ Rose (S.faults source.old) (S.faults source.new) → ¬ Rose (K.faults sink.old) (K.faults sink.new)
        → result ≢ 9 → (result ≡ 0) ⊎ (result ≡ 7) }
    ensures lifts { (w : Words) → Says (map string_bytes words.now) w → w.mode ≡ modes.Lift
        → (read : List ℕ) → S.bytes_left source.old ≡ Some read → HasReport read
        → ¬ Rose (S.faults source.old) (S.faults source.new) → ¬ Rose (K.faults sink.old) (K.faults sink.new)
        → result ≢ 9 → result ≡ 0 }
    ensures generates { (w : Words) → Says (map string_bytes words.now) w → w.mode ≡ modes.Gen
        → ¬ Rose (K.faults sink.old) (K.faults sink.new)
        → result ≢ 9 → (result ≡ 0) ⊎ (result ≡ 7) }
{
    match read_words(alloc, words) {
        Ok(said) => match said.mode {
            Mode::Serial => serial_run(alloc, said.budget, source, sink),
            Mode::Run => threads_run(rt, alloc, said.budget, source, sink, gate),
            Mode::Print => print_run(alloc, source, sink),
            Mode::Check => check_run(alloc, said.budget, source, sink),
            Mode::Lift => lift_run(alloc, source, sink),
            Mode::Gen => gen_run(alloc, said.number as u32, said.budget, sink),
        },
        Err(WordFault::Refused) => 2,
        Err(WordFault::Memory) => 9,
    }
}
