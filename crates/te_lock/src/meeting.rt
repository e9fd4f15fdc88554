// Callers tell each other what they have seen.
ghost use Rattle.std.specs.Prelude.{◌≡◌, true, max, [], ◌∷◌, ◌++◌};
ghost use Rattle.te_lock.specs.Entries.{longer};
ghost use Rattle.te_lock.specs.Lock.{note_of, IsSamePass};

use crate::kept::Kept;
use crate::note::Note;
use crate::pass::Pass;
use crate::steps::{confirm, join, note};
use crate::turn::Turn;

impl<V: Kept> Turn<V> {
    /// A note of what the pass has seen, which another caller may meet.
    pub fn split(&self, pass: &mut Pass<V>) -> Note<V>
        requires here { pass.old.lock ≡ self.now }
        ensures same { pass.new ≡ pass.old }
        ensures note { result ≡ note_of pass.old }
    {
        Note {
            seat: note(&self.table.shared, &mut pass.seat),
        }
    }

    /// Takes in what the note's pass had seen: what is read from now on begins with that too. A pass that has the turn has
    /// read all of it already, so what it has read stays, and it can leave. It waits for nobody.
    pub fn meet(&self, pass: &mut Pass<V>, note: Note<V>)
        requires here { pass.old.lock ≡ self.now }
        requires there { note.lock ≡ self.now }
        ensures same { IsSamePass pass.old pass.new }

        // what is known of the history
        ensures read { pass.new.read ≡ longer pass.old.read note.read }
        ensures read_stays { pass.old.has_turn ≡ true → pass.new.read ≡ pass.old.read }
        ensures known { pass.new.known ≡ (pass.old.known ++ note.known) ++ pass.old.read ∷ note.read ∷ [] }
        ensures front { pass.new.front ≡ max pass.old.front note.front }
        ensures law { V.lawful pass.new.lock.callers pass.new.read }
        ensures note_law { V.lawful note.lock.callers note.read }

        // what stays
        ensures turn { pass.new.has_turn ≡ pass.old.has_turn }
        ensures own { pass.new.own ≡ pass.old.own }
        ensures looks { pass.new.looks ≡ pass.old.looks }
    {
        join(&self.table.shared, &mut pass.seat, note.seat);
        confirm(&self.table.shared, &mut pass.seat);
    }
}
