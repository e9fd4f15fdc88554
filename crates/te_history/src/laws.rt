// The laws of histories, each the contract of a function with nothing to do: what stands on histories goes by these.

ghost use Rattle.std.specs.Prelude.{◌≡◌, ◌≢◌, ◌⊎◌, ◌↔◌, true, Some, Result, Err, slice_get, ℕ, ◌+◌, ◌≤◌, List, [], ◌∷◌, ◌++◌, length};
ghost use Rattle.te_terms.specs.declared.event.Outcome.{Outcome};
ghost use Rattle.te_terms.specs.Terms.{Term};
ghost use Rattle.te_history.specs.declared.entry.Entry.{Entry};
ghost use Rattle.te_history.specs.declared.entry.Entry.TheVariants.{Post, Take, Rest, Stuck};
ghost use Rattle.te_history.specs.declared.entry.StepFault.{StepFault};
ghost use Rattle.te_history.specs.declared.entry.StepFault.TheVariants.{Memory};
ghost use Rattle.te_history.specs.State.{Standing, parked, given, ended, state};
ghost use Rattle.te_history.specs.Histories.{History};
ghost use Rattle.te_history.specs.Refusals.{IsAnswered, IsRefused};
ghost use Rattle.te_history.specs.Follows.{Stands, IsParkedOrEnded, LooselyFollows, IsLoose, IsLegal};
ghost use Rattle.te_history.specs.Givings.{givings};
ghost use Rattle.te_history.specs.Room.{room, claimed, freed};

/// The number of entries and the reserved room together rise by a post alone, and by 3. The reserved room is how many
/// entries the callers may still need; it is this project's own.
pub fn posts_alone_raise_room()
    ensures others { (callers : ℕ) (history : List Entry) (e : Entry) → LooselyFollows callers history e
        → ((by ticket : ℕ) (event : Term) → e ≢ Post by ticket event)
        → length (history ++ e ∷ []) + room (state callers (history ++ e ∷ [])) ≤ length history + room
        (state callers history) }
    ensures posts { (callers : ℕ) (history : List Entry) (by ticket : ℕ) (event : Term)
        → LooselyFollows callers history (Post by ticket event)
        → length (history ++ Post by ticket event ∷ []) + room (state callers (history ++ Post by ticket event ∷ [])) ≡
        length history + room (state callers history) + 3 }
{}

/// Exactly how the reserved room goes by an entry: it rises by what the entry claims, and falls by what it gives back.
pub fn room_goes_by_entries()
    ensures { (callers : ℕ) (history : List Entry) (e : Entry) → LooselyFollows callers history e → room (state callers (history ++ e ∷ [])) + freed e ≡ room (state callers history) + claimed e }
{}

/// Two answers of one entry after one history are equal unless one is want of memory, and what is refused for another
/// cause doesn't follow.
pub fn refusals_are_one()
    ensures one { (h : History) (e : Entry) (a b : Result (Unit {0}) StepFault) → IsAnswered h e a → IsAnswered h e b → (a ≡ b) ⊎ ((a ≡ Err Memory) ⊎ (b ≡ Err Memory)) }
    ensures refused { (h : History) (e : Entry) (fault : StepFault) → IsRefused h e fault → fault ≢ Memory → ¬ LooselyFollows h.callers h.entries e }
{}

/// In a loose history, so in a legal one, a caller and a ticket that was taken, or is given and not yet taken, is named
/// by exactly one member of exactly one commit, with that outcome; while the caller is parked under the ticket, by none.
pub fn tickets_are_given_once()
    ensures taken { (callers : ℕ) (history : List Entry) (t ticket : ℕ) (outcome : Outcome) (k : ℕ)
        → IsLoose callers history → slice_get history k ≡ Some (Take t ticket outcome)
        → givings t ticket history ≡ Some outcome ∷ [] }
    ensures due { (callers : ℕ) (history : List Entry) (t ticket : ℕ) (outcome : Outcome) → IsLoose callers history
        → Stands (state callers history) t (given ticket outcome) → givings t ticket history ≡ Some outcome ∷ [] }
    ensures waiting { (callers : ℕ) (history : List Entry) (t ticket : ℕ) (event : Term) → IsLoose callers history
        → Stands (state callers history) t (parked ticket event) → givings t ticket history ≡ [] }
{}

/// A caller that has ended stays so, whatever follows.
pub fn ended_stays()
    ensures { (callers : ℕ) (history more : List Entry) (t : ℕ) → IsLoose callers (history ++ more) → Stands (state callers history) t ended → Stands (state callers (history ++ more)) t ended }
{}

/// On a stuck board every caller is parked or has ended.
pub fn stuck_boards_wait()
    ensures { (callers : ℕ) (history : List Entry) → IsLoose callers history → (state callers history).stuck ≡ true
        → (t : ℕ) (standing : Standing) → Stands (state callers history) t standing → IsParkedOrEnded standing }
{}

/// A board is stuck, or resting, exactly where an entry that says so stands in its history.
pub fn declarations_stand()
    ensures stuck { (callers : ℕ) (history : List Entry) → ((state callers history).stuck ≡ true) ↔ ((k by : ℕ) × (slice_get history k ≡ Some (Stuck by))) }
    ensures resting { (callers : ℕ) (history : List Entry) → ((state callers history).resting ≡ true) ↔ ((k by : ℕ) × (slice_get history k ≡ Some (Rest by))) }
{}

/// A legal history is loose.
pub fn legal_is_loose()
    ensures { (callers : ℕ) (history : List Entry) → IsLegal callers history → IsLoose callers history }
{}
