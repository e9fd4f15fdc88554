// The laws of steps, each the contract of a function with nothing to do: what stands on terms goes by these.

ghost use Rattle.std.specs.Prelude.{◌≡◌, ◌≢◌, ℕ, ◌+◌, ◌<◌, ◌≤◌, Bool, Some, None, List, [], ◌∷◌, ◌++◌, length};
ghost use Rattle.std.specs.Option.{option_map};
ghost use Rattle.te_terms.specs.declared.value.Atom.{Atom};
ghost use Rattle.te_terms.specs.declared.event.Outcome.{Outcome};
ghost use Rattle.te_terms.specs.Terms.{Term, never, and_then, catch, replaced, closed, bound, scoped};
ghost use Rattle.te_terms.specs.Measures.{fresh_count};
ghost use Rattle.te_terms.specs.Steps.{Member, quiet_step, IsSettled, giving, under_then, under_catch, outcome_of, head, with_head};
ghost use Rattle.te_terms.specs.Joint.{Message, after_choice, sending, receiving};
ghost use Rattle.te_terms.specs.Settling.{Falls, steps_most, Quietly, settled, TermStands, CannotChoose, IsOpen, then_settled, catch_settled};

/// Quiet steps end: each leaves fewer nodes, or as many nodes and one more final one. A member has at
/// most one, since `quiet_step` is a function.
pub fn quiet_steps_end()
    ensures { (m n : Member) → quiet_step m ≡ Some n → Falls m.term n.term }
{}

/// Each quiet step, each choice and each end of a meeting lowers one measure, so that a member's turns end.
pub fn turns_end()
    ensures quiet { (m n : Member) → quiet_step m ≡ Some n → steps_most n.term < steps_most m.term }
    ensures choice { (left : Bool) (t u : Term) → after_choice left t ≡ Some u → steps_most u < steps_most t }
    ensures send { (t : Term) (sent : Message) (v : List Atom) → sending t ≡ Some sent → steps_most (with_head (giving v) t) < steps_most t }
    ensures receive { (t : Term) (channel : ℕ) (v : List Atom) → receiving t ≡ Some channel → steps_most (with_head (giving v) t) < steps_most t }
{}

/// The channels that a member has made, and the `fresh` nodes that are left of its event, never grow together.
pub fn fresh_channels_stay_few()
    ensures quiet { (m n : Member) → quiet_step m ≡ Some n → (m.count ≤ n.count) × (n.count + fresh_count n.term ≤ m.count + fresh_count m.term) }
    ensures settled { (m : Member) → (m.count ≤ (settled m).count) × ((settled m).count + fresh_count (settled m).term ≤ m.count + fresh_count m.term) }
    ensures choice { (left : Bool) (t u : Term) → after_choice left t ≡ Some u → fresh_count u ≤ fresh_count t }
    ensures meeting { (t : Term) (v : List Atom) → fresh_count (with_head (giving v) t) ≤ fresh_count t }
{}

/// What a member is once its quiet steps are done: quiet steps lead there, none is left, and they lead to
/// no other end; the thread and its ticket stay.
pub fn members_settle()
    ensures reached { (m : Member) → Quietly m (settled m) }
    ensures done { (m : Member) → IsSettled (settled m) }
    ensures one { (m n : Member) → Quietly m n → IsSettled n → n ≡ settled m }
    ensures after { (m n : Member) → quiet_step m ≡ Some n → settled n ≡ settled m }
    ensures thread { (m : Member) → (settled m).thread ≡ m.thread }
    ensures ticket { (m : Member) → (settled m).ticket ≡ m.ticket }
{}

/// A member does one thing at a time: where it is final, can choose, sends or receives, it has no quiet
/// step and does none of the others.
pub fn members_do_one_thing()
    ensures end { (m : Member) (o : Outcome) → outcome_of m.term ≡ Some o → IsSettled m × CannotChoose m.term × (sending m.term ≡ None) × (receiving m.term ≡ None) }
    ensures choice { (m : Member) (left : Bool) (t : Term) → after_choice left m.term ≡ Some t → IsSettled m × IsOpen m.term × (sending m.term ≡ None) × (receiving m.term ≡ None) }
    ensures send { (m : Member) (sent : Message) → sending m.term ≡ Some sent → IsSettled m × IsOpen m.term × CannotChoose m.term × (receiving m.term ≡ None) }
    ensures receive { (m : Member) (channel : ℕ) → receiving m.term ≡ Some channel → IsSettled m × IsOpen m.term × CannotChoose m.term × (sending m.term ≡ None) }
    ensures never { (m : Member) → head m.term ≡ never → IsSettled m × IsOpen m.term × CannotChoose m.term × (sending m.term ≡ None) × (receiving m.term ≡ None) }
{}

/// A settled member is final, or stands at a choice, a send, a receive or never.
pub fn settled_members_stand()
    ensures { (m : Member) → IsSettled m → TermStands m.term }
{}

/// A step of the first part of `then` or `catch` is one of the whole, in its place, and the whole settles
/// by what the first part settles as.
pub fn first_parts_step()
    ensures quiet_then { (n : ℕ) (f : Term) (m : Member) → IsOpen m.term → quiet_step (under_then n f m) ≡ option_map (under_then n f) (quiet_step m) }
    ensures quiet_catch { (n : ℕ) (h : Term) (m : Member) → IsOpen m.term → quiet_step (under_catch n h m) ≡ option_map (under_catch n h) (quiet_step m) }
    ensures settled_then { (n : ℕ) (f : Term) (m : Member) → settled (under_then n f m) ≡ then_settled (outcome_of (settled m).term) n f (settled m) }
    ensures settled_catch { (n : ℕ) (h : Term) (m : Member) → settled (under_catch n h m) ≡ catch_settled (outcome_of (settled m).term) n h (settled m) }
    ensures choice_then { (left : Bool) (e : Term) (n : ℕ) (f : Term) → after_choice left (and_then e n f) ≡ option_map (λ t. and_then t n f) (after_choice left e) }
    ensures choice_catch { (left : Bool) (e : Term) (n : ℕ) (h : Term) → after_choice left (catch e n h) ≡ option_map (λ t. catch t n h) (after_choice left e) }
{}

/// A term is its head in its head's place, what is put there has its own head, what is its own head is replaced
/// whole, and no head is a `then` or a `catch`.
pub fn heads_are_replaced()
    ensures own { (t : Term) → with_head (head t) t ≡ t }
    ensures other { (u t : Term) → head (with_head u t) ≡ head u }
    ensures whole { (u t : Term) → head t ≡ t → with_head u t ≡ u }
    ensures no_then { (t e f : Term) (n : ℕ) → head t ≢ and_then e n f }
    ensures no_catch { (t e f : Term) (n : ℕ) → head t ≢ catch e n f }
{}

/// A term is closed over no inner values at first, and binding the next inner name adds its value to those
/// before it.
pub fn bindings_extend()
    ensures start { (regs : List (List Atom)) (t : Term) → closed regs t ≡ replaced (scoped regs []) t }
    ensures next { (regs inner : List (List Atom)) (v : List Atom) (t : Term) → bound (length inner) v (replaced (scoped regs inner) t) ≡ replaced (scoped regs (inner ++ v ∷ [])) t }
{}
