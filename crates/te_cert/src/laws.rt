// The laws of plays and checks, each the contract of a function with nothing to do: what stands on certificates goes by
// these. Reductions are those of Donnelly and Fluet, Transactional Events, JFP 18(5-6), 2008; plays are this project's own.

ghost use Rattle.std.specs.Prelude.{◌≡◌, ◌⊎◌, ℕ, Bool, List, length, Result, Ok, Err};
ghost use Rattle.te_terms.specs.declared.event.Outcome.{Outcome};
ghost use Rattle.te_terms.specs.Terms.{Term};
ghost use Rattle.te_terms.specs.Settling.{CannotChoose};
ghost use Rattle.te_terms.specs.Steps.{Member, IsSettled};
ghost use Rattle.te_terms.specs.Joint.{Label, IsGroup, Reduces};
ghost use Rattle.te_cert.specs.declared.cert.Meeting.{Meeting};
ghost use Rattle.te_cert.specs.declared.cert.CertFault.{CertFault};
ghost use Rattle.te_cert.specs.declared.cert.CertFault.TheVariants.{Memory};
ghost use Rattle.te_cert.specs.Certificates.{Certificate};
ghost use Rattle.te_cert.specs.Play.{play, Played, Player, Advance, advanced};
ghost use Rattle.te_cert.specs.Certs.{choices_of, meetings_of};
ghost use Rattle.te_cert.specs.Checks.{IsChecked, HasOrder, Gives};

/// A play that gives outcomes is a reduction of the whole group to them, by the labels that it gives.
pub fn plays_reduce()
    ensures { (group : List Member) (letters : List (List Bool)) (meetings : List Meeting) (p : Played) → IsGroup group → play group letters meetings ≡ Ok p → Reduces group p.word p.outcomes }
{}

/// A group that reduces plays by the certificate of its labels, to the same outcomes.
pub fn reductions_play()
    ensures { (group : List Member) (word : List Label) (outcomes : List Outcome) → IsGroup group
        → Reduces group word outcomes → (played : List Label)
        × (play group (choices_of group word) (meetings_of group word) ≡ Ok
        (record { outcomes = outcomes; word = played })) }
{}

/// But for want of memory, a check accepts each certificate with members, their threads rising, whose play gives
/// outcomes, and answers these.
pub fn checks_accept()
    ensures { (cert : Certificate) (events : List Term) (outcomes : List Outcome) (answer : Result (List Outcome)
        CertFault) → length cert.members ≡ length events → IsChecked cert events answer → HasOrder cert
        → Gives cert events outcomes → (answer ≡ Ok outcomes) ⊎ (answer ≡ Err Memory) }
{}

/// But for want of memory, two checks of one certificate on the same events have one answer.
pub fn checks_are_one()
    ensures { (cert : Certificate) (events : List Term) (answer other : Result (List Outcome) CertFault)
        → IsChecked cert events answer → IsChecked cert events other → (answer ≡ other) ⊎ (answer ≡ Err Memory)
        ⊎ (other ≡ Err Memory) }
{}

/// An advance ends where no quiet step is left and there is no choice: where the member is final, or stands at a
/// send, a receive or never.
pub fn advances_end()
    ensures settled { (i : ℕ) (player : Player) (end : Advance) → advanced i player ≡ Ok end → IsSettled end.player.member }
    ensures no_choice { (i : ℕ) (player : Player) (end : Advance) → advanced i player ≡ Ok end → CannotChoose end.player.member.term }
{}
