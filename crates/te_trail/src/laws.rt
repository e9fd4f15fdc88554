// The laws of paths, each the contract of a function with nothing to do: what stands on stores goes by these. Chains are
// those of Donnelly and Fluet, Transactional Events, JFP 18(5-6), 2008; paths and clocks are this project's own.

ghost use Rattle.std.specs.Prelude.{◌≡◌, List, Some};
ghost use Rattle.te_terms.specs.Steps.{Member};
ghost use Rattle.te_terms.specs.Joint.{Label, member_of};
ghost use Rattle.te_trail.specs.Paths.{Path, thread_of, own_labels};
ghost use Rattle.te_trail.specs.Clocks.{IsSound};
ghost use Rattle.te_trail.specs.Stores.{Holds, IsStore, trail_of, joint_trail};
ghost use Rattle.te_trail.specs.Views.{HasPast, path_name_of, IsPathName};
ghost use Rattle.te_trail.specs.Together.{ChainOfAll, AllAgree, AreAmong, NamesDeepest};

/// Agreeing paths of a store have one chain of joint steps: the choices and meetings of their pasts, in order of making,
/// are its labels, it has the past of each, and it leaves each thread at its path.
#[doc(hidden)]
pub fn pasts_are_chains()
    ensures { (g : List Member) (paths ps : List Path) → IsStore g paths → AreAmong ps paths → AllAgree ps → ChainOfAll g (joint_trail paths ps) ps }
{}

/// A clock names exactly the deepest path of each thread that the past has.
#[doc(hidden)]
pub fn clocks_name_the_deepest()
    ensures { (p : Path) → IsSound p → NamesDeepest p }
{}

/// A path of a store is known by its thread and its own choices and meetings among those of one chain that has its
/// past, so no two paths of a store have one name; the name of a path is that of its trail.
#[doc(hidden)]
pub fn paths_have_names()
    ensures own { (g : List Member) (paths : List Path) (p q : Path) (word : List Label) → IsStore g paths
        → Holds paths p → Holds paths q → HasPast p word → HasPast q word → thread_of p ≡ thread_of q
        → own_labels p ≡ own_labels q → p ≡ q }
    ensures name { (g : List Member) (paths : List Path) (p : Path) (m : Member) → IsStore g paths → Holds paths p
        → member_of (thread_of p) g ≡ Some m → IsPathName g (path_name_of g (thread_of p) (trail_of paths p)) }
    ensures apart { (g : List Member) (paths : List Path) (p q : Path) → IsStore g paths → Holds paths p → Holds paths q
        → path_name_of g (thread_of p) (trail_of paths p) ≡ path_name_of g (thread_of q) (trail_of paths q) → p ≡ q }
{}
