// How many paths and partial groups a list of parked events can have.

ghost use Rattle.std.specs.Prelude.{◌≡◌, ◌<◌, ◌≤◌, ◌↔◌, ◌+◌, ◌*◌, ◌^◌, min, List, length, IfSome, None};
ghost use Rattle.std.specs.List.{AllByRecursion};
ghost use Rattle.te_terms.specs.Measures.{choice_count, send_count, receive_count};
ghost use Rattle.te_terms.specs.Steps.{Member};
ghost use Rattle.te_terms.specs.Joint.{IsGroup, as_group};
ghost use Rattle.te_trail.specs.Views.{Name, IsPathName, IsGroupName};
ghost use Rattle.te_search.specs.Bounds.{NoNameTwice, over_all, paths_most, enough_for};

use te_terms::Parked;

/// A list of events has at most so many path names, and at most so many group names: each choose node is not reached,
/// goes left or goes right, and each send node is not met or met by one receive node.
#[doc(hidden)]
pub fn names_are_few()
    ensures paths { (g : List Member) (names : List Name) → IsGroup g → NoNameTwice names → AllByRecursion (IsPathName g) names → length names ≤ paths_most g }
    ensures groups { (g : List Member) (names : List Name) → IsGroup g → NoNameTwice names → AllByRecursion (IsGroupName g) names → length names ≤ paths_most g }
{}

// The number times a factor, so often, or 1,000,001 where that is more.
fn raised(number: u64, factor: u64, times: u32) -> u64
    requires number { number ≤ 1000001 }
    requires factor { factor ≤ 1000001 }
    ensures { result ≡ min (number * factor ^ times) 1000001 }
{
    let mut product = number;
    'times: for _ in 0..times {
        product = (product * factor).min(1_000_001);
    }
    product
}

// The receive nodes of the list, or 1,000,000 where there are more.
fn receives_in(parked: &[Parked]) -> u64
    ensures { result ≡ min (over_all receive_count (as_group parked.now)) 1000000 }
{
    let mut receives = 0;
    'parked: for i in 0..parked.len() {
        receives = (receives + parked[i].event.counts().receives as u64).min(1_000_000);
    }
    receives
}

// The number times 3 for each choose node and a factor for each send node of the list, or 1,000,001 where that is more.
fn grown(number: u64, factor: u64, parked: &[Parked]) -> u64
    requires number { number ≤ 1000001 }
    requires factor { factor ≤ 1000001 }
    ensures { result ≡ min (number * (3 ^ over_all choice_count (as_group parked.now) * factor ^ over_all send_count (as_group parked.now))) 1000001 }
{
    let mut product = number;
    'parked: for i in 0..parked.len() {
        let counts = parked[i].event.counts();
        product = raised(raised(product, 3, counts.choices), factor, counts.sends);
    }
    product
}

// The most paths that the list can have, or 1,000,001 where there are more.
fn paths_in(parked: &[Parked]) -> u64
    ensures { result ≡ min (paths_most (as_group parked.now)) 1000001 }
{
    let events = (parked.len() as u64).min(1_000_001);
    grown(events, receives_in(parked) + 1, parked)
}

/// A budget by which `find` is never `Spent` of the list: twice the most paths that it can have, which are the number of
/// events, times 3 for each choose node, times one more than the receive nodes for each send node. None where that is more
/// than 1,000,000. Condition: threads rise strictly. It takes no memory. The number is this project's own.
pub fn enough(parked: &[Parked]) -> Option<u64>
    requires { IsGroup (as_group parked.now) }
    ensures some { IfSome result (λ n. n ≡ enough_for (as_group parked.now)) }
    ensures none { (result ≡ None) ↔ (1000000 < enough_for (as_group parked.now)) }
    ensures names { (paths groups : List Name) → NoNameTwice paths
        → AllByRecursion (IsPathName (as_group parked.now)) paths → NoNameTwice groups
        → AllByRecursion (IsGroupName (as_group parked.now)) groups
        → length paths + length groups ≤ enough_for (as_group parked.now) }
{
    let paths = paths_in(parked);
    if paths <= 500_000 {
        Some(2 * paths)
    } else {
        None
    }
}
