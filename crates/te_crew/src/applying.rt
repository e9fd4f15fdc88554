// The looks of a batch are applied, in order.

ghost use Rattle.std.specs.Prelude.{◌≡◌, ◌≢◌, ◌≤◌, ◌<◌, ◌^◌, ℕ, List, length, slice_get, Ok, Err, Some, None};
ghost use Rattle.te_cert.specs.Certificates.{Certificate};
ghost use Rattle.te_terms.specs.declared.event.Outcome.{Outcome};
ghost use Rattle.te_terms.specs.Joint.{as_group};
ghost use Rattle.te_search.specs.Bounds.{enough_for};
ghost use Rattle.te_search.specs.Findings.{IsGroupOf, IsUsedUp};
ghost use Rattle.te_search.specs.declared.batched.Look.{Look};
ghost use Rattle.te_search.specs.declared.finding.SearchFault.TheVariants as faults;
ghost use Rattle.te_crew.specs.Shares.{HasBatch, AreLooks, IsBetweenBatches, IsOfSame};

use te_cert::Cert;
use te_search::{Look, Search, SearchFault};

// Takes the look at a place, where there is one. No look is left there.
fn take_at(looks: &mut [Option<Look>], i: usize) -> Option<Look>
    requires place { i < length looks.old }
    ensures value { slice_get looks.old i ≡ Some result }
    ensures rest { (k : ℕ) (look : Look) → slice_get looks.new k ≡ Some (Some look) → slice_get looks.old k ≡ Some (Some look) }
{
    looks[i].take()
}

/// Each path of the batch does what its look says: the certificate of a group, where one is found on the way. A path without
/// a look had no memory for it. It is public for the crates above alone, as those of `looking` are.
pub fn apply_all(
    search: &mut Search,
    batch: &[u32],
    looks: &mut [Option<Look>],
) -> Result<Option<Cert>, SearchFault>
    requires batch { HasBatch search.old batch.now }
    requires numbers { search.old.applied ≤ 2 ^ 32 }
    requires count { length looks.old ≡ length batch.now }
    requires looks { AreLooks search.old batch.now looks.old }
    ensures between { result ≡ Ok None → IsBetweenBatches search.new }
    ensures last { result ≡ Ok None → search.new.batched ≡ search.old.batched }
    ensures same { result ≡ Ok None → IsOfSame search.old search.new }
    ensures group { (cert : Certificate) → result ≡ Ok (Some cert) → (outcomes : List Outcome) × IsGroupOf search.old.parked cert outcomes }
    ensures spent { (paths groups : ℕ) → result ≡ Err (faults.Spent paths groups) → IsUsedUp search.old.parked search.old.budget paths groups }
    ensures enough { enough_for (as_group search.old.parked) ≤ search.old.budget → (paths groups : ℕ) → result ≢ Err (faults.Spent paths groups) }
{
    'paths: for i in 0..batch.len() {
        let Some(look) = take_at(looks, i) else {
            return Err(SearchFault::Memory);
        };
        match search.apply(batch[i], look) {
            Ok(None) => {}
            Ok(Some(cert)) => return Ok(Some(cert)),
            Err(fault) => return Err(fault),
        }
    }
    Ok(None)
}
