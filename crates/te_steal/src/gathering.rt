// The looks of the owner and of the thieves are put together.

ghost use Rattle.std.specs.Prelude.{◌≡◌, ◌<◌, ℕ, ◌++◌, ◌&&◌, Bool, true, List, length, map, All, IfOk, OnOk};
ghost use Rattle.std.specs.List.{concat};
ghost use Rattle.te_crew.specs.Shares.{HasBatch, AreLooks};
ghost use Rattle.te_search.specs.Batches.{Batches};
ghost use Rattle.te_steal.specs.Relays.{OwnerOf, IsThiefOf, occurrences, took_by};
ghost use Rattle.te_steal.specs.Stolen.{AreLooksAt, IsBrought, IsLookedAt, IsRobber, IsBoss};

use crate::closing::close;
use crate::robbing::{Boss, Robber, look_into, put};
use crate::sharing::{Owner, Thief};
use std::alloc::Global;
use te_search::{Look, Search};
use te_terms::{NoMemory, Rows};

// Puts looks in their places beside those that are there.
fn bring(looks: &mut [Option<Look>], theirs: Vec<Option<Look>>)
    requires { length theirs.items ≡ length looks.old }
    ensures count { length looks.new ≡ length looks.old }
    ensures brought { IsBrought looks.old theirs.items looks.new }
{
    let mut rest = theirs;
    'places: while let Some(one) = rest.pop() {
        match one {
            Some(look) => put(looks, rest.len(), look),
            None => continue,
        }
    }
}

// Whether both are so.
fn both(first: bool, second: bool) -> bool
    ensures { result ≡ (first && second) }
{
    first && second
}

// The thieves, whose looks the owner gets.
fn disarmed(
    alloc: Global,
    robbers: Vec<Robber>,
    looks: &mut [Option<Look>],
    whole: &mut bool,
) -> Result<Rows<Thief>, NoMemory>
    requires { All (λ r. length r.looks.items ≡ length looks.old) robbers.items }
    ensures width { length looks.new ≡ length looks.old }
    ensures count { IfOk result (λ thieves. length thieves ≡ length robbers.items) }
    ensures of_relay { (owner : OwnerOf) → All (λ r. IsThiefOf owner r.thief) robbers.items → IfOk result (All (IsThiefOf owner)) }
    ensures looks { (s : Batches) (batch took : List ℕ) → AreLooksAt s batch took looks.old whole.old
        → All (IsRobber s batch) robbers.items → IfOk result (λ thieves. AreLooksAt s batch (took ++ concat (map took_by thieves)) looks.new whole.new) }
{
    let mut rest = robbers;
    let mut thieves = Rows::new(alloc);
    'robbers: while let Some(robber) = rest.pop() {
        let Robber {
            thief,
            looks: theirs,
            whole: all,
        } = robber;
        bring(looks, theirs);
        *whole = both(*whole, all);
        thieves.push(thief)?;
    }
    Ok(thieves)
}

// The owner looks at the paths whose places are left.
fn look_at_left(
    search: &Search,
    batch: &[u32],
    left: &[u32],
    looks: &mut [Option<Look>],
    whole: &mut bool,
)
    requires batch { HasBatch search.now batch.now }
    requires count { length looks.old ≡ length batch.now }
    ensures count { length looks.new ≡ length looks.old }
    ensures looks { (took : List ℕ) → AreLooksAt search.now batch.now took looks.old whole.old → AreLooksAt search.now batch.now (took ++ left.now) looks.new whole.new }
{
    'left: for i in 0..left.len() {
        look_into(search, batch, left[i], looks, whole);
    }
}

// The looks of the thieves are brought to the owner's, the relay is closed, and its owner looks at what is left. No look is
// lost.
fn wind_up(
    alloc: Global,
    search: &Search,
    batch: &[u32],
    owner: Owner,
    robbers: Vec<Robber>,
    looks: &mut [Option<Look>],
    whole: &mut bool,
) -> Result<(), NoMemory>
    requires batch { HasBatch search.now batch.now }
    requires looks { AreLooksAt search.now batch.now owner.took looks.old whole.old }
    requires robbers { All (IsRobber search.now batch.now) robbers.items }
    requires of_relay { All (λ r. IsThiefOf owner r.thief) robbers.items }
    requires all { owner.thieves ≡ length robbers.items }
    requires pushed { (k : ℕ) → k < length batch.now → 0 < occurrences k owner.pushed }
    ensures count { length looks.new ≡ length looks.old }
    ensures looks { OnOk result (AreLooks search.now batch.now looks.new) }
    ensures whole { OnOk result (whole.new ≡ true → IsLookedAt batch.now looks.new) }
{
    let thieves = disarmed(alloc, robbers, looks, whole)?;
    let left = close(alloc, owner, thieves)?;
    look_at_left(search, batch, left.as_slice(), looks, whole);
    Ok(())
}

// The looks of all, where none was refused.
pub(crate) fn gathered(
    alloc: Global,
    search: &Search,
    batch: &[u32],
    boss: Boss,
    robbers: Vec<Robber>,
) -> Result<Vec<Option<Look>>, NoMemory>
    requires batch { HasBatch search.now batch.now }
    requires boss { IsBoss search.now batch.now boss }
    requires robbers { All (IsRobber search.now batch.now) robbers.items }
    requires of_relay { All (λ r. IsThiefOf boss.owner r.thief) robbers.items }
    requires all { boss.owner.thieves ≡ length robbers.items }
    requires pushed { (k : ℕ) → k < length batch.now → 0 < occurrences k boss.owner.pushed }
    ensures count { IfOk result (λ looks. length looks.items ≡ length batch.now) }
    ensures looks { IfOk result (λ looks. AreLooks search.now batch.now looks.items) }
    ensures whole { IfOk result (λ looks. IsLookedAt batch.now looks.items) }
{
    let Boss {
        owner,
        mut looks,
        mut whole,
    } = boss;
    wind_up(alloc, search, batch, owner, robbers, &mut looks, &mut whole)?;
    if whole { Ok(looks) } else { Err(NoMemory) }
}
