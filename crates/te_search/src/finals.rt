// The final paths of a search, in the order of assembling, and those that may be of one thread.

ghost use Rattle.std.specs.Prelude.{◌≡◌, ◌<◌, ℕ, [], ◌∷◌, ◌++◌, length, take, cond, nat_eq, min, true, OnOk, OnErr};
ghost use Rattle.te_pair.specs.Places.{without_last};
ghost use Rattle.te_search.specs.Finals.{numbers_at, bucket_numbers};

use std::alloc::Global;
use std::marker::Model;
use te_terms::NoMemory;

// The threads below this one have a bucket each, and all others share one.
const SHARED: usize = 64;

/// A final path, and its thread.
#[derive(Clone, Copy)]
pub(crate) struct Final {
    pub(crate) path: u32,
    pub(crate) thread: u32,
}

/// The final paths of a search, in the order of assembling, each with its thread. Beside them stand the numbers of those
/// of each thread, so that none but these need to be looked at.
#[derive(Drop)]
pub(crate) struct Finals {
    alloc: Global,
    kept: Vec<Final>,
    buckets: Vec<Vec<u32>>,
}

impl Model for Finals {
    ghost use Rattle.std.specs.Prelude.{List};
    ghost use Rattle.te_search.specs.declared.finals.Final.{Final};
    ghost use Rattle.te_search.specs.Finals.{IsSorted};

    ghost Value = { List Final };

    ghost view = { λ f. f.kept.items };

    ghost invariant = { λ f. IsSorted f.kept.items f.buckets.items };
}

impl Finals {
    /// None yet. It takes no memory.
    pub(crate) fn new(alloc: Global) -> Finals
        ensures { result ≡ [] }
    {
        Finals {
            alloc,
            kept: Vec::new(alloc),
            buckets: Vec::new(alloc),
        }
    }

    /// How many there are.
    pub(crate) fn len(&self) -> usize
        ensures { result ≡ length self.now }
    {
        self.kept.len()
    }

    /// The numbers of the final paths in the bucket of a thread, in the order of assembling. Those of the thread are all
    /// among them.
    pub(crate) fn bucket(&self, thread: u32) -> &[u32]
        ensures { result.now ≡ bucket_numbers (min thread 64) self.now }
    {
        match self.buckets.get(bucket_of(thread)) {
            Some(there) => there.as_slice(),
            None => &[],
        }
    }

    /// Whether the bucket of a thread is empty: then it has no final path.
    pub(crate) fn lacks(&self, thread: u32) -> bool
        ensures { result ≡ true → bucket_numbers (min thread 64) self.now ≡ [] }
    {
        self.bucket(thread).is_empty()
    }

    /// Puts a final path behind the others. After a refusal, for want of memory, they are as before.
    pub(crate) fn push(&mut self, path: u32, thread: u32) -> Result<(), NoMemory>
        ensures ok { OnOk result (self.new ≡ self.old ++ record { path = path; thread = thread } ∷ []) }
        ensures err { OnErr result (self.new ≡ self.old) }
    {
        self.kept.reserve(1)?;
        let bucket = bucket_of(thread);
        make_buckets(&mut self.buckets, self.alloc, bucket)?;
        add_to(&mut self.buckets, bucket, path)?;
        self.kept.push_reserved(Final { path, thread });
        Ok(())
    }

    /// Goes back to so many.
    pub(crate) fn cut(&mut self, count: usize)
        ensures { self.new ≡ take count self.old }
    {
        'back: while self.kept.len() > count {
            if let Some(last) = self.kept.pop() {
                drop_from(&mut self.buckets, bucket_of(last.thread));
            }
        }
    }
}

fn bucket_of(thread: u32) -> usize
    ensures { result ≡ min thread 64 }
{
    let at = thread as usize;
    if at < SHARED { at } else { SHARED }
}

// Makes empty buckets up to this one.
fn make_buckets(buckets: &mut Vec<Vec<u32>>, alloc: Global, bucket: usize) -> Result<(), NoMemory>
    ensures same { (k : ℕ) → numbers_at buckets.new.items k ≡ numbers_at buckets.old.items k }
    ensures there { OnOk result (bucket < length buckets.new.items) }
{
    'more: while buckets.len() <= bucket {
        buckets.push(Vec::new(alloc))?;
    }
    Ok(())
}

fn add_to(buckets: &mut Vec<Vec<u32>>, bucket: usize, path: u32) -> Result<(), NoMemory>
    requires { bucket < length buckets.old.items }
    ensures ok { OnOk result ((k : ℕ) → numbers_at buckets.new.items k ≡ cond (nat_eq bucket k) (numbers_at buckets.old.items k ++ path ∷ []) (numbers_at buckets.old.items k)) }
    ensures err { OnErr result ((k : ℕ) → numbers_at buckets.new.items k ≡ numbers_at buckets.old.items k) }
{
    if let Some(there) = buckets.get_mut(bucket) {
        there.push(path)?;
    }
    Ok(())
}

// Takes away the last path of a bucket.
fn drop_from(buckets: &mut Vec<Vec<u32>>, bucket: usize)
    ensures { (k : ℕ) → numbers_at buckets.new.items k ≡ cond (nat_eq bucket k) (without_last (numbers_at buckets.old.items k)) (numbers_at buckets.old.items k) }
{
    if let Some(there) = buckets.get_mut(bucket) {
        there.pop();
    }
}
