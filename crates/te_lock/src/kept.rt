ghost use Rattle.std.specs.Prelude.{◌≡◌, ℕ, List, length};

/// A value that a lock keeps: it stands for a list of entries, each made by one caller.
///
/// The notion is this project's own.
pub trait Kept: Drop {
    /// One entry of the list.
    type Entry;

    // The list that the value stands for.
    ghost entries: { Self → List Self.Entry };
    // How many callers may add entries.
    ghost members: { Self → ℕ };
    // The caller number of an entry.
    ghost author: { Self.Entry → ℕ };
    // The law that such a list meets, with that number of callers.
    ghost lawful: { ℕ → List Self.Entry → Type 0 };

    /// How many entries the list has. Whoever calls it also learns that the list meets the law.
    fn length(&self) -> u64
        ensures counted { result ≡ length (entries self.now) }
        ensures lawful { lawful (members self.now) (entries self.now) };

    /// How many callers may add entries.
    fn callers(&self) -> u32
        ensures { result ≡ members self.now };
}
