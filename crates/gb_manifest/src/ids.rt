//! Sets of identifiers.

ghost use Rattle.std.specs.Prelude.{◌≡◌, ℕ, ◌<◌, ◌*◌, ◌==◌, ◌||◌, false};
ghost use Rattle.gb_manifest.specs.Declarations.{is_met};

/// How many marks a word has.
const BITS: usize = 64;

/// Identifiers that were met, a mark for each, in `N` words. They are below 64 `N`.
#[derive(Drop)]
pub struct Ids<const N: usize> {
    marks: [u64; N],
}

impl<const N: usize> Ids<N> {
    /// None was met.
    pub fn new() -> Ids<N>
        ensures { (k : ℕ) → is_met result.marks k ≡ false }
    {
        Ids { marks: [0; N] }
    }

    /// Whether an identifier was met.
    pub fn contains(&self, id: usize) -> bool
        requires { id < 64 * N }
        ensures { result ≡ is_met self.now.marks id }
    {
        self.marks[id / BITS] >> (id % BITS) & 1 == 1
    }

    /// Marks an identifier.
    pub fn add(&mut self, id: usize)
        requires { id < 64 * N }
        ensures { (k : ℕ) → is_met self.new.marks k ≡ (id == k || is_met self.old.marks k) }
    {
        self.marks[id / BITS] |= 1u64 << (id % BITS);
    }
}
