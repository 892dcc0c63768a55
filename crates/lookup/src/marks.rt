// A set of sector numbers, in a bit for each.
ghost use Rattle.std.specs.Prelude.{◌≡◌, ℕ, ◌<◌, ◌≤◌, false, ◌||◌, length, ◌==◌};
ghost use Rattle.ring.specs.Searches.{count};
ghost use Rattle.lookup.specs.Bits.{marked, Added};

use crate::walk::Visit;

// The words of the set: enough for 28,672 numbers, one for each slot of the largest ring. An array, since there is no heap.
const WORDS: usize = 448;

// The numbers that are marked.
#[derive(Drop)]
pub struct Marks {
    words: [u64; 448],
    ghost whole: { length words ≡ 448 },
}

impl Marks {
    // A set with no number.
    pub fn none() -> Marks
        ensures { (j : ℕ) → marked result.words j ≡ false }
    {
        Marks { words: [0; WORDS] }
    }

    // Adds a number.
    fn put(&mut self, number: u16)
        requires { number < 28672 }
        ensures { (j : ℕ) → marked self.new.words j ≡ (number == j || marked self.old.words j) }
    {
        self.words[usize::from(number / 64)] |= 1 << (number % 64);
    }

    // Whether a number is in the set.
    fn has(&self, number: u16) -> bool
        requires { number < 28672 }
        ensures { result ≡ marked self.now.words number }
    {
        (self.words[usize::from(number / 64)] >> (number % 64)) % 2 == 1
    }

    // Adds the sector of a slot that counts, if it is below `sectors`.
    pub fn note(&mut self, visit: Visit, sectors: u16)
        requires { sectors ≤ 28672 }
        ensures { Added sectors self.old.words visit self.new.words }
    {
        if visit.counts && visit.sector.0 < sectors {
            self.put(visit.sector.0);
        }
    }

    // How many numbers below `limit` are in the set. Counted one by one: of `filter` and `count` over a range a proof
    // learns how each call of the closure went, and it was not led from there to the count of the definition.
    pub fn count_below(&self, limit: u16) -> u16
        requires { limit ≤ 28672 }
        ensures { result ≡ count (marked self.now.words) limit }
    {
        let mut found = 0;
        for number in 0..limit {
            if self.has(number) {
                found += 1;
            }
        }
        found
    }
}
