ghost use Rattle.std.specs.Prelude.{◌≡◌, ◌<◌, ◌≤◌, ◌+◌, ◌/◌, ◌++◌, ◌∷◌, [], Bool, cond, ltb, length, Option, filter, take};

use crate::find;

// Entries of two words at the front of a lent slice. The slice is words and no pairs, since C lends it to the benchmark as words;
// std's `as_chunks_mut` would make pairs of them, but promises nothing of what the slice ends as. Which slice it is (`Lent`), that it
// stays the same, as long, and how many entries are added (`Keeps`, `Grows`), are facts about before and after, which no ghost field
// can hold.
#[derive(Drop)]
pub struct Entries<'a, W> {
    words: &'a mut [W],
    n: usize,
    ghost fits: { n ≤ length words.now / 2 },
}

impl<'a, W: Copy> Entries<'a, W> {
    ghost use Rattle.note_entries.specs.Storage.{listed, room, Lent, Keeps};

    pub fn new(words: &'a mut [W]) -> Entries<'a, W>
        ensures none { listed result ≡ [] }
        ensures lent { Lent words.entry result }
        ensures kept { result.words.now ≡ words.old }
        ensures count { result.n ≡ 0 }
    {
        Entries { words, n: 0 }
    }

    // How many entries there are.
    pub fn len(&self) -> usize
        ensures { result ≡ self.now.n }
    {
        let Entries { n, .. } = self;
        *n
    }

    // The words that they lie in.
    pub fn words(&self) -> &[W]
        ensures { result.now ≡ self.now.words.now }
    {
        self.words
    }

    // Keeps the first m entries.
    pub fn truncate(&mut self, m: usize)
        ensures first { listed self.new ≡ take m (listed self.old) }
        ensures keeps { Keeps 0 self.new self.old }
        ensures kept { self.new.words.now ≡ self.old.words.now }
    {
        self.n = usize::min(self.n, m);
    }

    // Adds an entry, if the slice has room.
    pub fn push(&mut self, r: W, v: W)
        ensures one { listed self.new ≡ cond (room self.old) (listed self.old ++ (r, v) ∷ []) (listed self.old) }
        ensures keeps { Keeps 1 self.new self.old }
    {
        let n = self.n;
        if self.words.len() / 2 <= n {
            return;
        }
        self.words[2 * n] = r;
        self.words[2 * n + 1] = v;
        self.n = n + 1;
    }

    // Keeps, in order, the entries that pass a test.
    pub fn retain<F: Fn(W, W) -> bool>(&mut self, kept: F)
        requires { F.IsAlwaysCallable kept }
        ensures kept { (p : W × W → Bool) → ((r v : W) (b : Bool) → F.post kept r v b → b ≡ p (r, v))
            → listed self.new ≡ filter p (listed self.old) }
        ensures keeps { Keeps 0 self.new self.old }
    {
        let n = self.n;
        let mut z = 0;
        for k in 0..n {
            let r = self.words[2 * k];
            let v = self.words[2 * k + 1];
            self.words[2 * z] = r;
            self.words[2 * z + 1] = v;
            z += kept(r, v) as usize;
        }
        self.n = z;
    }
}

impl<'a, W: Copy + PartialEq> Entries<'a, W> {
    ghost use Rattle.note_entries.specs.Storage.{listed, first_with};

    // What the first entry of a word says.
    pub fn find(&self, r: W) -> Option<W>
        ensures { result ≡ first_with W.eq r (listed self.now) }
    {
        find::find(self.words, self.n, r)
    }
}
