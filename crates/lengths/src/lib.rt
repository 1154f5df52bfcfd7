// What `slice_tests` knows of lengths within a block, as rows in a lent slice.
#![tactic(auto)]

ghost use Rattle.std.specs.Prelude.{◌≡◌, ◌<◌, ◌≤◌, ◌+◌, ◌++◌, ◌∷◌, [], ◌&&◌, not, Bool, true, length, eqb, filter, option_map};
ghost use Rattle.steps.specs.Slice as steps;

use inst::Reg;

// What a row says: the bounds in the block of memory that a register points to, the register of that block by the register of its
// length, or the bounds by the register of a BoundsLen's length.
#[derive(Clone, Copy, Default, PartialEq)]
pub enum What {
    #[default]
    Made,
    Measured,
    Known,
}

// The registers that hold the bounds of a range, and whether it goes down.
#[derive(Clone, Copy, Default)]
pub struct Bounds {
    pub left: Reg,
    pub right: Reg,
    pub down: bool,
}

// The bounds are fields here and no Bounds, so that a row has 16 bytes and not 20.
#[derive(Clone, Copy, Default)]
pub struct Row {
    key: Reg,
    left: Reg,
    right: Reg,
    what: What,
    down: bool,
}

impl Row {
    ghost use Rattle.lengths.specs.Storage.{same, bounds_at, row_of, stays};

    fn new(what: What, key: Reg, b: Bounds) -> Row
        ensures { result ≡ row_of what key b }
    {
        Row {
            key,
            left: b.left,
            right: b.right,
            what,
            down: b.down,
        }
    }

    fn bounds(self) -> Bounds
        ensures { result ≡ bounds_at self }
    {
        Bounds {
            left: self.left,
            right: self.right,
            down: self.down,
        }
    }

    // A row of a kind and a register.
    fn is(self, what: What, r: Reg) -> bool
        ensures { result ≡ same self.what what && eqb self.key.0 r.0 }
    {
        self.what == what && self.key == r
    }

    // A row that stays when d is written.
    fn stays(self, d: Reg) -> bool
        ensures { result ≡ stays d.0 self }
    {
        self.key != d && self.left != d && (self.what == What::Measured || self.right != d)
    }
}

// The rows at the front of a lent slice.
#[derive(Drop)]
pub struct Lengths<'a> {
    rows: &'a mut [Row],
    n: usize,
    ghost fits: { n ≤ length rows.now },
}

impl<'a> Lengths<'a> {
    ghost use Rattle.lengths.specs.Storage.{bounds_in, entries, stays, listed, lengths_in, Keeps};

    // Keeps, in order, the rows that pass a test.
    fn retain<F: Fn(Row) -> bool>(&mut self, kept: F)
        requires { F.IsAlwaysCallable kept }
        ensures kept { (p : Row → Bool) → ((x : Row) (b : Bool) → F.post kept x b → b ≡ p x)
            → listed self.new ≡ filter p (listed self.old) }
        ensures keeps { Keeps 0 self.new self.old }
    {
        let n = self.n;
        let mut z = 0;
        for k in 0..n {
            let x = self.rows[k];
            if kept(x) {
                self.rows[z] = x;
                z += 1;
            }
        }
        self.n = z;
    }

    // Adds a row, if the slice has room.
    fn push(&mut self, x: Row)
        ensures one { self.old.n < length self.old.rows.now → listed self.new ≡ listed self.old ++ x ∷ [] }
        ensures keeps { Keeps 1 self.new self.old }
    {
        let n = self.n;
        if n < self.rows.len() {
            self.rows[n] = x;
            self.n = n + 1;
        }
    }

    // The bounds in the first row of a kind and a register.
    fn find(&self, what: What, r: Reg) -> Option<Bounds>
        ensures { result ≡ steps.entry r.0 (entries what (λ b. b) (listed self.now)) }
    {
        for k in 0..self.n {
            let x = self.rows[k];
            if x.is(what, r) {
                return Some(x.bounds());
            }
        }
        None
    }

    // Nothing is known.
    #[tactic(auto, unfolding(crate::specs::Storage::entries))]
    pub fn new(rows: &'a mut [Row]) -> Lengths<'a>
        ensures nothing { lengths_in result ≡ steps.no_lengths }
        ensures long { length result.rows.now ≡ length rows.old }
        ensures count { result.n ≡ 0 }
    {
        Lengths { rows, n: 0 }
    }

    // Forgets all.
    #[tactic(auto, unfolding(crate::specs::Storage::entries))]
    pub fn clear(&mut self)
        ensures nothing { lengths_in self.new ≡ steps.no_lengths }
        ensures long { length self.new.rows.now ≡ length self.old.rows.now }
        ensures count { self.new.n ≡ 0 }
    {
        self.n = 0;
    }

    // True implies that nothing is known.
    #[tactic(auto, unfolding(crate::specs::Storage::entries))]
    pub fn is_empty(&self) -> bool
        ensures { result ≡ true → lengths_in self.now ≡ steps.no_lengths }
    {
        self.n == 0
    }

    // True implies that every row stays when d is written.
    fn all_stay(&self, d: Reg) -> bool
        ensures { result ≡ true → filter (stays d.0) (listed self.now) ≡ listed self.now }
    {
        for k in 0..self.n {
            if !self.rows[k].stays(d) {
                return false;
            }
        }
        true
    }

    // What is known after a write of d. Mostly every row stays, and then none is written.
    pub fn forget(&mut self, d: Reg)
        ensures known { lengths_in self.new ≡ steps.forget d.0 (lengths_in self.old) }
        ensures keeps { Keeps 0 self.new self.old }
    {
        if !self.all_stay(d) {
            self.retain(|x| x.stays(d));
        }
    }

    // The bounds of the range whose length a register holds.
    #[tactic(auto, using(crate::proofs::Rows::bounds_known, crate::proofs::Rows::bounds_none, crate::proofs::Rows::bounds_made))]
    pub fn bounds_of(&self, a: Reg) -> Option<Bounds>
        ensures { option_map bounds_in result ≡ steps.bounds_of a.0 (lengths_in self.now) }
    {
        match self.find(What::Known, a) {
            Some(b) => Some(b),
            None => match self.find(What::Measured, a) {
                Some(b) => self.find(What::Made, b.left),
                None => None,
            },
        }
    }

    // Whether the bounds in a register's block of memory are known.
    pub fn is_made(&self, at: Reg) -> bool
        ensures { result ≡ steps.some (steps.entry at.0 (lengths_in self.now).made) }
    {
        self.find(What::Made, at).is_some()
    }

    // Adds the bounds in a register's block of memory, in place of earlier ones.
    pub fn add_made(&mut self, at: Reg, b: Bounds)
        ensures made { self.old.n < length self.old.rows.now
            → lengths_in self.new ≡ steps.with_made at.0 (bounds_in b) (lengths_in self.old) }
        ensures keeps { Keeps 1 self.new self.old }
    {
        self.retain(|x| !x.is(What::Made, at));
        self.push(Row::new(What::Made, at, b));
    }

    // Adds the register of the block of memory whose length d holds.
    pub fn add_measured(&mut self, d: Reg, at: Reg)
        ensures measured { self.old.n < length self.old.rows.now
            → lengths_in self.new ≡ steps.with_measured d.0 at.0 (lengths_in self.old) }
        ensures keeps { Keeps 1 self.new self.old }
    {
        let block = Bounds {
            left: at,
            right: at,
            down: false,
        };
        self.push(Row::new(What::Measured, d, block));
    }

    // Adds the bounds of the range whose length d holds.
    pub fn add_known(&mut self, d: Reg, b: Bounds)
        ensures known { self.old.n < length self.old.rows.now
            → lengths_in self.new ≡ steps.with_known d.0 (bounds_in b) (lengths_in self.old) }
        ensures keeps { Keeps 1 self.new self.old }
    {
        self.push(Row::new(What::Known, d, b));
    }
}
