ghost use Rattle.std.specs.Prelude.{◌≡◌, ◌∷◌, ◌++◌, ◌+◌, ◌*◌, ◌/◌, ◌≤◌, length, get_or, take, drop};
ghost use Rattle.facts.specs.Storage.{rows, kinds_of};
ghost use Rattle.count_facts.specs.Filling.{bare};

// A register's row before anything is counted. Five writes: `copy_from_slice` makes an array and tests whether it overlaps the row,
// and so takes more than twice as many instructions.
fn put_row(table: &mut [u64], at: usize, kind: u32)
    requires { at + 5 ≤ length table.old }
    ensures { table.new ≡ take at table.old ++ (kind ∷ 0 ∷ 0 ∷ 0 ∷ 0 ∷ drop (at + 5) table.old) }
{
    table[at] = kind as u64;
    table[at + facts::DEFINITIONS] = 0;
    table[at + facts::USES] = 0;
    table[at + facts::CLASS] = 0;
    table[at + facts::VALUE] = 0;
}

// The kind of register k: one of those in the records, or of the new ones after them.
fn kind_of(registers: &[u8], kinds: &[u8], k: usize) -> u32
    ensures { result ≡ get_or (kinds_of registers.now ++ kinds.now) k 0 }
{
    let n = registers.len() / 32;
    if k < n {
        let r = records::record_at(registers, k);
        return r.kind;
    }
    kinds.get(k - n).copied().unwrap_or(0) as u32
}

// A row for each register that the table has room for.
pub fn start(registers: &[u8], kinds: &[u8], table: &mut [u64])
    requires { length table.old ≡ 5 * (length table.old / 5) }
    ensures { table.new ≡ rows (length table.old / 5) (bare (kinds_of registers.now ++ kinds.now)) }
{
    for k in 0..table.len() / facts::ROW {
        put_row(table, facts::ROW * k, kind_of(registers, kinds, k));
    }
}
