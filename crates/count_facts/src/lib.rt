// Fills the table of facts: counts definitions and uses, and notes constants.
#![tactic(auto)]

ghost use Rattle.std.specs.Prelude.{◌≡◌, ◌++◌, ◌*◌, ◌/◌, length};
ghost use Rattle.procedure.specs.Procedure.{codes_of};
ghost use Rattle.facts.specs.Storage.{rows, row_of, table_of, kinds_of, operands_in};

mod class;
mod count;
mod start;

// A row for each register of the table. The register records and the new kinds stand apart: one is bytes of a file, the other lent
// storage, and a struct of both would be made for each call and opened only by `start::kind_of`.
fn fill(code: &[u8], operands: &[u8], registers: &[u8], kinds: &[u8], table: &mut [u64])
    requires { length table.old ≡ 5 * (length table.old / 5) }
    ensures { table.new
        ≡ rows (length table.old / 5)
        (row_of (kinds_of registers.now ++ kinds.now) (operands_in operands.now) (codes_of code.now)) }
{
    start::start(registers, kinds, table);
    count::count(code, operands, table);
}

// The facts of some code, with its operand and register records and the kinds of the new registers after these: five words for
// each register that the table has room for. What comes after them stays. The only call so far has no new kinds: a step after
// Emit would have them (docs/ADDING-A-STEP.md).
pub fn facts(code: &[u8], operands: &[u8], registers: &[u8], kinds: &[u8], table: &mut [u64])
    ensures { table.new
        ≡ table_of table.old (kinds_of registers.now ++ kinds.now) (operands_in operands.now)
        (codes_of code.now) }
{
    let n = usize::min(registers.len() / 32 + kinds.len(), table.len() / facts::ROW);
    fill(
        code,
        operands,
        registers,
        kinds,
        &mut table[..facts::ROW * n],
    );
}
