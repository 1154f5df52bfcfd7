ghost use Rattle.std.specs.Prelude.{◌≡◌, ◌<◌};
ghost use Rattle.records.specs.Record.{record_at};
ghost use Rattle.codec.specs.Codec.{inst_of};
ghost use Rattle.roles.specs.Roles.{operands_of, numbers_of};
ghost use Rattle.procedure.specs.Procedure.{codes_of};
ghost use Rattle.facts.specs.Storage.{cap, operands_in};
ghost use Rattle.count_facts.specs.Filling.{over, counted, count_inst, fact_step, fact_code};

use crate::class;
use inst::{AddrSpace, BoolOp, Kind, Reg, Regs};
use ops::{Numbered, Paired};

// A column of the table's rows that counts, and where its counts end.
#[derive(Clone, Copy)]
struct Column {
    at: usize,
    most: u64,
    ghost within: { at < 5 },
}

const DEFINITIONS: Column = Column {
    at: facts::DEFINITIONS,
    most: 255,
};

const USES: Column = Column {
    at: facts::USES,
    most: u32::MAX as u64,
};

impl Column {
    // Adds one in a register's row, up to `most`, which is no branch; does nothing if the table has no such place.
    #[tactic(auto, unfolding(crate::specs::Filling::bumped))]
    fn bump(self, table: &mut [u64], r: Reg)
        ensures { table.new ≡ counted self.at self.most table.old r.0 }
    {
        let at = facts::ROW * (r.0 as usize) + self.at;
        if at < table.len() {
            let x = table[at];
            table[at] = x + u64::from(x < self.most);
        }
    }

    // Counts each of some registers.
    fn bump_each(self, table: &mut [u64], regs: &[Reg])
        ensures { table.new ≡ over (counted self.at self.most) table.old (numbers_of regs.now) }
    {
        for r in regs {
            self.bump(table, *r);
        }
    }

    // Counts the operands of a list, from the operand records.
    fn bump_list(self, table: &mut [u64], operands: &[u8], list: Regs)
        ensures { table.new ≡ over (counted self.at self.most) table.old (operands_of (operands_in operands.now) list) }
    {
        let start = list.start as usize;
        let len = list.len as usize;
        for k in 0..len {
            if operands.len() / 32 <= start + k {
                return;
            }
            let r = items::operand_of(records::record_at(operands, start + k));
            self.bump(table, r);
        }
    }
}

// Counts some registers that are written, and then some that are read.
fn count_fields(table: &mut [u64], written: &[Reg], read: &[Reg])
    ensures { table.new
        ≡ over (counted 2 cap) (over (counted 1 255) table.old (numbers_of written.now)) (numbers_of read.now) }
{
    DEFINITIONS.bump_each(table, written);
    USES.bump_each(table, read);
}

// The definitions and the uses of record k, by its roles. The table and the operands stand apart: one is written and the other
// read, and the definitions, like most kinds of record, are counted with the table alone. It isn't inlined, so the loop of `count`
// makes no room for an instruction: otherwise drawn files of 240 instructions take 1.6 % more instructions.
#[inline(never)]
#[tactic(auto, using(crate::proofs::Laws::over_append))]
fn count_inst(table: &mut [u64], operands: &[u8], code: &[u8], k: usize)
    ensures { table.new ≡ count_inst (operands_in operands.now) table.old (inst_of (record_at code.now k)) }
{
    let q = roles::roles_of(codec::inst_of(records::record_at(code, k)));
    count_fields(table, q.written(), q.read());
    USES.bump_list(table, operands, q.list());
}

// All that record k adds to the table. The most common kinds are counted by its fields, the others by their roles: by their roles
// alone, drawn files of 240 instructions took 25.8 % more instructions (docs/DECISIONS.md). A kind past the last reads as Stmt,
// but goes by its roles too: so one jump tells all kinds apart, and no test of Stmt, about half of a drawn file's records, stands
// before it. It is inlined into the loop, which knows that the record is there: with a call it took 17 % more.
#[inline(always)]
#[tactic(auto, using(codec::proofs::Table::inst_by_kind), unfolding(crate::specs::Filling::over, crate::specs::Filling::class_step, ends::specs::Forms::form_of))]
fn count_record(table: &mut [u64], operands: &[u8], code: &[u8], k: usize)
    ensures { table.new ≡ fact_step (operands_in operands.now) table.old (inst_of (record_at code.now k)) }
{
    let r = records::record_at(code, k);
    let q1 = Reg(r.p1);
    let q2 = Reg(r.p2);
    let q3 = Reg(r.p3);
    let q4 = Reg(r.p4);
    match Kind::from(r.kind) {
        Kind::Const => {
            count_fields(table, &[q1], &[]);
            class::put_word(table, q1, codec::word_of(r.p2, r.p3));
        }
        Kind::ConstF => {
            count_fields(table, &[q1], &[]);
            class::put_konst(table, q1);
        }
        Kind::AddrOf => {
            count_fields(table, &[q1], &[]);
            class::put_address(table, q1, AddrSpace::of_two(r.op, r.p2));
        }
        Kind::Move | Kind::Load | Kind::DopeLen | Kind::Alloc => count_fields(table, &[q1], &[q2]),
        Kind::Cmp | Kind::Bin => count_fields(table, &[q1], &[q2, q3]),
        Kind::Select | Kind::BoundsLen => count_fields(table, &[q1], &[q2, q3, q4]),
        Kind::BinRange => count_fields(table, &[q1], &[q2, q3, q4, Reg(r.p5)]),
        Kind::Bool => match BoolOp::of(r.op) {
            BoolOp::And | BoolOp::Or | BoolOp::Xor => count_fields(table, &[q1], &[q2, q3]),
            BoolOp::Not => count_fields(table, &[q1], &[q2]),
        },
        Kind::Store => count_fields(table, &[], &[q1, q2]),
        Kind::CondBr | Kind::Case => count_fields(table, &[], &[q1]),
        Kind::Br | Kind::Unreachable => {}
        Kind::Stmt if r.kind == u32::from(Kind::Stmt) => {}
        _ => count_inst(table, operands, code, k),
    }
}

// Counts the definitions and uses of each register, and stores its class.
pub fn count(code: &[u8], operands: &[u8], table: &mut [u64])
    ensures { table.new ≡ over (fact_code (operands_in operands.now)) table.old (codes_of code.now) }
{
    for k in 0..code.len() / 32 {
        count_record(table, operands, code, k);
    }
}
