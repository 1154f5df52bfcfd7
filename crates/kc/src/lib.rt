// Which registers some code writes once, by a Const 0 or a Const 1.
#![tactic(auto)]

ghost use Rattle.std.specs.Prelude.{◌≡◌, Some, get_or};
ghost use Rattle.records.specs.Record.{record_at};
ghost use Rattle.codec.specs.Codec.{inst_of};
ghost use Rattle.procedure.specs.Procedure.{codes_of};
ghost use Rattle.procedure.specs.Lists.{holds};
ghost use Rattle.steps.specs.Slice.{is_down};
ghost use Rattle.kc.specs.declared.Kc.TheVariants.{Unwritten};
ghost use Rattle.kc.specs.Storage.{kc_in, by_word, marked, written, with_inst, with_code};

use inst::{Kind, Reg};
use ops::Paired;

// What writes a register: nothing, one Const 0, one Const 1, or anything else.
#[derive(Clone, Copy, Default)]
pub enum Kc {
    #[default]
    Unwritten,
    Zero,
    One,
    Other,
}

// What writes a register: nothing, if it is past the table.
#[inline(always)]
fn kc_at(table: &[Kc], r: Reg) -> Kc
    ensures { result ≡ get_or table.now r.0 Unwritten }
{
    let at = r.0 as usize;
    if at < table.len() {
        table[at]
    } else {
        Kc::Unwritten
    }
}

// Whether the register is taken for the constant 0.
#[tactic(auto, unfolding(crate::specs::Storage::kc_in))]
pub fn is_zero(table: &[Kc], r: Reg) -> bool
    ensures { result ≡ holds (kc_in table.now r.0) 0 }
{
    match kc_at(table, r) {
        Kc::Zero => true,
        Kc::Unwritten | Kc::One | Kc::Other => false,
    }
}

// The direction that a register holds, if it is taken for the constant 0, up, or 1, down.
#[tactic(auto, unfolding(crate::specs::Storage::kc_in))]
pub fn direction(table: &[Kc], r: Reg) -> Option<bool>
    ensures { result ≡ is_down (kc_in table.now r.0) }
{
    match kc_at(table, r) {
        Kc::Zero => Some(false),
        Kc::One => Some(true),
        Kc::Unwritten | Kc::Other => None,
    }
}

// What a Const of v makes of a register.
fn by_word(v: u64) -> Kc
    ensures { result ≡ by_word (Some v) }
{
    match v {
        0 => Kc::Zero,
        1 => Kc::One,
        _ => Kc::Other,
    }
}

// What a register is once it is written again.
fn marked(had: Kc, k: Kc) -> Kc
    ensures { result ≡ marked had k }
{
    match had {
        Kc::Unwritten => k,
        Kc::Zero | Kc::One | Kc::Other => Kc::Other,
    }
}

// Marks a register as written. One past the table is skipped.
#[inline(always)]
#[tactic(auto, unfolding(crate::specs::Storage::written))]
fn write(table: &mut [Kc], r: Reg, k: Kc)
    ensures { table.new ≡ written k table.old r.0 }
{
    let at = r.0 as usize;
    if at < table.len() {
        table[at] = marked(table[at], k);
    }
}

// Marks what record k writes, by its fields.
#[inline(always)]
#[tactic(auto, using(codec::proofs::Table::inst_by_kind), unfolding(crate::specs::Storage::written_each, ends::specs::Forms::form_of, ends::specs::Forms::fixed_of))]
fn write_record(table: &mut [Kc], code: &[u8], k: usize)
    ensures { table.new ≡ with_inst table.old (inst_of (record_at code.now k)) }
{
    let r = records::record_at(code, k);
    let q1 = Reg(r.p1);
    match Kind::from(r.kind) {
        Kind::Const => write(table, q1, by_word(codec::word_of(r.p2, r.p3))),
        Kind::ConstF
        | Kind::Move
        | Kind::AddrOf
        | Kind::Select
        | Kind::Cmp
        | Kind::Bool
        | Kind::Bin
        | Kind::BinRange
        | Kind::Load
        | Kind::DopeLen
        | Kind::BoundsLen
        | Kind::Alloc => write(table, q1, Kc::Other),
        Kind::TakeBounds => {
            write(table, q1, Kc::Other);
            write(table, Reg(r.p2), Kc::Other);
            write(table, Reg(r.p3), Kc::Other);
        }
        Kind::CallNative => {
            if let Some(d) = Option::<Reg>::of_two(r.op, r.p4) {
                write(table, d, Kc::Other);
            }
        }
        Kind::Store
        | Kind::Check
        | Kind::MakeDope
        | Kind::Br
        | Kind::CondBr
        | Kind::Case
        | Kind::Ret
        | Kind::Unreachable
        | Kind::Stmt => {}
    }
}

// Marks what each instruction writes, from the last to the first, in a table that is all Unwritten at first.
pub fn fill(code: &[u8], table: &mut [Kc])
    ensures { table.new ≡ with_code table.old (codes_of code.now) }
{
    let mut k = code.len() / 32;
    while k > 0 {
        k -= 1;
        write_record(table, code, k);
    }
}
