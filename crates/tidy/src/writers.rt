ghost use Rattle.std.specs.Prelude.{◌≡◌, List, map, ◌+◌, ◌≤◌, ◌<◌, length};
ghost use Rattle.records.specs.Record.{records_of};
ghost use Rattle.read.specs.Work.{part};
ghost use Rattle.inst.specs.Kinds.{number_of};
ghost use Rattle.codec.specs.Codec.{code_of};
ghost use Rattle.roles.specs.Roles.{numbers_of};
ghost use Rattle.tidy.specs.Tidy.{placed_in, placed_from, written};
ghost use Rattle.tidy.specs.Work.Parts.{blocks_in};
ghost use Rattle.tidy.specs.Work.Writers.{WrittenBy, noted, held, one_at as oneAt, joined_entry, enter, enter_all, entered, written_at};

use crate::file::{File, Part};
use inst::{BlockId, Kind, Reg};

// A place of the code: a block, and an instruction of it.
#[derive(Clone, Copy)]
struct At {
    block: BlockId,
    place: u32,
    ghost low: { block.0 < 160 },
    ghost near: { place ≤ 2048 },
}

// What the reads of a register are checked by: that nothing writes it, or the place of the one register field that does. An
// address has a rule of its own. A register is free, so that no read of it is wrong, if its one writer is a Const or ConstF, or it
// has more than one.
// It has four bytes: with a BlockId and a place of u32 it has twelve, and a file's 756 writers take 6,048 bytes more of the 8,192
// of stack that include/halivomue.h promises.
#[derive(Clone, Copy)]
pub enum Writer {
    Nothing,
    Free,
    Address { block: u8, place: u16 },
    Other { block: u8, place: u16 },
}

// An instruction as the one writer of a register.
fn one_at(kind: Kind, at: At) -> Writer
    ensures { result ≡ oneAt (number_of kind) at.block.0 at.place }
{
    let block = at.block.0 as u8;
    let place = at.place as u16;
    match kind {
        Kind::Const | Kind::ConstF => Writer::Free,
        Kind::AddrOf => Writer::Address { block, place },
        _ => Writer::Other { block, place },
    }
}

impl Writer {
    // With one more: an instruction of this kind.
    fn with(self, kind: Kind, at: At) -> Writer
        ensures { result ≡ joined_entry self (oneAt (number_of kind) at.block.0 at.place) }
    {
        match self {
            Writer::Nothing => one_at(kind, at),
            _ => Writer::Free,
        }
    }
}

// Adds a writer of r.
#[tactic(auto, using(crate::proofs::Tables::note_out, crate::proofs::Tables::note_in))]
fn note_write(ws: &mut [Writer], r: Reg, kind: Kind, at: At)
    ensures { ws.new ≡ enter ws.old r.0 (oneAt (number_of kind) at.block.0 at.place) }
{
    let k = r.0 as usize;
    if k < ws.len() {
        ws[k] = ws[k].with(kind, at);
    }
}

fn note_defs(ws: &mut [Writer], written: &[Reg], kind: Kind, at: At)
    ensures { ws.new ≡ enter_all ws.old (oneAt (number_of kind) at.block.0 at.place) (numbers_of written.now) }
{
    for r in written {
        note_write(ws, *r, kind, at);
    }
}

fn note_inst(b: &[u8], k: usize, at: At, ws: &mut [Writer])
    ensures { ws.new ≡ entered ws.old (written_at b.now k at.block.0 at.place) }
{
    let i = ends::inst_at(b, k);
    note_defs(ws, roles::roles_of(i).written(), i.kind(), at);
}

fn note_block(b: &[u8], p: Part, ws: &mut [Writer])
    requires { p.first + p.count ≤ length (records_of b.now) }
    ensures { ws.new ≡ entered ws.old (written (placed_in p.block.0 0 (map code_of (part p.first p.count (records_of b.now))))) }
{
    for k in 0..p.count {
        let at = At {
            block: p.block,
            place: k as u32,
        };
        note_inst(b, p.first + k, at, ws);
    }
}

// The writers of all registers.
pub fn note_blocks(f: File, ws: &mut [Writer])
    ensures table { ws.new ≡ entered ws.old (written (placed_from 0 (blocks_in (records_of f.entry.b.now) f.entry.l))) }
    ensures writers { (us : List WrittenBy) → ws.old ≡ map held us
        → ws.new ≡ map held (noted us (written (placed_from 0 (blocks_in (records_of f.entry.b.now) f.entry.l)))) }
{
    for k in 0..f.blocks() {
        note_block(f.b, f.part(k), ws);
    }
}
