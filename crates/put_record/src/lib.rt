// A record written to its 32 bytes.
#![tactic(auto)]

ghost use Rattle.std.specs.Prelude.{◌≡◌, [], ◌∷◌, ℕ, ◌+◌, ◌*◌, ◌/◌, ◌%◌, ◌≤◌, ◌<◌, length};
ghost use Rattle.std.proofs.lemmas.List.Edits.{sets};
ghost use Rattle.put_record.specs.Store.{byte_of, word_bytes, tag_bytes, record_bytes, put_of};

use records::Record;

// A number's low byte. A cast alone isn't proved to be byte_of: a cast must lose nothing.
fn low(x: u32) -> u8
    ensures { result ≡ byte_of x }
{
    (x % 256) as u8
}

// Writes the four bytes of a word, starting at a byte.
fn put_word(b: &mut [u8], at: usize, x: u32)
    requires { at + 4 ≤ length b.old }
    ensures { b.new ≡ sets b.old at (word_bytes x) }
{
    b[at..at + 4].copy_from_slice(&x.to_le_bytes());
}

// Writes the first four bytes of a record.
fn put_tag(b: &mut [u8], at: usize, r: Record)
    requires { at + 4 ≤ length b.old }
    ensures { b.new ≡ sets b.old at (tag_bytes r) }
{
    b[at..at + 4].copy_from_slice(&[low(r.class), low(r.kind), low(r.op), low(r.zero)]);
}

fn put_in(b: &mut [u8], at: usize, r: Record)
    requires { at + 32 ≤ length b.old }
    ensures { b.new ≡ sets b.old at (record_bytes r) }
{
    put_tag(b, at, r);
    put_word(b, at + 4, r.stmt);
    put_word(b, at + 8, r.p1);
    put_word(b, at + 12, r.p2);
    put_word(b, at + 16, r.p3);
    put_word(b, at + 20, r.p4);
    put_word(b, at + 24, r.p5);
    put_word(b, at + 28, r.p6);
}

// Writes record k of some bytes; does nothing if they have no record k.
pub fn put_record(b: &mut [u8], k: usize, r: Record)
    ensures { b.new ≡ put_of b.old k r }
{
    if k < b.len() / 32 {
        put_in(b, 32 * k, r);
    }
}
