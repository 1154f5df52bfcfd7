// The f64 of a ConstF, kept bit for bit.
#![tactic(auto)]

ghost use Rattle.std.specs.Prelude.{◌≡◌};
ghost use Rattle.real.specs.Real.{real_of, bits_of};

// An f64 kept bit for bit. A NaN is kept as its bits, since the logic's f64 has only one NaN.
#[derive(Clone, Copy)]
pub enum Real {
    Number(f64),
    Nan(u64),
}

// Functions and no From: a u64 may be any word, and the names say that these are an f64's bits.
pub fn real_of(bits: u64) -> Real
    ensures { result ≡ real_of bits }
{
    let unsigned = bits % 0x8000_0000_0000_0000;
    if 0x7FF0_0000_0000_0000 < unsigned {
        Real::Nan(bits)
    } else {
        Real::Number(f64::from_bits(bits))
    }
}

pub fn bits_of(r: Real) -> u64
    ensures { result ≡ bits_of r }
{
    match r {
        Real::Number(x) => {
            if x == x {
                f64::to_bits(x)
            } else {
                0x7FF8_0000_0000_0000
            }
        }
        Real::Nan(b) => b,
    }
}
