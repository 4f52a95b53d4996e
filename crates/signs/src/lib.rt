// Two's complement: signed numbers from 8, 16 and 32 bits, and the 32 bits of one (01: "in two's complement for signed types").
#![tactic(auto)]

ghost use Rattle.std.specs.Prelude.{◌≡◌};
ghost use Rattle.signs.specs.Signed.{signed_of, bits_of};

// The signed number whose 8 bits these are.
#[tactic(auto, using(crate::proofs::Signs::signed_bits))]
pub fn signed8(byte: u8) -> i8
    ensures { result ≡ signed_of 7 byte }
{
    byte.cast_signed()
}

// The signed number whose 16 bits these are.
#[tactic(auto, using(crate::proofs::Signs::signed_bits))]
pub fn signed16(half: u16) -> i16
    ensures { result ≡ signed_of 15 half }
{
    half.cast_signed()
}

// The signed number whose 32 bits these are.
#[tactic(auto, using(crate::proofs::Signs::signed_bits))]
pub fn signed32(word: u32) -> i32
    ensures { result ≡ signed_of 31 word }
{
    word.cast_signed()
}

// The 32 bits of v.
#[tactic(auto, using(crate::proofs::Signs::bits_signed))]
pub fn bits32(v: i32) -> u32
    ensures { result ≡ bits_of 32 v }
{
    v.cast_unsigned()
}
