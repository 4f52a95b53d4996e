// The 58-byte monitor (001; 01, The 58-byte monitor): one record of 58 bytes without marks. Whether bytes are one, and the record with all
// its parts. Indices count from 0.
#![tactic(auto)]

ghost use Rattle.std.specs.Prelude.{◌≡◌, ◌-◌, ◌%◌, ◌≤◌, length, take};
ghost use Rattle.sums.specs.Sums.{total};
ghost use Rattle.old58.specs.Record.{record_of};
ghost use Rattle.old58.specs.Read.{sign_known, ranged, judged_of, reading_of};

use parts_old58::{
    Cell, Energy, Extremes, Pack, Setup, cell_of, energy_of, extremes_of, pack_of, setup_of,
};
use refusals::Refusal;
use sums::sum256;

// What the monitor says, in the order of the bytes.
#[derive(Clone, Copy, Debug, PartialEq, Eq)]
pub struct Record {
    pub pack: Pack,
    pub extremes: Extremes,
    pub cell: Cell,
    pub energy: Energy,
    pub setup: Setup,
}

// The record in the bytes, or why there is none.
#[tactic(auto, unfolding(crate::specs::Read::reading_of))]
pub fn read_record(s: &[u8]) -> Result<Record, Refusal>
    ensures { result ≡ reading_of s.now }
{
    judge(s)?;
    Ok(record_of(s))
}

// Whether the bytes are a record, or why they are none. Who wants its parts one by one reads them after it. All tests of 58 bytes are made
// before the first of them refuses: their order is that of the refusals alone.
#[tactic(auto, unfolding(crate::specs::Read::judged_of))]
pub fn judge(s: &[u8]) -> Result<(), Refusal>
    ensures { result ≡ judged_of s.now }
{
    if s.len() < 58 {
        return Err(Refusal::Short);
    }
    let sum = front_sum(s);
    let no_more = s.len() <= 58;
    let summed = sum == s[57];
    let ranged = in_range(s);
    if !no_more {
        return Err(Refusal::Length);
    }
    if !summed {
        return Err(Refusal::Checksum);
    }
    if !ranged {
        return Err(Refusal::Range);
    }
    Ok(())
}

// The sum of all bytes but the last. It is taken before more than 58 bytes are refused: a sum of 57 bytes, no more and no fewer, would be
// unrolled whole, and the record put together from the registers that it fills, which is slower.
fn front_sum(s: &[u8]) -> u8
    requires { 58 ≤ length s.now }
    ensures { result ≡ total (take (length s.now - 1) s.now) % 256 }
{
    let n = s.len() - 1;
    sum256(&s[0..n])
}

// Whether the three signs and the time are among those that the document has.
#[tactic(auto, unfolding(crate::specs::Read::ranged))]
fn in_range(s: &[u8]) -> bool
    requires { 58 ≤ length s.now }
    ensures { result ≡ ranged s.now }
{
    is_sign(s[3]) && is_sign(s[6]) && is_sign(s[9]) && s[47] <= 23 && s[48] <= 59
}

#[tactic(auto, unfolding(crate::specs::Read::sign_known))]
fn is_sign(b: u8) -> bool
    ensures { result ≡ sign_known b }
{
    matches!(b, 0x2B | 0x2D | 0x58)
}

#[tactic(auto, unfolding(crate::specs::Record::record_of))]
fn record_of(s: &[u8]) -> Record
    ensures { result ≡ record_of s.now }
{
    Record {
        pack: pack_of(s),
        extremes: extremes_of(s),
        cell: cell_of(s),
        energy: energy_of(s),
        setup: setup_of(s),
    }
}
