// The rows of Pathfinder replies 01 to 04 (000, data definitions; 01, Pathfinder): a word narrowed to its row's type.
#![tactic(auto)]

ghost use Rattle.std.specs.Prelude.{◌≡◌, ◌&&◌, ◌||◌, ◌-◌, ◌<◌, eqb, pos};
ghost use Rattle.rows_pathfinder.specs.Narrowing.{number_row, ten_row, by_bits, row_of};

use refusals::Refusal;
use signs::{bits32, signed8, signed16, signed32};
use types_pathfinder::{RowType, row_type};
use units_pathfinder::TenMillivolts;

// What a row says.
#[derive(Clone, Copy, Debug, PartialEq, Eq)]
pub enum Row {
    Number(i64),
    TenMillivolts(TenMillivolts),
    Truth(bool),
}

// Narrows a word of reply 01 to 04 to its row's type; there is no row where it is the value of its type that means no data.
#[tactic(auto, unfolding(crate::specs::Narrowing::row_of))]
pub fn narrow(reply: u8, row: u8, word: i32) -> Result<Option<Row>, Refusal>
    ensures { result ≡ row_of reply row word }
{
    let kind = row_type(reply, row)?;
    Ok(by_bits(kind, reply == 0x03, bits32(word)))
}

// A word's 32 bits as this type. `may` says whether the type's extreme values mean no data.
#[tactic(auto, unfolding(crate::specs::Narrowing::by_bits))]
fn by_bits(kind: RowType, may: bool, n: u32) -> Option<Row>
    ensures { result ≡ by_bits kind may n }
{
    match kind {
        RowType::U8 => unsigned(may, n % 256, 255),
        RowType::I8 => number(edge(may, n % 256, 128), signed8((n % 256) as u8) as i64),
        RowType::U16 => unsigned(may, n % 65536, 65535),
        RowType::I16 => number(
            edge(may, n % 65536, 32768),
            signed16((n % 65536) as u16) as i64,
        ),
        RowType::U32 => unsigned(may, n, 4294967295),
        RowType::I32 => number(edge(may, n, 2147483648), signed32(n) as i64),
        RowType::Bool => Some(Row::Truth(n != 0)),
        RowType::TenMillivolts => ten_millivolts(edge(may, n % 65536, 32768), (n % 65536) as u16),
        RowType::Bits => unsigned(false, n, 4294967295),
        RowType::Count => unsigned(false, n % 65536, 65535),
    }
}

// A number that is missing where it is the largest of its type and may mean no data.
fn unsigned(may: bool, n: u32, top: u32) -> Option<Row>
    ensures { result ≡ number_row (may && eqb n top) (pos n) }
{
    number(may && n == top, n as i64)
}

fn number(missing: bool, value: i64) -> Option<Row>
    ensures { result ≡ number_row missing value }
{
    (!missing).then_some(Row::Number(value))
}

fn ten_millivolts(missing: bool, n: u16) -> Option<Row>
    ensures { result ≡ ten_row missing n }
{
    (!missing).then_some(Row::TenMillivolts(TenMillivolts(signed16(n))))
}

// Whether n, as bits, is the largest or the smallest of its signed type and may mean no data.
fn edge(may: bool, n: u32, half: u32) -> bool
    requires { 0 < half }
    ensures { result ≡ (may && (eqb n (half - 1) || eqb n half)) }
{
    may && (n == half - 1 || n == half)
}
