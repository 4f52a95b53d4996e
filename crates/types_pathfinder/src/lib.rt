// The types of the rows of Pathfinder replies 01 to 04 (000, data definitions; 01, Pathfinder).
#![tactic(auto)]

ghost use Rattle.std.specs.Prelude.{◌≡◌};
ghost use Rattle.types_pathfinder.specs.Types.{words_at, listed_at, settings, infos, type_at};

use refusals::Refusal;

// The type of a row.
#[derive(Clone, Copy, Debug, PartialEq, Eq)]
pub enum RowType {
    U8,
    I8,
    U16,
    I16,
    U32,
    I32,
    Bool,
    // I16 in units of ten millivolts.
    TenMillivolts,
    // U32 as a bitfield, never missing.
    Bits,
    // U16 as a count that stops at its largest value, never missing.
    Count,
}

// The type of a row of a reply: 7 where there is no such reply, 8 where it has no such row.
#[tactic(auto, unfolding(crate::specs::Types::type_at))]
pub fn row_type(reply: u8, row: u8) -> Result<RowType, Refusal>
    ensures { result ≡ type_at reply row }
{
    let listed = match reply {
        0x01 => words(row, 3),
        0x02 => setting(row),
        0x03 => info(row),
        0x04 => words(row, 16),
        _ => return Err(Refusal::Request),
    };
    listed.ok_or(Refusal::Shape)
}

fn words(row: u8, count: u8) -> Option<RowType>
    ensures { result ≡ words_at count row }
{
    (row < count).then_some(RowType::I32)
}

// Reply 02.
#[tactic(auto, unfolding(crate::specs::Types::settings))]
fn setting(row: u8) -> Option<RowType>
    ensures { result ≡ listed_at settings row }
{
    match row {
        0 => Some(RowType::I16), // Balancer Start Voltage
        1 => Some(RowType::U8), // Delta to Balance
        2 => Some(RowType::U8), // Max Cells to Balance
        3 => Some(RowType::I8), // Charge Overtemp Threshold
        4 => Some(RowType::I8), // Charge Overtemp Recovery
        5 => Some(RowType::U8), // Charge Overtemp Delay
        6 => Some(RowType::I8), // Charge Undertemp Threshold
        7 => Some(RowType::I8), // Charge Undertemp Recovery
        8 => Some(RowType::U8), // Charge Undertemp Delay
        9 => Some(RowType::I8), // Discharge Overtemp Threshold
        10 => Some(RowType::I8), // Discharge Overtemp Recovery
        11 => Some(RowType::U8), // Discharge Overtemp Delay
        12 => Some(RowType::I8), // Discharge Undertemp Threshold
        13 => Some(RowType::I8), // Discharge Undertemp Recovery
        14 => Some(RowType::U8), // Discharge Undertemp Delay
        15 => Some(RowType::U8), // Cell Overvoltage Threshold
        16 => Some(RowType::U8), // Cell Overvoltage Recovery Hysteresis
        17 => Some(RowType::U16), // Cell Overvoltage Delay
        18 => Some(RowType::U8), // Cell Undervoltage Threshold
        19 => Some(RowType::U8), // Cell Undervoltage Recovery Hysteresis
        20 => Some(RowType::U16), // Cell Undervoltage Delay
        21 => Some(RowType::I32), // Charge Overcurrent Threshold
        22 => Some(RowType::U8), // Charge Overcurrent Delay
        23 => Some(RowType::I32), // Discharge Overcurrent Threshold
        24 => Some(RowType::U8), // Discharge Overcurrent Delay
        25 => Some(RowType::U8), // Fault Recovery Time (shared)
        26 => Some(RowType::U32), // L2 Discharge Overcurrent Threshold
        27 => Some(RowType::U8), // L2 Discharge Overcurrent Delay
        28 => Some(RowType::U8), // L2 FET Overtemp Threshold
        29 => Some(RowType::U8), // L2 FET Overtemp Recovery
        30 => Some(RowType::U8), // L2 FET Overtemp Delay
        31 => Some(RowType::I32), // L3 Short Circuit Threshold
        32 => Some(RowType::I32), // L3 Short Circuit Delay
        33 => Some(RowType::U8), // L3 Short Circuit Recovery
        34 => Some(RowType::I32), // PF Charge Overcurrent
        35 => Some(RowType::U8), // PF Charge Overcurrent Delay
        36 => Some(RowType::I32), // PF Discharge Overcurrent
        37 => Some(RowType::U8), // PF Discharge Overcurrent Delay
        38 => Some(RowType::I16), // PF Cell Overvoltage Threshold
        39 => Some(RowType::U8), // PF Cell Overvoltage Delay
        40 => Some(RowType::I16), // PF Cell Undervoltage Threshold
        41 => Some(RowType::U8), // PF Cell Undervoltage Delay
        42 => Some(RowType::U32), // Design Capacity
        43 => Some(RowType::Bool), // NTC1 Active
        44 => Some(RowType::Bool), // NTC2 Active
        45 => Some(RowType::Bool), // NTC3 Active
        46 => Some(RowType::Bool), // NTC4 Active
        47 => Some(RowType::U32), // Predischarge Timeout
        48 => Some(RowType::U8), // Predischarge Target Percent
        49 => Some(RowType::U32), // Predischarge Retry Time
        _ => None,
    }
}

// Reply 03.
#[tactic(auto, unfolding(crate::specs::Types::infos))]
fn info(row: u8) -> Option<RowType>
    ensures { result ≡ listed_at infos row }
{
    match row {
        // Stack Voltage; B+ terminal voltage.
        0 | 52 => Some(RowType::TenMillivolts),
        // Pack Current; firmware version; Cell Count; NTC temperatures; session values.
        1 | 8 | 9 | 16 | 21..=24 | 26..=31 => Some(RowType::I32),
        // Capacity, Reserved, Cycle Count; Design and Measured Capacity.
        2..=4 | 50 | 51 => Some(RowType::U32),
        // Cell Balancer Status; Active cell inputs.
        5 | 25 => Some(RowType::U16),
        // Current Errors.
        6 | 7 => Some(RowType::Bits),
        // State of Charge; FETs and switch; NTC active; State of Health.
        10..=15 | 17..=20 | 49 => Some(RowType::U8),
        // Alarm counts.
        32..=44 => Some(RowType::Count),
        // Reset count.
        45 => Some(RowType::Count),
        // SOC confidence.
        46 => Some(RowType::U8),
        // Time to Full; Time to Empty.
        47 | 48 => Some(RowType::U16),
        _ => None,
    }
}
