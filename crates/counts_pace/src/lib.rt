// The shape that the replies 42 and 44 share (01, PACE): 00, the address, the number of cells and a value for each, the number of
// temperatures and a value for each, and the rest. INFO comes as characters; where they are no bytes that is refused first, and the
// rest is said of the bytes that they carry.
#![tactic(auto)]

ghost use Rattle.std.specs.Prelude.{◌≡◌, ◌≤◌};
ghost use Rattle.characters_pace.specs.Characters.{bytes_in, checked_info};
ghost use Rattle.counts_pace.specs.Counts.{space_of, shaped, counts_of};

use characters_pace::byte_of;
use faults_pace::fault_of;
use refusals::Refusal;

// How many cells (1 to 16) and temperatures (0 to 8) a reply has.
#[derive(Clone, Copy, Debug, PartialEq, Eq)]
pub struct Counts {
    pub cells: u8,
    pub temperatures: u8,
}

// The counts in a reply whose values are two bytes wide or one, with so many bytes behind them.
#[tactic(auto, unfolding(crate::specs::Counts::counts_of, characters_pace::specs::Characters::checked_info))]
pub fn counts_of(wide: bool, rest: u8, address: u8, info: &[u8]) -> Result<Counts, Refusal>
    ensures { result ≡ checked_info (counts_of wide rest address) info.now }
{
    fault_of(info)?;
    if !has_shape(wide, rest, address, info) {
        return Err(Refusal::Shape);
    }
    let cells = byte_of(info, 2);
    Ok(Counts {
        cells,
        temperatures: byte_of(info, space(wide, cells) + 3),
    })
}

// Whether INFO has 00, the address, counts within their limits, and the length that these require.
#[tactic(auto, using(characters_pace::proofs::Carried::bytes_length), unfolding(crate::specs::Counts::shaped))]
fn has_shape(wide: bool, rest: u8, address: u8, info: &[u8]) -> bool
    ensures { result ≡ shaped wide rest address (bytes_in info.now) }
{
    let cells = byte_of(info, 2);
    let c = space(wide, cells);
    let temperatures = byte_of(info, c + 3);
    let t = space(wide, temperatures);
    byte_of(info, 0) == 0
        && byte_of(info, 1) == address
        && 1 <= cells
        && cells <= 16
        && temperatures <= 8
        && info.len() / 2 == c + t + 4 + rest as usize
}

// How many bytes n values take.
fn space(wide: bool, n: u8) -> usize
    ensures { (result ≡ space_of wide n) × (result ≤ 510) }
{
    if wide { 2 * (n as usize) } else { n as usize }
}
