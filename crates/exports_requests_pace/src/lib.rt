// PACE's requests, written, for other languages (`tracksaffron` exports it): numbers and slices only, each call safe with any input.
// `specs/Requests.antt` says which request the numbers of a setting are.
#![tactic(auto)]

ghost use Rattle.std.specs.Prelude.{◌≡◌, length};
ghost use Rattle.exports_answers.specs.Writing.{written_code};
ghost use Rattle.refusals.specs.Writing.{room_after};
ghost use Rattle.requests_pace.specs.Request.{frame_for, sent_as};
ghost use Rattle.exports_requests_pace.specs.Requests.{overvoltage, discharge};

use exports_answers::written_number;
use layouts_pace::Values;
use requests_pace::{Request, write_request};

// Writes the PACE request with this command, one that carries no values.
#[unsafe(no_mangle)]
pub extern "C" fn tracksaffron_pace_ask(address: u8, command: u8, out: &mut [u8]) -> u64
    ensures answer { result ≡ written_code (sent_as (Request.Ask address command) (length out.old)) }
    ensures room { out.new ≡ room_after (sent_as (Request.Ask address command) (length out.old)) (frame_for (Request.Ask address command)) out.old }
{
    written_number(write_request(Request::Ask { address, command }, out))
}

// Writes the PACE request that sets the cells' overvoltage, in mV and 100 ms.
#[unsafe(no_mangle)]
pub extern "C" fn tracksaffron_pace_cell_overvoltage(
    address: u8,
    alarm: u16,
    protect: u16,
    release: u16,
    delay: u8,
    out: &mut [u8],
) -> u64
    ensures answer { result ≡ written_code (sent_as (overvoltage address alarm protect release delay) (length out.old)) }
    ensures room { out.new ≡ room_after (sent_as (overvoltage address alarm protect release delay) (length out.old)) (frame_for (overvoltage address alarm protect release delay)) out.old }
{
    let values = Values::CellOvervoltage {
        alarm_mv: alarm,
        protect_mv: protect,
        release_mv: release,
        delay_100ms: delay,
    };
    written_number(write_request(Request::Set { address, values }, out))
}

// Writes the PACE request that sets the slow discharge current, in A and 100 ms.
#[unsafe(no_mangle)]
pub extern "C" fn tracksaffron_pace_slow_discharge(
    address: u8,
    alarm: u16,
    protect: u16,
    delay: u8,
    out: &mut [u8],
) -> u64
    ensures answer { result ≡ written_code (sent_as (discharge address alarm protect delay) (length out.old)) }
    ensures room { out.new ≡ room_after (sent_as (discharge address alarm protect delay) (length out.old)) (frame_for (discharge address alarm protect delay)) out.old }
{
    let values = Values::SlowDischarge {
        alarm_a: alarm,
        protect_a: protect,
        delay_100ms: delay,
    };
    written_number(write_request(Request::Set { address, values }, out))
}
