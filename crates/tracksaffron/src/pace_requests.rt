// What `exports_requests_pace` answers, for C.
ghost use Rattle.std.specs.Prelude.{◌≡◌, length};
ghost use Rattle.exports_answers.specs.Writing.{written_code};
ghost use Rattle.refusals.specs.Writing.{room_after};
ghost use Rattle.requests_pace.specs.Request.{frame_for, sent_as};
ghost use Rattle.exports_requests_pace.specs.Requests.{overvoltage, discharge};

use requests_pace::Request;

// Writes the PACE request with this command, one that carries no values.
#[unsafe(no_mangle)]
pub extern "C" fn tracksaffron_pace_ask(address: u8, command: u8, out: &mut [u8]) -> u64
    ensures answer { result ≡ written_code (sent_as (Request.Ask address command) (length out.old)) }
    ensures room { out.new ≡ room_after (sent_as (Request.Ask address command) (length out.old)) (frame_for (Request.Ask address command)) out.old }
{
    exports_requests_pace::tracksaffron_pace_ask(address, command, out)
}

// Writes the PACE request that sets the cells' overvoltage, in mV and 100 ms.
#[unsafe(no_mangle)]
pub extern "C" fn tracksaffron_pace_cell_overvoltage(
    address: u8,
    alarm: u16,
    protect: u16,
    release: u16,
    delay: u8,
    out: &mut [u8],
) -> u64
    ensures answer { result ≡ written_code (sent_as (overvoltage address alarm protect release delay) (length out.old)) }
    ensures room { out.new ≡ room_after (sent_as (overvoltage address alarm protect release delay) (length out.old)) (frame_for (overvoltage address alarm protect release delay)) out.old }
{
    exports_requests_pace::tracksaffron_pace_cell_overvoltage(
        address, alarm, protect, release, delay, out,
    )
}

// Writes the PACE request that sets the slow discharge current, in A and 100 ms.
#[unsafe(no_mangle)]
pub extern "C" fn tracksaffron_pace_slow_discharge(
    address: u8,
    alarm: u16,
    protect: u16,
    delay: u8,
    out: &mut [u8],
) -> u64
    ensures answer { result ≡ written_code (sent_as (discharge address alarm protect delay) (length out.old)) }
    ensures room { out.new ≡ room_after (sent_as (discharge address alarm protect delay) (length out.old)) (frame_for (discharge address alarm protect delay)) out.old }
{
    exports_requests_pace::tracksaffron_pace_slow_discharge(address, alarm, protect, delay, out)
}
