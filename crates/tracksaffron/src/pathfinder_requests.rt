// What `exports_requests_pathfinder` answers, for C.
ghost use Rattle.std.specs.Prelude.{◌≡◌, length};
ghost use Rattle.refusals.specs.Writing.{room_after};
ghost use Rattle.requests_pathfinder.specs.Requests.{frame_for, sent_as};
ghost use Rattle.exports_answers.specs.Writing.{written_code};

use requests_pathfinder::Request;

// Writes the Pathfinder request with this opcode, one that has no data.
#[unsafe(no_mangle)]
pub extern "C" fn tracksaffron_pf_ask(opcode: u8, out: &mut [u8]) -> u64
    ensures answer { result ≡ written_code (sent_as (Request.Ask opcode) (length out.old)) }
    ensures room { out.new ≡ room_after (sent_as (Request.Ask opcode) (length out.old)) (frame_for (Request.Ask opcode)) out.old }
{
    exports_requests_pathfinder::tracksaffron_pf_ask(opcode, out)
}

// Writes the request that sets a Pathfinder register.
#[unsafe(no_mangle)]
pub extern "C" fn tracksaffron_pf_write(register: u8, value: i32, out: &mut [u8]) -> u64
    ensures answer { result ≡ written_code (sent_as (Request.Write register value) (length out.old)) }
    ensures room { out.new ≡ room_after (sent_as (Request.Write register value) (length out.old)) (frame_for (Request.Write register value)) out.old }
{
    exports_requests_pathfinder::tracksaffron_pf_write(register, value, out)
}
