// What `exports_requests_tongzhu` answers, for C.
ghost use Rattle.std.specs.Prelude.{◌≡◌, length};
ghost use Rattle.exports_answers.specs.Writing.{written_code};
ghost use Rattle.refusals.specs.Writing.{room_after};
ghost use Rattle.requests_tongzhu.specs.Requests.{frame_for, sent_as};
ghost use Rattle.exports_requests_tongzhu.specs.Requests.{time_of};

use requests_tongzhu::Request;

// Writes the request that asks for what a Tongzhu function reads.
#[unsafe(no_mangle)]
pub extern "C" fn tracksaffron_tz_ask(function: u8, out: &mut [u8]) -> u64
    ensures answer { result ≡ written_code (sent_as (Request.Ask function) (length out.old)) }
    ensures room { out.new ≡ room_after (sent_as (Request.Ask function) (length out.old)) (frame_for (Request.Ask function)) out.old }
{
    exports_requests_tongzhu::tracksaffron_tz_ask(function, out)
}

// Writes the request that sets the time of a Tongzhu monitor; the year counts from 2000.
#[unsafe(no_mangle)]
pub extern "C" fn tracksaffron_tz_set_time(
    year: u8,
    month: u8,
    day: u8,
    hour: u8,
    minute: u8,
    second: u8,
    out: &mut [u8],
) -> u64
    ensures answer { result ≡ written_code (sent_as (Request.SetTime (time_of year month day hour minute second)) (length out.old)) }
    ensures room { out.new ≡ room_after (sent_as (Request.SetTime (time_of year month day hour minute second)) (length out.old)) (frame_for (Request.SetTime (time_of year month day hour minute second))) out.old }
{
    exports_requests_tongzhu::tracksaffron_tz_set_time(year, month, day, hour, minute, second, out)
}
