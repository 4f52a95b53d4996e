// tzshow: reads one reply to Tongzhu's function 11 from standard input and prints it, a field to a line (01, Examples).
#![tactic(auto)]

ghost use Rattle.std.specs.Prelude.{◌≤◌, length, IfOk};

use monitor3_tongzhu::Status;
use payloads_tongzhu::{Answer, Monitor2};
use records_tongzhu::read_reply;
use std::io;
use std::io::Read;

fn main(rt: HostRuntime) -> io::Result<()> {
    // A frame has at most 255 bytes: a longer input is refused for its first 256 bytes as it is for all (`long_input` of frames_tongzhu), so
    // no more is read, and an input without end is answered too.
    let mut bytes = [0u8; 256];
    let n = read_full(&mut rt.stdin(), &mut bytes)?;
    match read_reply(0x11, &bytes[..n]) {
        Ok(reply) => show(&rt, reply.answer),
        Err(why) => println!(rt; "{why}"),
    }
}

// Reads until the room is full or the input ends; how many bytes came.
fn read_full(from: &mut impl Read, room: &mut [u8]) -> io::Result<usize>
    ensures { IfOk result (λ n. n ≤ length room.new) }
{
    let mut n = 0;
    while n < room.len() {
        let got = from.read(&mut room[n..])?;
        if got == 0 {
            return Ok(n);
        }
        n += got;
    }
    Ok(n)
}

// Prints an answer. Function 11 has no answer but these two.
fn show(to: &impl Print, answer: Answer) -> io::Result<()> {
    match answer {
        Answer::Monitor2(m) => show_monitor2(to, m),
        Answer::DeviceError => println!(to; "device error"),
        _ => Ok(()),
    }
}

fn show_monitor2(to: &impl Print, m: Monitor2) -> io::Result<()> {
    println!(to; "monitor2")?;
    show_status(to, m.status)?;
    println!(to; "current_100ma {}", m.current)?;
    println!(to; "highest_mv {}", m.highest)?;
    println!(to; "lowest_mv {}", m.lowest)?;
    println!(to; "total_10mv {}", m.total)?;
    println!(to; "hottest_c {}", m.hottest)?;
    println!(to; "coldest_c {}", m.coldest)?;
    println!(to; "cycles {}", m.cycles)?;
    println!(to; "remaining_100mah {}", m.remaining)?;
    println!(to; "capacity_100mah {}", m.capacity)?;
    println!(to; "switch {}", m.switch)
}

fn show_status(to: &impl Print, s: Status) -> io::Result<()> {
    println!(to; "status {} {} {} {}", s.first, s.second, s.third, s.fourth)
}
