// A restore's job put into the 402 bytes that `restore_bytes` reads; proofs/RoundTrip.antt has that it reads back.
#![tactic(auto)]

ghost use Rattle.std.specs.Prelude.{◌≡◌, ◌++◌, length, take};
ghost use Rattle.restore_stored.specs.Stored.{phase_bytes, size_fault, job_after};

use lists_pathfinder::put_words;
use refusals::Refusal;
use restore_jobs::{Job, Phase};

// Puts a job into its bytes; where they are not so many, they keep their contents.
pub fn put_job(j: Job, b: &mut [u8]) -> Result<(), Refusal>
    ensures answer { result ≡ size_fault b.old }
    ensures held { b.new ≡ job_after j b.old }
{
    if b.len() != restore_bytes::JOB {
        return Err(Refusal::Shape);
    }
    put_words(&j.present, &mut b[0..200])?;
    put_words(&j.wanted, &mut b[200..400])?;
    put_phase(j.phase, b);
    Ok(())
}

fn put_phase(phase: Phase, b: &mut [u8])
    requires { length b.old ≡ 402 }
    ensures { b.new ≡ take 400 b.old ++ phase_bytes phase }
{
    let bytes = phase_bytes(phase);
    b[400] = bytes[0];
    b[401] = bytes[1];
}

fn phase_bytes(phase: Phase) -> [u8; 2]
    ensures { result ≡ phase_bytes phase }
{
    match phase {
        Phase::Ready => [0, 0],
        Phase::Waiting(register) => [1, register],
        Phase::Stopped => [2, 0],
    }
}
