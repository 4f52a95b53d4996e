// The night restore of the Pathfinder's settings (01, Restore): reply, the call that takes what the pack answers to a write, on a job of
// `restore_jobs`. It is one step of the small machine of `restore_order`, about which demand 3 is proved.
#![tactic(auto)]

ghost use Rattle.std.specs.Prelude.{◌≡◌};
ghost use Rattle.restore_order.specs.Slots.{put};
ghost use Rattle.restore_reply.specs.Reply.{is_waiting, answer_of, read_as, answer_in, heard_of};

use records_pathfinder::{Reply, read_reply};
use refusals::Refusal;
use restore_jobs::{Job, Phase};

// What the pack answered to a write.
#[derive(Clone, Copy, Debug, PartialEq, Eq)]
pub enum Outcome {
    // The register is written.
    Written,
    // The device failed, with its own code; the job is stopped.
    Failure(u8),
}

// What reply gives: an outcome or a refusal, and the job after it.
#[derive(Clone, Copy, Debug, PartialEq, Eq)]
pub struct Heard {
    pub answer: Result<Outcome, Refusal>,
    pub job: Job,
}

// Takes the reply to the frame just sent.
pub fn reply(job: Job, s: &[u8]) -> Heard
    ensures { result ≡ heard_of job s.now }
{
    let phase = job.phase;
    let waiting = is_waiting(phase);
    let answer = hear(waiting, s);
    let Phase::Waiting(register) = phase else {
        return Heard { answer, job };
    };
    // A refused reply leaves the job waiting: its number, with the job as it was.
    let Ok(outcome) = answer else {
        return Heard { answer, job };
    };
    match outcome {
        Outcome::Written => Heard {
            answer,
            job: marked(job, register),
        },
        Outcome::Failure(_) => Heard {
            answer,
            job: stopped(job),
        },
    }
}

// ---- what the reply is, and the job after it

fn is_waiting(phase: Phase) -> bool
    ensures { result ≡ is_waiting phase }
{
    matches!(phase, Phase::Waiting(_))
}

// What is heard: out of turn 14, before the reply is read.
fn hear(waiting: bool, s: &[u8]) -> Result<Outcome, Refusal>
    ensures { result ≡ answer_in waiting s.now }
{
    if !waiting {
        return Err(Refusal::Turn);
    }
    decode(s)
}

// Reads the reply to a write.
fn decode(s: &[u8]) -> Result<Outcome, Refusal>
    ensures { result ≡ answer_of (read_as s.now) }
{
    match read_reply(0x0E, s, &mut [], &mut [])? {
        Reply::Words(_) | Reply::Name(_) => Err(Refusal::Request),
        Reply::Written => Ok(Outcome::Written),
        Reply::Failure(code) => Ok(Outcome::Failure(code)),
    }
}

// The job with one register marked written, ready for the next.
fn marked(job: Job, register: u8) -> Job
    ensures { result ≡ record { present = put job.present job.wanted register; wanted = job.wanted; phase = Phase.Ready } }
{
    let mut present = job.present;
    if register < 50 {
        present[register as usize] = job.wanted[register as usize];
    }
    Job {
        present,
        phase: Phase::Ready,
        ..job
    }
}

fn stopped(job: Job) -> Job
    ensures { result ≡ record { present = job.present; wanted = job.wanted; phase = Phase.Stopped } }
{
    Job {
        phase: Phase::Stopped,
        ..job
    }
}
