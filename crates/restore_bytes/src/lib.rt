// A restore's job in 402 bytes, for who keeps it where no struct can stand (docs/DECISIONS.md, C and Rust): judged and read.
// `specs/Jobs.antt` says how a job stands in its bytes.
#![tactic(auto)]

ghost use Rattle.std.specs.Prelude.{◌≡◌};
ghost use Rattle.restore_bytes.specs.Jobs.{phase_in, stands, is_job, job_of};

use lists_pathfinder::read_words;
use restore_jobs::{Job, Phase};
use restore_rules::first_write;

// How many bytes a job has.
pub const JOB: usize = 402;

// Whether the bytes hold a job: so many of them, one of the three phases, and a job that a restore can come to.
pub fn is_job(b: &[u8]) -> bool
    ensures { result ≡ is_job b.now }
{
    if b.len() != JOB {
        return false;
    }
    if 2 < b[400] {
        return false;
    }
    // No other phase waits: the words are not looked at.
    if b[400] != 1 {
        return true;
    }
    can_stand(job_of(b))
}

// The job in the bytes; where they are not so many, a job that is stopped and wants nothing.
pub fn job_of(b: &[u8]) -> Job
    ensures { result ≡ job_of b.now }
{
    let mut present = [0i32; 50];
    let mut wanted = [0i32; 50];
    if b.len() != JOB {
        return Job {
            present,
            wanted,
            phase: Phase::Stopped,
        };
    }
    // 200 bytes are 50 words, so that neither is refused.
    let _ = read_words(&b[0..200], &mut present);
    let _ = read_words(&b[200..400], &mut wanted);
    Job {
        present,
        wanted,
        phase: phase_of(b[400], b[401]),
    }
}

// Whether a restore can come to the job: a waiting one waits for the first of its writes.
fn can_stand(j: Job) -> bool
    ensures { result ≡ stands j }
{
    let Phase::Waiting(register) = j.phase else {
        return true;
    };
    let Some(first) = first_write(&j.present, &j.wanted) else {
        return false;
    };
    register == first
}

#[tactic(auto, unfolding(crate::specs::Jobs::phase_in))]
fn phase_of(p: u8, register: u8) -> Phase
    ensures { result ≡ phase_in p register }
{
    match p {
        0 => Phase::Ready,
        1 => Phase::Waiting(register),
        _ => Phase::Stopped,
    }
}
