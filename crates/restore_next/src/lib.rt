// The night restore of the Pathfinder's settings (01, Restore): next, the call that writes to the pack, on a job of `restore_jobs`. It
// is one step of the small machine of `restore_order`, about which demand 3 is proved; its write goes out as a frame of request 0E.
#![tactic(auto)]

ghost use Rattle.std.specs.Prelude.{◌≡◌, length};
ghost use Rattle.restore_next.specs.Next.{is_ready, sent_of, next_of, room_of};

use refusals::Refusal;
use requests_pathfinder::write_set;
use restore_jobs::{Job, Phase};
use restore_rules::first_write;

// What next does.
#[derive(Clone, Copy, Debug, PartialEq, Eq)]
pub enum Step {
    // A frame of so many bytes stands at the front of the room; its reply is due.
    Frame(usize),
    // No setting differs any more.
    Done,
}

// What next gives: a step or a refusal, and the job after it.
#[derive(Clone, Copy, Debug, PartialEq, Eq)]
pub struct Stepped {
    pub step: Result<Step, Refusal>,
    pub job: Job,
}

// The next write as a frame in lent room; bytes after it keep their contents, and so does all of the room where no frame goes out.
pub fn next(job: Job, out: &mut [u8]) -> Stepped
    ensures answer { result ≡ next_of job (length out.old) }
    ensures room { out.new ≡ room_of job out.old }
{
    let ready = is_ready(job.phase);
    let roomy = 11 <= out.len();
    if !ready {
        return declined(job, Refusal::Turn);
    }
    // The job's arrays by themselves: a job that is looked at through a loan is copied once more, even where the step is out of turn.
    let present = job.present;
    let wanted = job.wanted;
    let Some(register) = first_write(&present, &wanted) else {
        return Stepped {
            step: Ok(Step::Done),
            job,
        };
    };
    if !roomy {
        return declined(job, Refusal::Room);
    }
    let value = wanted[register as usize];
    let written = write_set(register, value, out);
    let waits = Job {
        present,
        wanted,
        phase: Phase::Waiting(register),
    };
    sent(job, waits, written)
}

fn is_ready(phase: Phase) -> bool
    ensures { result ≡ is_ready phase }
{
    phase == Phase::Ready
}

fn declined(job: Job, why: Refusal) -> Stepped
    ensures { result ≡ record { step = Err why; job = job } }
{
    Stepped {
        step: Err(why),
        job,
    }
}

// After the writer's answer: the job waits if there is a frame, and else is as it was.
fn sent(job: Job, waits: Job, written: Result<usize, Refusal>) -> Stepped
    ensures { result ≡ sent_of job waits written }
{
    match written {
        Ok(n) => Stepped {
            step: Ok(Step::Frame(n)),
            job: waits,
        },
        Err(why) => Stepped {
            step: Err(why),
            job,
        },
    }
}
