// A restore's job (01, Restore): its picture of the pack, what is wanted, and the phase; a job opened, and how many settings are left.
// It is the job of the small machine of `restore_order`, about which demand 3 is proved.
#![tactic(auto)]

ghost use Rattle.std.specs.Prelude.{◌≡◌};
ghost use Rattle.restore_jobs.specs.Jobs.{open_of, left_of};

use refusals::Refusal;
use restore_opening::judge;
use restore_rules::count_left;

// Between two frames, waiting for the reply to the write of one register, or stopped by a device failure.
#[derive(Clone, Copy, Debug, PartialEq, Eq)]
pub enum Phase {
    Ready,
    Waiting(u8),
    Stopped,
}

// A restore: its picture of the pack's words, the wanted values, and the phase.
#[derive(Clone, Copy, Debug, PartialEq, Eq)]
pub struct Job {
    pub present: [i32; 50],
    pub wanted: [i32; 50],
    pub phase: Phase,
}

// Opens a restore of a pack that holds the 50 words `present`, towards the 50 values `wanted`. What is judged right has 50 of each, so the zeros are
// never taken.
#[tactic(auto, using(crate::proofs::Opening::accepted))]
pub fn open(present: &[i32], wanted: &[i32]) -> Result<Job, Refusal>
    ensures { result ≡ open_of present.now wanted.now }
{
    judge(present, wanted)?;
    Ok(Job {
        present: *present.as_array().unwrap_or(&[0; 50]),
        wanted: *wanted.as_array().unwrap_or(&[0; 50]),
        phase: Phase::Ready,
    })
}

// How many settings differ from wanted in the job's picture.
pub fn left(job: &Job) -> usize
    ensures { result ≡ left_of job.now }
{
    count_left(&job.present, &job.wanted)
}
