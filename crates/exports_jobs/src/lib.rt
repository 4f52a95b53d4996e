// A restore's job for other languages (`tracksaffron` exports it): it lives in bytes that the caller lends, 402 of them, and each call is one of
// `restore_jobs` on the job in them (`restore_bytes`, `restore_stored`): a restore opened, and what is left. `specs/Opened.antt` says what open answers.
#![tactic(auto)]

ghost use Rattle.std.specs.Prelude.{◌≡◌};
ghost use Rattle.laws.specs.Choice.{pick};
ghost use Rattle.refusals.specs.Numbers.{number_of};
ghost use Rattle.restore_jobs.specs.Jobs.{open_of, left_of};
ghost use Rattle.exports_answers.specs.Told.{coded_as};
ghost use Rattle.restore_bytes.specs.Jobs.{is_job, sized, job_of};
ghost use Rattle.exports_jobs.specs.Opened.{opened_code, opened_job};

use exports_answers::{coded, told};
use refusals::Refusal;
use restore_bytes::{is_job, job_of};
use restore_jobs::Job;
use restore_stored::put_job;

// Opens a restore of a pack that holds the 50 words `present`, towards the 50 values `wanted`, in the job's bytes.
#[unsafe(no_mangle)]
pub extern "C" fn tracksaffron_restore_open(present: &[i32], wanted: &[i32], job: &mut [u8]) -> u64
    ensures answer { result ≡ pick (sized job.old) (opened_code (open_of present.now wanted.now)) (number_of Refusal.Shape) }
    ensures kept { job.new ≡ pick (sized job.old) (opened_job (open_of present.now wanted.now) job.old) job.old }
{
    if job.len() != restore_bytes::JOB {
        return no_job();
    }
    opened(restore_jobs::open(present, wanted), job)
}

// How many settings differ from wanted in the job's picture.
#[unsafe(no_mangle)]
pub extern "C" fn tracksaffron_restore_left(job: &[u8]) -> u64
    ensures { result ≡ pick (is_job job.now) (coded_as 1 (left_of (job_of job.now))) (number_of Refusal.Shape) }
{
    if is_job(job) {
        coded(1, restore_jobs::left(&job_of(job)))
    } else {
        no_job()
    }
}

// What is answered where the bytes hold no job.
fn no_job() -> u64
    ensures { result ≡ number_of Refusal.Shape }
{
    told(Refusal::Shape)
}

// ---- what open gave, told

fn opened(o: Result<Job, Refusal>, job: &mut [u8]) -> u64
    ensures answer { result ≡ opened_code o }
    ensures kept { job.new ≡ opened_job o job.old }
{
    match o {
        Ok(opened) => {
            // Bytes that are not so many stay as they were.
            let _ = put_job(opened, job);
            coded(1, 0)
        }
        Err(why) => told(why),
    }
}
