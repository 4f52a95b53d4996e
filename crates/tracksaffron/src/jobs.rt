// What `exports_jobs` answers, for C.
ghost use Rattle.std.specs.Prelude.{◌≡◌};
ghost use Rattle.laws.specs.Choice.{pick};
ghost use Rattle.refusals.specs.Numbers.{number_of};
ghost use Rattle.restore_jobs.specs.Jobs.{open_of, left_of};
ghost use Rattle.exports_answers.specs.Told.{coded_as};
ghost use Rattle.restore_bytes.specs.Jobs.{is_job, sized, job_of};
ghost use Rattle.exports_jobs.specs.Opened.{opened_code, opened_job};

use refusals::Refusal;

// Opens a restore of a pack that holds the 50 words `present`, towards the 50 values `wanted`, in the job's bytes.
#[unsafe(no_mangle)]
pub extern "C" fn tracksaffron_restore_open(present: &[i32], wanted: &[i32], job: &mut [u8]) -> u64
    ensures answer { result ≡ pick (sized job.old) (opened_code (open_of present.now wanted.now)) (number_of Refusal.Shape) }
    ensures kept { job.new ≡ pick (sized job.old) (opened_job (open_of present.now wanted.now) job.old) job.old }
{
    exports_jobs::tracksaffron_restore_open(present, wanted, job)
}

// How many settings differ from wanted in the job's picture.
#[unsafe(no_mangle)]
pub extern "C" fn tracksaffron_restore_left(job: &[u8]) -> u64
    ensures { result ≡ pick (is_job job.now) (coded_as 1 (left_of (job_of job.now))) (number_of Refusal.Shape) }
{
    exports_jobs::tracksaffron_restore_left(job)
}
