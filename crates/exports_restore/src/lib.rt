// The restore's calls that speak with the pack, for other languages (`tracksaffron` exports it): the job lives in bytes that the caller lends
// (`restore_bytes`, `restore_stored`; opened by `exports_jobs`), and each call is `restore_next` or `restore_reply` on the job in them. `specs/Steps.antt` says what each answers.
#![tactic(auto)]

ghost use Rattle.std.specs.Prelude.{◌≡◌, length};
ghost use Rattle.laws.specs.Choice.{pick};
ghost use Rattle.refusals.specs.Numbers.{number_of};
ghost use Rattle.restore_next.specs.Next.{next_of, room_of};
ghost use Rattle.restore_reply.specs.Reply.{heard_of};
ghost use Rattle.restore_bytes.specs.Jobs.{is_job, job_of};
ghost use Rattle.exports_restore.specs.Steps.{stepped_code, stepped_job, heard_code, heard_job};

use exports_answers::{coded, told};
use refusals::Refusal;
use restore_bytes::{is_job, job_of};
use restore_next::{Step, Stepped};
use restore_reply::{Heard, Outcome};
use restore_stored::put_job;

// The next write of the job as a frame in lent room.
#[unsafe(no_mangle)]
pub extern "C" fn tracksaffron_restore_next(job: &mut [u8], out: &mut [u8]) -> u64
    ensures answer { result ≡ pick (is_job job.old) (stepped_code (next_of (job_of job.old) (length out.old))) (number_of Refusal.Shape) }
    ensures kept { job.new ≡ pick (is_job job.old) (stepped_job (next_of (job_of job.old) (length out.old)) job.old) job.old }
    ensures room { out.new ≡ pick (is_job job.old) (room_of (job_of job.old) out.old) out.old }
{
    if is_job(job) {
        stepped(restore_next::next(job_of(job), out), job)
    } else {
        no_job()
    }
}

// Takes the reply to the frame just sent.
#[unsafe(no_mangle)]
pub extern "C" fn tracksaffron_restore_reply(job: &mut [u8], s: &[u8]) -> u64
    ensures answer { result ≡ pick (is_job job.old) (heard_code (heard_of (job_of job.old) s.now)) (number_of Refusal.Shape) }
    ensures kept { job.new ≡ pick (is_job job.old) (heard_job (heard_of (job_of job.old) s.now) job.old) job.old }
{
    if is_job(job) {
        heard(restore_reply::reply(job_of(job), s), job)
    } else {
        no_job()
    }
}

// What is answered where the bytes hold no job.
fn no_job() -> u64
    ensures { result ≡ number_of Refusal.Shape }
{
    told(Refusal::Shape)
}

// ---- what a call gave, told. The job is put where there was one, so that it has its room.

fn stepped(n: Stepped, job: &mut [u8]) -> u64
    ensures answer { result ≡ stepped_code n }
    ensures kept { job.new ≡ stepped_job n job.old }
{
    match n.step {
        Ok(Step::Frame(len)) => {
            let _ = put_job(n.job, job);
            coded(1, len)
        }
        Ok(Step::Done) => coded(2, 0),
        Err(why) => told(why),
    }
}

fn heard(h: Heard, job: &mut [u8]) -> u64
    ensures answer { result ≡ heard_code h }
    ensures kept { job.new ≡ heard_job h job.old }
{
    match h.answer {
        Ok(outcome) => {
            let _ = put_job(h.job, job);
            match outcome {
                Outcome::Written => coded(1, 0),
                Outcome::Failure(code) => coded(2, code as usize),
            }
        }
        Err(why) => told(why),
    }
}
