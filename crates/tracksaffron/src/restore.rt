// What `exports_restore` answers, for C.
ghost use Rattle.std.specs.Prelude.{◌≡◌, length};
ghost use Rattle.laws.specs.Choice.{pick};
ghost use Rattle.refusals.specs.Numbers.{number_of};
ghost use Rattle.restore_next.specs.Next.{next_of, room_of};
ghost use Rattle.restore_reply.specs.Reply.{heard_of};
ghost use Rattle.restore_bytes.specs.Jobs.{is_job, job_of};
ghost use Rattle.exports_restore.specs.Steps.{stepped_code, stepped_job, heard_code, heard_job};

use refusals::Refusal;

// The next write of the job as a frame in lent room.
#[unsafe(no_mangle)]
pub extern "C" fn tracksaffron_restore_next(job: &mut [u8], out: &mut [u8]) -> u64
    ensures answer { result ≡ pick (is_job job.old) (stepped_code (next_of (job_of job.old) (length out.old))) (number_of Refusal.Shape) }
    ensures kept { job.new ≡ pick (is_job job.old) (stepped_job (next_of (job_of job.old) (length out.old)) job.old) job.old }
    ensures room { out.new ≡ pick (is_job job.old) (room_of (job_of job.old) out.old) out.old }
{
    exports_restore::tracksaffron_restore_next(job, out)
}

// Takes the reply to the frame just sent.
#[unsafe(no_mangle)]
pub extern "C" fn tracksaffron_restore_reply(job: &mut [u8], s: &[u8]) -> u64
    ensures answer { result ≡ pick (is_job job.old) (heard_code (heard_of (job_of job.old) s.now)) (number_of Refusal.Shape) }
    ensures kept { job.new ≡ pick (is_job job.old) (heard_job (heard_of (job_of job.old) s.now) job.old) job.old }
{
    exports_restore::tracksaffron_restore_reply(job, s)
}
