ghost use Rattle.std.specs.Prelude.{◌≡◌, ◌≤◌, ◌++◌, ℕ, List, []};
ghost use Rattle.cluster.specs.declared.entry.Entry.{Entry};
ghost use Rattle.cluster.specs.declared.entry.JobState.TheVariants.{Fresh};
ghost use Rattle.cluster.specs.History.{job_state_of};
ghost use Rattle.sched_job.specs.declared.work.Work.{Work};
ghost use Rattle.sched_job.specs.Moves.{Fits};
ghost use Rattle.sched_job.specs.Owned.{AllIn, AllMade, NoneOf};
ghost use Rattle.sched_job.specs.Runs.{Running};
ghost use Rattle.histories.specs.JobRuns.{JobBegun, JobRun, Run};

use histories::histories_grow;

/// Entries of other jobs, however many, leave a job as it was: one that is running goes on and may take its
/// next turn, and one that was run to its end, or begun, stays so. A job's run is also one that began
/// earlier. If all entries of a job in a longer history are those that a call made in this one, they are
/// also all in this one, and none is past it. A job without an entry was begun.
pub fn runs_go_past()
    ensures running { (c : Run) (h more : List Entry) (w : Work) → NoneOf c.job h more → Running c h w → Running c (h ++ more) w }
    ensures fits { (c : Run) (h more : List Entry) (w : Work) → NoneOf c.job h more → Running c h w → Fits (h ++ more) w }
    ensures run { (c : Run) (h more : List Entry) → NoneOf c.job h more → JobRun c h → JobRun c (h ++ more) }
    ensures begun { (c : Run) (h more : List Entry) → NoneOf c.job h more → JobBegun c h → JobBegun c (h ++ more) }
    ensures run_earlier { (c : Run) (from : ℕ) (h : List Entry) → from ≤ c.from → JobRun c h → JobRun (record c { from = from }) h }
    ensures begun_earlier { (c : Run) (from : ℕ) (h : List Entry) → from ≤ c.from → JobBegun c h → JobBegun (record c { from = from }) h }
    ensures made { (c : Run) (h more : List Entry) (added : List ℕ) → AllMade c h 0 added → AllIn c.job added (h ++ more) → AllIn c.job added h × NoneOf c.job h more }
    ensures fresh { (job : ℕ) (h : List Entry) → job_state_of h job ≡ Fresh → NoneOf job [] h }
    ensures new { (c : Run) (h : List Entry) → job_state_of h c.job ≡ Fresh → JobBegun c h }
{
    histories_grow();
}
