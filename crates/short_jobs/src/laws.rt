ghost use Rattle.std.specs.Prelude.{◌≡◌, ◌≤◌, ◌++◌, List, length};
ghost use Rattle.cluster.specs.declared.entry.Entry.{Entry};
ghost use Rattle.cluster.specs.declared.entry.JobState.TheVariants.{Fresh};
ghost use Rattle.cluster.specs.History.{job_state_of, state_of};
ghost use Rattle.histories.specs.Alone.{NeverSetBack};
ghost use Rattle.histories.specs.JobRuns.{JobKept, Run};
ghost use Rattle.histories.specs.Legal.{Legal};
ghost use Rattle.short_jobs.specs.Short.{AllOf, HasFewClaims, PodsHaveFewClaims, entries_most};

use histories::histories_grow;

/// Where each pod has one claim at most, the last entries of a legal history, if they are all of one job that begins
/// there and is never set back, are at most three if the job schedules a pod, and else one. If that job applies no pod
/// with more claims, each pod still has one claim at most.
pub fn single_jobs_are_short()
    ensures { (c : Run) (before segment : List Entry) → Legal (before ++ segment) → PodsHaveFewClaims (state_of before) → HasFewClaims c.command →
        job_state_of before c.job ≡ Fresh → AllOf c.job segment → JobKept c (before ++ segment) → NeverSetBack c.job (before ++ segment) →
        (length segment ≤ entries_most c.command) × PodsHaveFewClaims (state_of (before ++ segment)) }
{
    histories_grow();
}
