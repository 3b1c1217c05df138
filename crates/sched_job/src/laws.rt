ghost use Rattle.std.specs.Prelude.{◌≡◌, ◌≤◌, ◌<◌, ◌+◌, ◌*◌, ◌++◌, ◌∷◌, [], ℕ, List, length, true, false, ◌==◌, None, Some};
ghost use Rattle.object_fields.specs.declared.key.Key.{Key};
ghost use Rattle.cluster.specs.declared.entry.Entry.{Entry};
ghost use Rattle.cluster.specs.History.{state_of, job_state_of};
ghost use Rattle.plan_rules.specs.Idle.{is_idle_pod};
ghost use Rattle.engine_ports.specs.declared.decision.Decision.{Decision};
ghost use Rattle.histories.specs.Legal.{Legal};
ghost use Rattle.sched_job.specs.declared.work.Work.{Work};
ghost use Rattle.sched_job.specs.Moves.{answer, move_of, stage_after, looked, chosen_event};
ghost use Rattle.sched_job.specs.Runs.{Running};
ghost use Rattle.histories.specs.JobRuns.{Run, JobBegun, JobKept, JobRun, attempts_of, is_ended};
ghost use Rattle.histories.specs.Alone.{Alone, NeverSetBack};
ghost use Rattle.sched_job.specs.Steps.{Extends, OneTurn};
ghost use Rattle.sched_job.specs.Turns.{most_turns};
ghost use Rattle.ledger_core.specs.Ledger.{History};

use crate::{Next, Stage};
use cluster::JobState;
use commands::Command;
use histories::{
    histories_grow, legal_steps, objects_keep_limits, pods_stay_taken, uids_keep_claims,
    users_are_busy,
};
use plan_rules::{allocations_pass, fitting_is_of_pod, plan_holds};

/// An entry of another job leaves a job as it was: one that is running goes on, and one that was run to
/// its end, or begun, stays so.
pub fn runs_go_on()
    ensures running { (c : Run) (h : List Entry) (w : Work) (e : Entry) → (e.job == c.job) ≡ false → Running c h w → Running c (h ++ e ∷ []) w }
    ensures run { (c : Run) (h : List Entry) (e : Entry) → (e.job == c.job) ≡ false → JobRun c h → JobRun c (h ++ e ∷ []) }
    ensures begun { (c : Run) (h : List Entry) (e : Entry) → (e.job == c.job) ≡ false → JobBegun c h → JobBegun c (h ++ e ∷ []) }
{
    histories_grow();
}

/// Which turns append nothing: those of a job that has ended, and those that take a snapshot, in which
/// the pod is there and Idle, and return `Next::Think`. The turn after a search appends what was chosen.
pub fn turns_move_on()
    ensures thinks { (c : Run) (h : List Entry) (w : Work) → Legal h → Running c h w → is_ended (job_state_of h w.job) ≡ false → move_of h w ≡ None → stage_after h w ≡ looked h }
    ensures answers { (c : Run) (h : List Entry) (w : Work) → Legal h → Running c h w → is_ended (job_state_of h w.job) ≡ false → move_of h w ≡ None → answer (job_state_of h w.job) (stage_after h w) ≡ Next.Think }
    ensures idle { (c : Run) (h : List Entry) (w : Work) (pod : Key) (attempts : ℕ) → w.command ≡ Command.Schedule pod attempts → Legal h → Running c h w → is_ended (job_state_of h w.job) ≡ false → move_of h w ≡ None → is_idle_pod (state_of h) pod ≡ true }
    ensures acts { (c : Run) (h : List Entry) (w : Work) (pod : Key) (attempts : ℕ) (choice : Decision) → w.command ≡ Command.Schedule pod attempts → w.stage ≡ Stage.Chosen choice → Running c h w → move_of h w ≡ Some (chosen_event (state_of h) pod choice) }
{
    pods_stay_taken();
}

/// A job after whose begin all entries are its own is never refused by the check of its plan, in conflict
/// or contended; and all entries of a history that a job alone extends are its own.
pub fn alone_is_undisturbed()
    ensures undisturbed { (c : Run) (h : List Entry) → Legal h → JobKept c h → Alone c.job c.from h → NeverSetBack c.job h }
    ensures alone { (job : ℕ) (h h' : List Entry) → Extends (job ∷ []) h h' → Alone job (length h) h' }
{
    histories_grow();
    legal_steps();
    users_are_busy();
    objects_keep_limits();
    plan_holds();
    fitting_is_of_pod();
    allocations_pass();
}

/// Each turn of a work whose job hasn't ended, with the search after it, leaves the work fewer turns, an
/// entry of another job leaves it no more, and a new work has at most 35 for each attempt and one more:
/// so a job whose entries are all made by one work ends within these, whatever other jobs do.
pub fn turns_are_few()
    ensures first { (h : List Entry) (w : Work) → job_state_of h w.job ≡ JobState.Fresh → w.stage ≡ Stage.Ready → most_turns h w ≤ 35 * attempts_of w.command + 1 }
    ensures fewer { (budget : ℕ) (c : Run) (H H' : History) (w w' : Work) → Legal H.entries → Legal H'.entries → Running c H.entries w → is_ended (job_state_of H.entries w.job) ≡ false → OneTurn budget H H' w w' →
        most_turns H'.entries w' < most_turns H.entries w }
    ensures others { (c : Run) (h : List Entry) (w : Work) (e : Entry) → Legal (h ++ e ∷ []) → Running c h w → (e.job == c.job) ≡ false → most_turns (h ++ e ∷ []) w ≤ most_turns h w }
{
    histories_grow();
    legal_steps();
    objects_keep_limits();
    turns_move_on();
    pods_stay_taken();
    uids_keep_claims();
}
