ghost use Rattle.std.specs.Prelude.{ℕ, List};
ghost use Rattle.cluster.specs.declared.entry.Entry.{Entry};
ghost use Rattle.commands.specs.declared.given.Given.{Given};
ghost use Rattle.replay_core.specs.declared.options.ReplayOptions.{ReplayOptions};
ghost use Rattle.replay_core.specs.Replay.{IsPart, IsRun};
ghost use Rattle.api_server.specs.Serving.{IsFull, IsServed};
ghost use Rattle.api_server.specs.Visits.{Visit};
ghost use Rattle.api_server.specs.declared.options.ServeOptions.{ServeOptions};
ghost use Rattle.dra_cli.specs.Headline.{IsTrueHistory, IsTruePart, IsTrueRun};

use histories::{
    adoptions_are_allocations, denials_change_nothing, grants_are_allocations, legal_steps,
    objects_keep_limits, one_holder, pods_use_claims, users_are_busy, verdicts_are_true,
};
use replay_core::{runs_are_complete, runs_search_within, single_commands_are_undisturbed};

/// The history of a run of commands is true, and so is that of a run and then of a part of one more command:
/// each grant is an allocation, each verdict is true, no device has two holders, and each Schedule that is a
/// single command is undisturbed and complete.
pub fn runs_are_true()
    ensures run { (options : ReplayOptions) (done : List (ℕ × Given)) (h : List Entry) → IsRun options done h → IsTrueRun options done h }
    ensures part { (options : ReplayOptions) (done : List (ℕ × Given)) (c : Given) (h : List Entry) → IsPart options done c h → IsTruePart options done c h }
{
    grants_are_allocations();
    verdicts_are_true();
    legal_steps();
    adoptions_are_allocations();
    denials_change_nothing();
    one_holder();
    objects_keep_limits();
    users_are_busy();
    pods_use_claims();
    runs_are_complete();
    runs_search_within();
    single_commands_are_undisturbed();
}

/// The history that a server made of the requests of connections is true, whether all of them were served or it reached its
/// limit.
pub fn served_are_true()
    ensures served { (options : ServeOptions) (h : List Entry) (visits : List Visit) → IsServed options h visits → IsTrueHistory options.budget h }
    ensures full { (options : ServeOptions) (h : List Entry) (visits : List Visit) → IsFull options h visits → IsTrueHistory options.budget h }
{
    grants_are_allocations();
    verdicts_are_true();
    legal_steps();
    adoptions_are_allocations();
    denials_change_nothing();
    one_holder();
    objects_keep_limits();
    users_are_busy();
    pods_use_claims();
}
