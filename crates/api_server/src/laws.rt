ghost use Rattle.std.specs.Prelude.{◌≡◌, ◌≤◌, ◌+◌, ◌++◌, ◌∷◌, [], ℕ, List, Option, length};
ghost use mathlib.Core.List.{IsPrefix};
ghost use Rattle.cluster.specs.declared.entry.Entry.{Entry};
ghost use Rattle.turn_lock.specs.Known.{IsFree, Known};
ghost use Rattle.sched_job.specs.Owned.{AllIn};
ghost use Rattle.http_wire.specs.Replies.{reply_bytes};
ghost use Rattle.http_wire.specs.Requests.{Message};
ghost use Rattle.http_wire.specs.declared.reply.Reply.{Reply};
ghost use Rattle.api_server.specs.declared.task.Unreplied.{Unreplied};
ghost use Rattle.api_server.specs.declared.task.Unreplied.TheVariants as why;
ghost use Rattle.api_server.specs.Connections.{Connected, IsReplied, IsUnreplied, Replies, job_of};
ghost use Rattle.api_server.specs.Entries.{Grew, HasMade};
ghost use Rattle.api_server.specs.Standing.{AllStand, AllTheirs, IsFullFor};

use crate::{ConnEnd, Service};
use http_wire::requests_lie_in_order;
use sched_job::runs_go_past;

/// However a connection ended, the entries that were made with its pass meanwhile come after all that the pass had
/// seen before, and each is of the job of one of the connection's requests, and of that request's command (`made`). So
/// are those that were made for some of the requests, which are replied to (`replied`), and for one that isn't
/// (`unreplied`).
pub fn connections_make_entries()
    ensures made { (s : Service) (began now : Known Entry) (l l' w w' : Option (List ℕ)) (e : ConnEnd) → IsFree began → Connected s began now l l' w w' e → HasMade s began now l l' }
    ensures replied { (s : Service) (index : ℕ) (old new : Known Entry) (ms : List Message) (out : List ℕ) → IsFree old → Replies s index old ms new out → Grew s index ms old new }
    ensures unreplied { (s : Service) (index : ℕ) (m : Message) (old new : Known Entry) (reason : Unreplied) → IsFree old → IsUnreplied s index m old new reason → Grew s index (m ∷ []) old new }
{
    requests_lie_in_order();
}

/// If each entry of a connection's jobs was made with its pass, as it is if nobody else works on these jobs, the
/// replies stand in the history.
///
/// Each is the reply to its request after so many entries, of which those of a command end with the last entry of the
/// command's job. These counts do not decrease, so a read after a write shows at least that write; the first is at
/// least what the pass had seen before, the last at most what it has seen now. Each command was run to its end from
/// then on (`replies`), and a job that met the limit of the history was begun (`full`). A reply that was written in
/// part is one of these (`push`). Whoever works on the jobs, the history that a request met the limit of has that
/// many entries (`limit`).
pub fn replies_stand_in_order()
    ensures replies { (s : Service) (old new : Known Entry) (ms : List Message) (out added : List ℕ) (h : List Entry) → IsFree old → Replies s 1 old ms new out → new.own ≡ old.own ++ added → IsPrefix new.front h → AllTheirs s 1 ms added h → AllStand s (length old.front) 1 h (length old.front) (length new.front) ms out }
    ensures push { (s : Service) (began mid now : Known Entry) (ms : List Message) (m : Message) (r : Reply) (out : List ℕ) → Replies s 1 began ms mid out → IsReplied s (length ms + 1) m mid now r → Replies s 1 began (ms ++ m ∷ []) now (out ++ reply_bytes r) }
    ensures full { (s : Service) (began mid now : Known Entry) (ms : List Message) (m : Message) (out added : List ℕ) (n : ℕ) → IsFree began → Replies s 1 began ms mid out → IsUnreplied s (length ms + 1) m mid now (why.Full n) → now.own ≡ began.own ++ added → AllIn (job_of s.number (length ms + 1)) added now.front → IsFullFor s (length began.front) (length ms + 1) now m n }
    ensures limit { (s : Service) (index : ℕ) (m : Message) (mid now : Known Entry) (n : ℕ) → IsUnreplied s index m mid now (why.Full n) → (length now.front ≡ n) × (now.number ≤ n) }
{
    runs_go_past();
}
