ghost use Rattle.std.specs.Prelude.{◌≡◌, ◌≤◌, ◌<◌, ◌^◌, ◌+◌, [], length, ℕ, true, IfOk, OnOk, OnErr, IsErrOf, IsSome, None, is_some, vec_len, option_copied};
ghost use Rattle.std.specs.Vec.{vec_capacity};
ghost use Rattle.std.specs.Map.{lookup};
ghost use Rattle.counter_sets.specs.Holding.{AreHeld, Holders};
ghost use Rattle.pool_totals.specs.Counting.{AreCounted};
ghost use Rattle.pool_totals.specs.Drawn.{AreDrawn};
ghost use Rattle.pool_view.specs.Names.{at_key, device_eq};
ghost use Rattle.cluster.specs.declared.entry.Command.TheVariants.{Adopt, Invalid, Schedule};
ghost use Rattle.cluster.specs.declared.entry.Event.TheVariants.{Adopted, Applied, Bound, Conflict, Contended, Deleted, Denied, VerdictGiven, Refused, Released, Reserved, Unreserved, Wrote};
ghost use Rattle.cluster.specs.declared.entry.Refusal.TheVariants as refusal;
ghost use Rattle.cluster.specs.Applied.{with_object};
ghost use Rattle.cluster.specs.Bound.{with_bound};
ghost use Rattle.cluster.specs.Denied.{first_refusal};
ghost use Rattle.cluster.specs.Events.{allows, outcome_of};
ghost use Rattle.cluster.specs.Held.{held};
ghost use Rattle.cluster.specs.History.{entry_at, job_state_of, state_of};
ghost use Rattle.cluster.specs.Ready.{object_of};
ghost use Rattle.cluster.specs.JobState.{failures, has_failed, has_reserved, is_conflicted, is_fresh, may_try};
ghost use Rattle.cluster.specs.State.{has_room, taken_node, use_in, version_of};
ghost use Rattle.histories.specs.Adopted.{MayAdopt, adoption};
ghost use Rattle.histories.specs.Applied.{MayApply, application};
ghost use Rattle.ledger_core.specs.Begun.{Begins};
ghost use Rattle.histories.specs.Bound.{MayBind};
ghost use Rattle.histories.specs.Conflict.{IsNextUse, MayConflict, assumed_by, status_event};
ghost use Rattle.histories.specs.Deleted.{MayDelete, deletion};
ghost use Rattle.histories.specs.Denied.{MayDeny};
ghost use Rattle.histories.specs.VerdictGiven.{MayJudge};
ghost use Rattle.histories.specs.Growth.{AreDatesOf, is_searched};
ghost use Rattle.plan_rules.specs.Failing.{failing};
ghost use Rattle.ledger_core.specs.Ledger.{IsNote, appended, at, job_state_in};
ghost use Rattle.ledger_core.specs.Remembered.{AreSet, IsSame, IsTrueOf};
ghost use Rattle.histories.specs.Legal.{Legal, Step};
ghost use Rattle.histories.specs.Refused.{MayRefuse};
ghost use Rattle.histories.specs.Released.{MayRelease, release_of};
ghost use Rattle.histories.specs.Reserved.{IsPlanned, MayReserve, reservation};
ghost use Rattle.histories.specs.Unreserved.{MayUnreserve};
ghost use Rattle.histories.specs.Wrote.{MayWrite};

use crate::LedgerError;
use crate::counting::put;
use crate::dating::{is_searched, make_slice_row, memory_goes_on};
use crate::deleting::delete_refusal;
use crate::holding::{adopt, free, remove, reserve};
use crate::memos::{put_last, take_last};
use crate::plans::true_plans_pass;
use crate::room::{JobStates, add, append, failures, make_room};
use crate::snapshot::Snapshot;
use api_claim::ClaimStatus;
use cluster::{
    Command, Entry, Event, Failure, JobState, Kept, Mode, Outcome, Phase, Plan, Ready, ReadyParts,
    Refusal, State, Target, Use, Users, Verdict,
};
use counter_sets::{Held, SharedTotals};
use dra_values::{Shared, Text};
use engine_ports::Engine;
use full_nodes::learn_full_slices;
use histories::{one_holder, uids_keep_claims, users_are_busy};
use node_inputs::wanted_in;
use node_memo::{Dates, Memo};
use object_fields::{DeviceId, FieldError, FieldErrorKind, Key};
use plan_rules::{checked_is_allocation, checked_is_known};
use pool_totals::{kept_totals_are_drawn, new_totals};
use std::alloc::{AllocError, Global};
use std::marker::Model;
use std::mem;

/// An entry that was appended.
#[derive(Clone, Copy, Debug, PartialEq, Eq, Drop)]
pub struct Done {
    /// Its index, from 1.
    pub index: u64,
    /// What became of the command.
    pub outcome: Outcome,
}

/// How a pod's scheduling begins.
#[derive(Drop)]
pub enum Start {
    /// The command was denied, which ends its job.
    Denied(Done),
    /// The pod is there and Idle, and a search over the present state may begin.
    Seen(Shared<Snapshot>),
}

/// A legal history, and the state after it.
#[derive(Drop)]
pub struct Ledger {
    entries: Vec<Entry>,
    state: State,
    holders: Held,
    totals: SharedTotals,
    job_states: JobStates,
    limit: u64,
    dates: Shared<Dates>,
    /// Each is of a worker that isn't searching now.
    memos: Vec<Memo>,
    /// Whether what is remembered of nodes was put back since the last snapshot: whoever decides by it has no use for
    /// what the inventory finds out about full slices.
    is_by_memo: bool,
}

impl Model for Ledger {
    ghost use Rattle.ledger_core.specs.Ledger.{History, IsKept};
    ghost use Rattle.ledger_core.specs.Remembered.{Remembers};

    ghost Value = { History };

    ghost view = { λ l. record { entries = l.entries.items; limit = l.limit } };

    ghost invariant = { λ l. IsKept l.entries.items l.state l.holders l.totals l.job_states l.limit × Remembers l.entries.items l.dates l.memos.items };
}

impl Ledger {
    /// The empty ledger, which may have so many entries.
    pub fn new(alloc: Global, limit: u64) -> Result<Ledger, AllocError>
        requires { limit < 2 ^ 48 }
        ensures { IfOk result (λ ledger. ledger ≡ record { entries = []; limit = limit }) }
    {
        memory_goes_on();
        let dates = Shared::new(alloc, Dates::new(alloc)?)?;
        let holders = Held::new(alloc)?;
        let state = State::new(alloc)?;
        let totals = new_totals(alloc, &state.inventory)?;
        Ok(Ledger {
            entries: Vec::new(alloc),
            state,
            holders,
            totals,
            job_states: JobStates::new(alloc),
            limit,
            dates,
            memos: Vec::new(alloc),
            is_by_memo: false,
        })
    }

    /// How many entries there are.
    pub fn len(&self) -> u64
        ensures length { result ≡ length self.now.entries }
        ensures within { result ≤ self.now.limit }
        ensures legal { Legal self.now.entries }
    {
        self.entries.len() as u64
    }

    /// All entries in order.
    pub fn entries(&self) -> &[Entry]
        ensures { result.now ≡ self.now.entries }
    {
        &self.entries
    }

    /// The state after all entries.
    pub fn state(&self) -> &State
        ensures { result.now ≡ state_of self.now.entries }
    {
        &self.state
    }

    /// The devices that claims hold after all entries, each with its claim.
    pub fn holders(&self) -> &Held
        ensures { AreHeld result.now (held (state_of self.now.entries)) }
    {
        &self.holders
    }

    /// The claim that holds a device, if one does. Allocates nothing.
    pub fn holder(&self, device: &DeviceId) -> Option<&Key>
        ensures { option_copied result ≡ lookup (λ d. device_eq d device.now) (held (state_of self.now.entries)) }
    {
        self.holders.holder(device)
    }

    /// The counters of the usable pools after all entries, with what the devices draw from each that claims hold.
    /// Allocates nothing.
    pub fn totals(&self) -> &SharedTotals
        ensures drawn { AreDrawn (state_of self.now.entries).inventory (held (state_of self.now.entries)) result.now }
        ensures counted { (h : Holders) → AreHeld h (held (state_of self.now.entries)) → AreCounted (state_of self.now.entries).inventory h result.now }
    {
        kept_totals_are_drawn();
        &self.totals
    }

    /// When nodes, slices and classes changed last, and when devices of each pool may have been freed last, by the
    /// indexes of entries. Allocates nothing.
    pub fn dates(&self) -> &Dates
        ensures { AreDatesOf self.now.entries result.now }
    {
        &self.dates
    }

    /// The same dates, which stay as they are while the ledger goes on. Allocates nothing; `AllocError` only if a count of
    /// owners is full.
    pub fn share_dates(&self) -> Result<Shared<Dates>, AllocError>
        ensures { IfOk result (AreDatesOf self.now.entries) }
    {
        self.dates.share()
    }

    /// Takes out what is remembered of nodes that have no allocation: what was put back last, or nothing if others have it
    /// all. It is true of the present state by its dates. Allocates nothing.
    pub fn take_memo(&mut self, alloc: Global) -> Memo
        ensures same { self.new ≡ self.old }
        ensures known { IsTrueOf self.old.entries result }
    {
        take_last(alloc, &mut self.memos)
    }

    /// Remembers of nodes what is true of the present state, beside what others put back. It is forgotten if memory runs
    /// out.
    pub fn put_memo(&mut self, memo: Memo)
        requires { IsTrueOf self.old.entries memo }
        ensures { self.new ≡ self.old }
    {
        put_last(&mut self.memos, memo);
        self.is_by_memo = true;
    }

    /// The entry at an index, from 1.
    pub fn entry(&self, index: u64) -> Option<&Entry>
        ensures { option_copied result ≡ entry_at self.now.entries index }
    {
        if index == 0 {
            return None;
        }
        self.entries.get((index - 1) as usize)
    }

    /// The state of a job after its entries.
    pub fn job_state(&self, job: u64) -> JobState
        ensures { result ≡ job_state_of self.now.entries job }
    {
        self.job_states.state(job)
    }

    /// Applies an object whose selectors are compiled, by the mode: it is created, with the entry's index
    /// as its uid and its version, or updated, and then it keeps its uid and what was granted, and its
    /// version becomes that index. If a refusal of the command holds (`State::first_refusal`), the
    /// entry is a denial that carries the object, the mode and the first such, and the state stays
    /// as it was. `Full` is returned if the history has its limit of entries, and `Memory` only if memory
    /// runs out; then nothing changed.
    pub fn apply(
        &mut self,
        alloc: Global,
        job: u64,
        ready: Ready,
        mode: Mode,
    ) -> Result<Done, LedgerError>
        requires job_state { allows (job_state_of self.old.entries job) (Applied ready mode) ≡ true }
        ensures ok { OnOk result (self.new ≡ appended self.old job (application (state_of self.old.entries) ready mode)) }
        ensures index { IfOk result (λ done. done.index ≡ length self.new.entries) }
        ensures outcome { IfOk result (λ done. done.outcome ≡ outcome_of (application (state_of self.old.entries) ready mode)) }
        ensures legal { Legal self.new.entries }
        ensures full { (n : ℕ) → IsErrOf result (LedgerError.Full n) → (length self.old.entries ≡ n) × (self.old.limit ≤ n) }
        ensures err { OnErr result (self.new ≡ self.old) }
    {
        match self.state.apply_refusal(ready.object(), mode) {
            None => self.put(alloc, job, ready, mode),
            Some(refusal) => {
                let object = ready.into_parts().object;
                self.refuse(job, Command::Apply { object, mode }, refusal)
            }
        }
    }

    /// Takes the object of a kind and name away. If a refusal of the command holds
    /// (`State::first_refusal`), the entry is a denial that carries the target and the first such, and
    /// the state stays as it was. `Full` is returned if the history has its limit of entries, and `Memory`
    /// only if memory runs out; then nothing changed.
    pub fn delete(&mut self, alloc: Global, job: u64, target: &Target) -> Result<Done, LedgerError>
        requires job_state { allows (job_state_of self.old.entries job) (Deleted target.now) ≡ true }
        ensures ok { OnOk result (self.new ≡ appended self.old job (deletion (state_of self.old.entries) target.now)) }
        ensures index { IfOk result (λ done. done.index ≡ length self.new.entries) }
        ensures outcome { IfOk result (λ done. done.outcome ≡ outcome_of (deletion (state_of self.old.entries) target.now)) }
        ensures legal { Legal self.new.entries }
        ensures full { (n : ℕ) → IsErrOf result (LedgerError.Full n) → (length self.old.entries ≡ n) × (self.old.limit ≤ n) }
        ensures err { OnErr result (self.new ≡ self.old) }
    {
        users_are_busy();
        match delete_refusal(&self.state, target) {
            None => self.take_away(alloc, job, target),
            Some(refusal) => {
                let target = target.copy(alloc)?;
                self.refuse(job, Command::Delete(target), refusal)
            }
        }
    }

    /// Refuses the document of an object whose fields have this first error, and changes nothing but
    /// the history. `Full` is returned if the history has its limit of entries, and `Memory` only if
    /// memory runs out or if the error itself is out of memory; then nothing changed.
    pub fn deny(&mut self, job: u64, error: FieldError) -> Result<Done, LedgerError>
        requires { allows (job_state_of self.old.entries job) (Denied (Invalid error) refusal.Invalid) ≡ true }
        ensures ok { OnOk result (self.new ≡ appended self.old job (Denied (Invalid error) refusal.Invalid)) }
        ensures index { IfOk result (λ done. done.index ≡ length self.new.entries) }
        ensures outcome { IfOk result (λ done. done.outcome ≡ Outcome.Denied) }
        ensures legal { Legal self.new.entries }
        ensures full { (n : ℕ) → IsErrOf result (LedgerError.Full n) → (length self.old.entries ≡ n) × (self.old.limit ≤ n) }
        ensures err { OnErr result (self.new ≡ self.old) }
    {
        let _entries = self.len();
        if error.kind == FieldErrorKind::Memory {
            return Err(LedgerError::Memory);
        }
        self.refuse(job, Command::Invalid(error), Refusal::Invalid)
    }

    /// Begins to schedule a pod: if a refusal of the command holds (`State::schedule_refusal`), the entry
    /// is a denial that carries the pod and the first such, and the state stays as it was; else the
    /// pod is there and Idle, nothing is appended, and a snapshot of the present state is returned. `Full`
    /// is returned only if such a refusal holds and the history has its limit of entries, which `Full`
    /// carries, and `Memory` only if memory runs out; then nothing changed.
    pub fn begin(&mut self, alloc: Global, job: u64, pod: &Key) -> Result<Start, LedgerError>
        requires { may_try (job_state_of self.old.entries job) ≡ true }
        ensures begins { IfOk result (λ start. Begins self.old self.new job pod.now start) }
        ensures legal { Legal self.new.entries }
        ensures full { (n : ℕ) → IsErrOf result (LedgerError.Full n) → (length self.old.entries ≡ n) × (self.old.limit ≡ n) × IsSome (first_refusal (state_of self.old.entries) (Schedule pod.now)) }
        ensures err { OnErr result (self.new ≡ self.old) }
    {
        let at = self.len();
        match self.state.schedule_refusal(alloc, pod)? {
            None => {
                let snapshot = take_snapshot(
                    alloc,
                    &mut self.state,
                    &self.holders,
                    &self.totals,
                    pod,
                    at,
                    !self.is_by_memo,
                )?;
                self.is_by_memo = false;
                Ok(Start::Seen(snapshot))
            }
            Some(refusal) => {
                let done = self.refuse_schedule(alloc, job, pod, refusal)?;
                Ok(Start::Denied(done))
            }
        }
    }

    /// Makes the grants of a plan that was true at its index, if the plan doesn't fail now, and takes the pod
    /// for the job. If the pod can't be scheduled any more, the entry is a denial, and if the plan fails
    /// against the present state (`Engine::check_again`), it is a refusal that carries the first failure; then
    /// the state stays as it was. A plan of the present index can't fail. `Full` is
    /// returned if the history has its limit of entries, and `Memory` only if memory runs out; then nothing
    /// changed.
    pub fn reserve<E: Engine>(
        &mut self,
        alloc: Global,
        job: u64,
        pod: &Key,
        plan: &Plan,
    ) -> Result<Done, LedgerError>
        requires job_state { may_try (job_state_of self.old.entries job) ≡ true }
        requires plan { IsPlanned self.old.entries pod.now plan.now }
        ensures ok { OnOk result (self.new ≡ appended self.old job (reservation (state_of self.old.entries) pod.now plan.now)) }
        ensures index { IfOk result (λ done. done.index ≡ length self.new.entries) }
        ensures outcome { IfOk result (λ done. done.outcome ≡ outcome_of (reservation (state_of self.old.entries) pod.now plan.now)) }
        ensures legal { Legal self.new.entries }
        ensures full { (n : ℕ) → IsErrOf result (LedgerError.Full n) → (length self.old.entries ≡ n) × (self.old.limit ≤ n) }
        ensures err { OnErr result (self.new ≡ self.old) }
    {
        match self.state.schedule_refusal(alloc, pod)? {
            None => self.reserve_idle::<E>(alloc, job, pod, plan),
            Some(refusal) => self.refuse_schedule(alloc, job, pod, refusal),
        }
    }

    /// Writes the pod's use of its next claim, if the claim has the version that it had when the job
    /// reserved; else the entry is a conflict that carries both versions, and the state stays as it was.
    pub fn write_status(
        &mut self,
        alloc: Global,
        job: u64,
        pod: &Key,
        claim: &Key,
    ) -> Result<Done, LedgerError>
        requires job_state { has_reserved (job_state_of self.old.entries job) ≡ true }
        requires step { (had : ℕ) × IsNextUse (state_of self.old.entries) pod.now job claim.now had }
        ensures ok { OnOk result (self.new ≡ appended self.old job (status_event (state_of self.old.entries) pod.now claim.now)) }
        ensures index { IfOk result (λ done. done.index ≡ length self.new.entries) }
        ensures outcome { IfOk result (λ done. done.outcome ≡ outcome_of (status_event (state_of self.old.entries) pod.now claim.now)) }
        ensures legal { Legal self.new.entries }
        ensures full { (n : ℕ) → IsErrOf result (LedgerError.Full n) → (length self.old.entries ≡ n) × (self.old.limit ≤ n) }
        ensures err { OnErr result (self.new ≡ self.old) }
    {
        let had = assumed(&self.state, pod, claim);
        let now = version(&self.state, claim);
        if had == now {
            self.write(alloc, job, pod, claim)
        } else {
            self.conflict(alloc, job, pod, claim, had, now)
        }
    }

    /// Gives up what the job reserved, after a conflict: the pod's uses are taken away, claims without users
    /// lose their grants, and the pod is Idle again.
    pub fn unreserve(&mut self, alloc: Global, job: u64, pod: &Key) -> Result<Done, LedgerError>
        requires job_state { is_conflicted (job_state_of self.old.entries job) ≡ true }
        requires step { MayUnreserve (state_of self.old.entries) pod.now job }
        ensures ok { OnOk result (self.new ≡ appended self.old job (Unreserved pod.now)) }
        ensures index { IfOk result (λ done. done.index ≡ length self.new.entries) }
        ensures outcome { IfOk result (λ done. done.outcome ≡ outcome_of (Unreserved pod.now)) }
        ensures legal { Legal self.new.entries }
        ensures full { (n : ℕ) → IsErrOf result (LedgerError.Full n) → (length self.old.entries ≡ n) × (self.old.limit ≤ n) }
        ensures err { OnErr result (self.new ≡ self.old) }
    {
        one_holder();
        memory_goes_on();
        let index = make_room(&mut self.entries, &mut self.job_states, self.limit, job)?;
        let pod = free(
            alloc,
            &mut self.state,
            &mut self.holders,
            &mut self.totals,
            &mut self.dates,
            index,
            pod,
        )?;
        let event = Event::Unreserved(pod);
        append(&mut self.entries, &mut self.job_states, job, event);
        Ok(Done {
            index,
            outcome: Outcome::Made,
        })
    }

    /// Binds the pod to the node that the job took it for, once each of its uses is written.
    pub fn bind(&mut self, alloc: Global, job: u64, pod: &Key) -> Result<Done, LedgerError>
        requires job_state { has_reserved (job_state_of self.old.entries job) ≡ true }
        requires step { MayBind (state_of self.old.entries) pod.now job (taken_node (state_of self.old.entries) pod.now) }
        ensures ok { OnOk result (self.new ≡ appended self.old job (Bound pod.now (taken_node (state_of self.old.entries) pod.now))) }
        ensures index { IfOk result (λ done. done.index ≡ length self.new.entries) }
        ensures outcome { IfOk result (λ done. done.outcome ≡ outcome_of (Bound pod.now (taken_node (state_of self.old.entries) pod.now))) }
        ensures legal { Legal self.new.entries }
        ensures full { (n : ℕ) → IsErrOf result (LedgerError.Full n) → (length self.old.entries ≡ n) × (self.old.limit ≤ n) }
        ensures err { OnErr result (self.new ≡ self.old) }
    {
        memory_goes_on();
        let index = make_room(&mut self.entries, &mut self.job_states, self.limit, job)?;
        let (pod, node) = bind(alloc, &mut self.state, pod)?;
        let event = Event::Bound { pod, node };
        append(&mut self.entries, &mut self.job_states, job, event);
        Ok(Done {
            index,
            outcome: Outcome::Made,
        })
    }

    /// Says that a pod can't be scheduled, by a verdict that was true at its index.
    pub fn record_verdict(
        &mut self,
        alloc: Global,
        job: u64,
        pod: &Key,
        verdict: Verdict,
    ) -> Result<Done, LedgerError>
        requires job_state { may_try (job_state_of self.old.entries job) ≡ true }
        requires verdict { MayJudge self.old.entries pod.now verdict }
        ensures ok { OnOk result (self.new ≡ appended self.old job (VerdictGiven pod.now verdict)) }
        ensures index { IfOk result (λ done. done.index ≡ length self.new.entries) }
        ensures outcome { IfOk result (λ done. done.outcome ≡ outcome_of (VerdictGiven pod.now verdict)) }
        ensures legal { Legal self.new.entries }
        ensures full { (n : ℕ) → IsErrOf result (LedgerError.Full n) → (length self.old.entries ≡ n) × (self.old.limit ≤ n) }
        ensures err { OnErr result (self.new ≡ self.old) }
    {
        let _entries = self.len();
        let (pod, verdict) = kept(alloc, pod, verdict)?;
        let index = self.note(job, Event::VerdictGiven { pod, verdict })?;
        Ok(Done {
            index,
            outcome: Outcome::Made,
        })
    }

    /// Says that as many attempts to schedule a pod have failed as the job has made, which ends it.
    pub fn record_contended(
        &mut self,
        alloc: Global,
        job: u64,
        pod: &Key,
    ) -> Result<Done, LedgerError>
        requires job_state { has_failed (job_state_of self.old.entries job) ≡ true }
        ensures ok { OnOk result (self.new ≡ appended self.old job (Contended pod.now (failures (job_state_of self.old.entries job)))) }
        ensures index { IfOk result (λ done. done.index ≡ length self.new.entries) }
        ensures outcome { IfOk result (λ done. done.outcome ≡ outcome_of (Contended pod.now (failures (job_state_of self.old.entries job)))) }
        ensures legal { Legal self.new.entries }
        ensures full { (n : ℕ) → IsErrOf result (LedgerError.Full n) → (length self.old.entries ≡ n) × (self.old.limit ≤ n) }
        ensures err { OnErr result (self.new ≡ self.old) }
    {
        let _entries = self.len();
        let attempts = failures(self.job_state(job));
        let pod = pod.copy(alloc)?;
        let index = self.note(job, Event::Contended { pod, attempts })?;
        Ok(Done {
            index,
            outcome: Outcome::Made,
        })
    }

    /// Takes the uses of a bound pod away: claims without users lose their grants, and the pod is Idle again.
    /// If a refusal of the command holds (`State::release_refusal`), the entry is a denial that carries the
    /// pod and the first such, and the state stays as it was. `Full` is returned if the history has its limit of
    /// entries, and `Memory` only if memory runs out; then nothing changed.
    pub fn release(&mut self, alloc: Global, job: u64, pod: &Key) -> Result<Done, LedgerError>
        requires { is_fresh (job_state_of self.old.entries job) ≡ true }
        ensures ok { OnOk result (self.new ≡ appended self.old job (release_of (state_of self.old.entries) pod.now)) }
        ensures index { IfOk result (λ done. done.index ≡ length self.new.entries) }
        ensures outcome { IfOk result (λ done. done.outcome ≡ outcome_of (release_of (state_of self.old.entries) pod.now)) }
        ensures legal { Legal self.new.entries }
        ensures full { (n : ℕ) → IsErrOf result (LedgerError.Full n) → (length self.old.entries ≡ n) × (self.old.limit ≤ n) }
        ensures err { OnErr result (self.new ≡ self.old) }
    {
        match self.state.release_refusal(pod) {
            None => self.release_bound(alloc, job, pod),
            Some(refusal) => {
                let pod = pod.copy(alloc)?;
                self.refuse(job, Command::Release(pod), refusal)
            }
        }
    }

    /// Grants a claim what a status write says, published and without users. If a refusal of the command
    /// holds (`State::status_refusal`), or else the grant isn't an allocation of the claim
    /// (`Engine::check_status`), the entry is a denial that carries the claim, the status and the first
    /// such, and the state stays as it was. `Full` is returned if the history has its limit of entries, and
    /// `Memory` only if memory runs out; then nothing changed.
    pub fn adopt<E: Engine>(
        &mut self,
        alloc: Global,
        job: u64,
        claim: &Key,
        status: ClaimStatus,
    ) -> Result<Done, LedgerError>
        requires { is_fresh (job_state_of self.old.entries job) ≡ true }
        ensures ok { OnOk result (self.new ≡ appended self.old job (adoption (state_of self.old.entries) claim.now status)) }
        ensures index { IfOk result (λ done. done.index ≡ length self.new.entries) }
        ensures outcome { IfOk result (λ done. done.outcome ≡ outcome_of (adoption (state_of self.old.entries) claim.now status)) }
        ensures legal { Legal self.new.entries }
        ensures full { (n : ℕ) → IsErrOf result (LedgerError.Full n) → (length self.old.entries ≡ n) × (self.old.limit ≤ n) }
        ensures err { OnErr result (self.new ≡ self.old) }
    {
        let _entries = self.len();
        let status = Shared::new(alloc, status)?;
        match self.state.status_refusal(claim, status.value()) {
            None => self.adopt_free::<E>(alloc, job, claim, status),
            Some(refusal) => self.refuse_status(alloc, job, claim, status, refusal),
        }
    }
}

impl Ledger {
    /// Applies an object that nothing refuses.
    fn put(
        &mut self,
        alloc: Global,
        job: u64,
        ready: Ready,
        mode: Mode,
    ) -> Result<Done, LedgerError>
        requires job_state { allows (job_state_of self.old.entries job) (Applied ready mode) ≡ true }
        requires applied { MayApply (state_of self.old.entries) ready mode }
        ensures ok { OnOk result (self.new ≡ appended self.old job (Applied ready mode)) }
        ensures index { IfOk result (λ done. done.index ≡ length self.new.entries) }
        ensures outcome { IfOk result (λ done. done.outcome ≡ Outcome.Made) }
        ensures legal { Legal self.new.entries }
        ensures full { (n : ℕ) → IsErrOf result (LedgerError.Full n) → (length self.old.entries ≡ n) × (self.old.limit ≤ n) }
        ensures err { OnErr result (self.new ≡ self.old) }
    {
        memory_goes_on();
        let ReadyParts { object, kept } = ready.into_parts();
        let index = put_object(
            alloc,
            &mut self.entries,
            &mut self.job_states,
            &mut self.state,
            &self.holders,
            &mut self.totals,
            &mut self.dates,
            self.limit,
            job,
            kept,
        )?;
        let event = Event::Applied { object, mode };
        append(&mut self.entries, &mut self.job_states, job, event);
        Ok(Done {
            index,
            outcome: Outcome::Made,
        })
    }

    /// Takes an object away of which nothing refuses it.
    fn take_away(&mut self, alloc: Global, job: u64, target: &Target) -> Result<Done, LedgerError>
        requires job_state { allows (job_state_of self.old.entries job) (Deleted target.now) ≡ true }
        requires deleted { MayDelete (state_of self.old.entries) target.now }
        ensures ok { OnOk result (self.new ≡ appended self.old job (Deleted target.now)) }
        ensures index { IfOk result (λ done. done.index ≡ length self.new.entries) }
        ensures outcome { IfOk result (λ done. done.outcome ≡ Outcome.Made) }
        ensures legal { Legal self.new.entries }
        ensures full { (n : ℕ) → IsErrOf result (LedgerError.Full n) → (length self.old.entries ≡ n) × (self.old.limit ≤ n) }
        ensures err { OnErr result (self.new ≡ self.old) }
    {
        one_holder();
        memory_goes_on();
        let index = make_room(&mut self.entries, &mut self.job_states, self.limit, job)?;
        let target = remove(
            alloc,
            &mut self.state,
            &mut self.holders,
            &mut self.totals,
            &mut self.dates,
            index,
            target,
        )?;
        let event = Event::Deleted(target);
        append(&mut self.entries, &mut self.job_states, job, event);
        Ok(Done {
            index,
            outcome: Outcome::Made,
        })
    }

    /// Appends an entry whose event changes no state and sets no date, and returns its index.
    fn note(&mut self, job: u64, event: Event) -> Result<u64, LedgerError>
        requires step { Step self.old.entries (record { job = job; event = event }) }
        requires note { IsNote event }
        ensures ok { OnOk result (self.new ≡ appended self.old job event) }
        ensures index { IfOk result (λ index. index ≡ length self.new.entries) }
        ensures legal { Legal self.new.entries }
        ensures full { (n : ℕ) → IsErrOf result (LedgerError.Full n) → (length self.old.entries ≡ n) × (self.old.limit ≤ n) }
        ensures err { OnErr result (self.new ≡ self.old) }
    {
        memory_goes_on();
        let index = add(
            &mut self.entries,
            &mut self.job_states,
            self.limit,
            job,
            event,
        )?;
        Ok(index)
    }

    /// Refuses a command.
    fn refuse(&mut self, job: u64, command: Command, refusal: Refusal) -> Result<Done, LedgerError>
        requires job_state { allows (job_state_of self.old.entries job) (Denied command refusal) ≡ true }
        requires due { MayDeny (state_of self.old.entries) command refusal }
        ensures ok { OnOk result (self.new ≡ appended self.old job (Denied command refusal)) }
        ensures index { IfOk result (λ done. done.index ≡ length self.new.entries) }
        ensures outcome { IfOk result (λ done. done.outcome ≡ Outcome.Denied) }
        ensures legal { Legal self.new.entries }
        ensures full { (n : ℕ) → IsErrOf result (LedgerError.Full n) → (length self.old.entries ≡ n) × (self.old.limit ≤ n) }
        ensures err { OnErr result (self.new ≡ self.old) }
    {
        let index = self.note(job, Event::Denied { command, refusal })?;
        Ok(Done {
            index,
            outcome: Outcome::Denied,
        })
    }

    /// Reserves by a plan for a pod that is there and Idle, or records why the plan fails.
    fn reserve_idle<E: Engine>(
        &mut self,
        alloc: Global,
        job: u64,
        pod: &Key,
        plan: &Plan,
    ) -> Result<Done, LedgerError>
        requires job_state { may_try (job_state_of self.old.entries job) ≡ true }
        requires plan { IsPlanned self.old.entries pod.now plan.now }
        requires unrefused { first_refusal (state_of self.old.entries) (Schedule pod.now) ≡ None }
        ensures ok { OnOk result (self.new ≡ appended self.old job (reservation (state_of self.old.entries) pod.now plan.now)) }
        ensures index { IfOk result (λ done. done.index ≡ length self.new.entries) }
        ensures outcome { IfOk result (λ done. done.outcome ≡ outcome_of (reservation (state_of self.old.entries) pod.now plan.now)) }
        ensures legal { Legal self.new.entries }
        ensures full { (n : ℕ) → IsErrOf result (LedgerError.Full n) → (length self.old.entries ≡ n) × (self.old.limit ≤ n) }
        ensures err { OnErr result (self.new ≡ self.old) }
    {
        checked_is_known();
        checked_is_allocation();
        uids_keep_claims();
        match self.failure::<E>(alloc, pod, plan)? {
            None => self.take(alloc, job, pod, plan),
            Some(why) => self.refuse_plan(alloc, job, pod, plan, why),
        }
    }

    /// The first failure of a plan, which was true at its index, against the present state.
    fn failure<E: Engine>(
        &self,
        alloc: Global,
        pod: &Key,
        plan: &Plan,
    ) -> Result<Option<Shared<Failure>>, AllocError>
        requires { IsPlanned self.now.entries pod.now plan.now }
        ensures first { IfOk result (λ found. found ≡ failing (state_of self.now.entries) pod.now plan.now) }
        ensures legal { Legal self.now.entries }
    {
        true_plans_pass();
        let at = self.len();
        let failure = E::check_again(
            alloc,
            &self.state,
            &self.holders,
            &self.totals,
            pod,
            plan,
            at,
        )?;
        shared(alloc, failure)
    }

    /// Records why a plan fails.
    fn refuse_plan(
        &mut self,
        alloc: Global,
        job: u64,
        pod: &Key,
        plan: &Plan,
        why: Shared<Failure>,
    ) -> Result<Done, LedgerError>
        requires job_state { may_try (job_state_of self.old.entries job) ≡ true }
        requires refused { MayRefuse self.old.entries pod.now plan.now why }
        ensures ok { OnOk result (self.new ≡ appended self.old job (Refused pod.now plan.now why)) }
        ensures index { IfOk result (λ done. done.index ≡ length self.new.entries) }
        ensures outcome { IfOk result (λ done. done.outcome ≡ Outcome.Refused) }
        ensures legal { Legal self.new.entries }
        ensures full { (n : ℕ) → IsErrOf result (LedgerError.Full n) → (length self.old.entries ≡ n) × (self.old.limit ≤ n) }
        ensures err { OnErr result (self.new ≡ self.old) }
    {
        let _entries = self.len();
        let event = refused(alloc, pod, plan, why)?;
        let index = self.note(job, event)?;
        Ok(Done {
            index,
            outcome: Outcome::Refused,
        })
    }

    /// Reserves by a plan that doesn't fail.
    fn take(&mut self, alloc: Global, job: u64, pod: &Key, plan: &Plan) -> Result<Done, LedgerError>
        requires job_state { may_try (job_state_of self.old.entries job) ≡ true }
        requires reserved { MayReserve self.old.entries pod.now plan.now }
        ensures ok { OnOk result (self.new ≡ appended self.old job (Reserved pod.now plan.now)) }
        ensures index { IfOk result (λ done. done.index ≡ length self.new.entries) }
        ensures outcome { IfOk result (λ done. done.outcome ≡ Outcome.Made) }
        ensures legal { Legal self.new.entries }
        ensures full { (n : ℕ) → IsErrOf result (LedgerError.Full n) → (length self.old.entries ≡ n) × (self.old.limit ≤ n) }
        ensures err { OnErr result (self.new ≡ self.old) }
    {
        one_holder();
        memory_goes_on();
        let index = make_room(&mut self.entries, &mut self.job_states, self.limit, job)?;
        let (pod, plan) = reserve(
            alloc,
            &mut self.state,
            &mut self.holders,
            &mut self.totals,
            job,
            pod,
            plan,
        )?;
        let event = Event::Reserved { pod, plan };
        append(&mut self.entries, &mut self.job_states, job, event);
        Ok(Done {
            index,
            outcome: Outcome::Made,
        })
    }

    /// Writes the pod's use of a claim, which has the version that it had when the job reserved.
    fn write(
        &mut self,
        alloc: Global,
        job: u64,
        pod: &Key,
        claim: &Key,
    ) -> Result<Done, LedgerError>
        requires job_state { has_reserved (job_state_of self.old.entries job) ≡ true }
        requires step { MayWrite (state_of self.old.entries) pod.now job claim.now (version_of (state_of self.old.entries) claim.now) }
        ensures ok { OnOk result (self.new ≡ appended self.old job (Wrote pod.now claim.now (version_of (state_of self.old.entries) claim.now))) }
        ensures index { IfOk result (λ done. done.index ≡ length self.new.entries) }
        ensures outcome { IfOk result (λ done. done.outcome ≡ Outcome.Made) }
        ensures legal { Legal self.new.entries }
        ensures full { (n : ℕ) → IsErrOf result (LedgerError.Full n) → (length self.old.entries ≡ n) × (self.old.limit ≤ n) }
        ensures err { OnErr result (self.new ≡ self.old) }
    {
        memory_goes_on();
        let index = make_room(&mut self.entries, &mut self.job_states, self.limit, job)?;
        let kept_pod = pod.copy(alloc)?;
        let kept_claim = claim.copy(alloc)?;
        let seen = version(&self.state, claim);
        self.state.write(alloc, index, pod, claim)?;
        let event = Event::Wrote {
            pod: kept_pod,
            claim: kept_claim,
            seen,
        };
        append(&mut self.entries, &mut self.job_states, job, event);
        Ok(Done {
            index,
            outcome: Outcome::Made,
        })
    }

    /// Says that a claim has another version than it had when the job reserved.
    fn conflict(
        &mut self,
        alloc: Global,
        job: u64,
        pod: &Key,
        claim: &Key,
        had: u64,
        now: u64,
    ) -> Result<Done, LedgerError>
        requires job_state { has_reserved (job_state_of self.old.entries job) ≡ true }
        requires differ { MayConflict (state_of self.old.entries) pod.now job claim.now had now }
        ensures ok { OnOk result (self.new ≡ appended self.old job (Conflict pod.now claim.now had now)) }
        ensures index { IfOk result (λ done. done.index ≡ length self.new.entries) }
        ensures outcome { IfOk result (λ done. done.outcome ≡ Outcome.Conflicted) }
        ensures legal { Legal self.new.entries }
        ensures full { (n : ℕ) → IsErrOf result (LedgerError.Full n) → (length self.old.entries ≡ n) × (self.old.limit ≤ n) }
        ensures err { OnErr result (self.new ≡ self.old) }
    {
        let _entries = self.len();
        let pod = pod.copy(alloc)?;
        let claim = claim.copy(alloc)?;
        let event = Event::Conflict {
            pod,
            claim,
            had,
            now,
        };
        let index = self.note(job, event)?;
        Ok(Done {
            index,
            outcome: Outcome::Conflicted,
        })
    }

    /// Takes the uses of a bound pod away.
    fn release_bound(&mut self, alloc: Global, job: u64, pod: &Key) -> Result<Done, LedgerError>
        requires job_state { is_fresh (job_state_of self.old.entries job) ≡ true }
        requires released { MayRelease (state_of self.old.entries) pod.now }
        ensures ok { OnOk result (self.new ≡ appended self.old job (Released pod.now)) }
        ensures index { IfOk result (λ done. done.index ≡ length self.new.entries) }
        ensures outcome { IfOk result (λ done. done.outcome ≡ Outcome.Made) }
        ensures legal { Legal self.new.entries }
        ensures full { (n : ℕ) → IsErrOf result (LedgerError.Full n) → (length self.old.entries ≡ n) × (self.old.limit ≤ n) }
        ensures err { OnErr result (self.new ≡ self.old) }
    {
        one_holder();
        memory_goes_on();
        let index = make_room(&mut self.entries, &mut self.job_states, self.limit, job)?;
        let pod = free(
            alloc,
            &mut self.state,
            &mut self.holders,
            &mut self.totals,
            &mut self.dates,
            index,
            pod,
        )?;
        let event = Event::Released(pod);
        append(&mut self.entries, &mut self.job_states, job, event);
        Ok(Done {
            index,
            outcome: Outcome::Made,
        })
    }

    /// Grants a claim, which is there without a grant, what a status write says, or refuses that.
    fn adopt_free<E: Engine>(
        &mut self,
        alloc: Global,
        job: u64,
        claim: &Key,
        status: Shared<ClaimStatus>,
    ) -> Result<Done, LedgerError>
        requires job_state { is_fresh (job_state_of self.old.entries job) ≡ true }
        requires unrefused { first_refusal (state_of self.old.entries) (Adopt claim.now status) ≡ None }
        ensures ok { OnOk result (self.new ≡ appended self.old job (adoption (state_of self.old.entries) claim.now status)) }
        ensures index { IfOk result (λ done. done.index ≡ length self.new.entries) }
        ensures outcome { IfOk result (λ done. done.outcome ≡ outcome_of (adoption (state_of self.old.entries) claim.now status)) }
        ensures legal { Legal self.new.entries }
        ensures full { (n : ℕ) → IsErrOf result (LedgerError.Full n) → (length self.old.entries ≡ n) × (self.old.limit ≤ n) }
        ensures err { OnErr result (self.new ≡ self.old) }
    {
        let failure = E::check_status(
            alloc,
            &self.state,
            &self.holders,
            &self.totals,
            claim,
            status.value(),
        )?;
        match shared(alloc, failure)? {
            None => self.make_grant(alloc, job, claim, status),
            Some(failure) => {
                self.refuse_status(alloc, job, claim, status, Refusal::Failure(failure))
            }
        }
    }

    /// Refuses to schedule a pod.
    fn refuse_schedule(
        &mut self,
        alloc: Global,
        job: u64,
        pod: &Key,
        refusal: Refusal,
    ) -> Result<Done, LedgerError>
        requires job_state { may_try (job_state_of self.old.entries job) ≡ true }
        requires due { MayDeny (state_of self.old.entries) (Schedule pod.now) refusal }
        ensures ok { OnOk result (self.new ≡ appended self.old job (Denied (Schedule pod.now) refusal)) }
        ensures index { IfOk result (λ done. done.index ≡ length self.new.entries) }
        ensures outcome { IfOk result (λ done. done.outcome ≡ Outcome.Denied) }
        ensures legal { Legal self.new.entries }
        ensures full { (n : ℕ) → IsErrOf result (LedgerError.Full n) → (length self.old.entries ≡ n) × (self.old.limit ≤ n) }
        ensures err { OnErr result (self.new ≡ self.old) }
    {
        let _entries = self.len();
        let pod = pod.copy(alloc)?;
        self.refuse(job, Command::Schedule(pod), refusal)
    }

    /// Refuses a status write.
    fn refuse_status(
        &mut self,
        alloc: Global,
        job: u64,
        claim: &Key,
        status: Shared<ClaimStatus>,
        refusal: Refusal,
    ) -> Result<Done, LedgerError>
        requires job_state { is_fresh (job_state_of self.old.entries job) ≡ true }
        requires due { MayDeny (state_of self.old.entries) (Adopt claim.now status) refusal }
        ensures ok { OnOk result (self.new ≡ appended self.old job (Denied (Adopt claim.now status) refusal)) }
        ensures index { IfOk result (λ done. done.index ≡ length self.new.entries) }
        ensures outcome { IfOk result (λ done. done.outcome ≡ Outcome.Denied) }
        ensures legal { Legal self.new.entries }
        ensures full { (n : ℕ) → IsErrOf result (LedgerError.Full n) → (length self.old.entries ≡ n) × (self.old.limit ≤ n) }
        ensures err { OnErr result (self.new ≡ self.old) }
    {
        let _entries = self.len();
        let claim = claim.copy(alloc)?;
        self.refuse(job, Command::Adopt { claim, status }, refusal)
    }

    /// Grants a claim what a status write says, of which nothing refuses it.
    fn make_grant(
        &mut self,
        alloc: Global,
        job: u64,
        claim: &Key,
        status: Shared<ClaimStatus>,
    ) -> Result<Done, LedgerError>
        requires job_state { is_fresh (job_state_of self.old.entries job) ≡ true }
        requires adopted { MayAdopt (state_of self.old.entries) claim.now status }
        ensures ok { OnOk result (self.new ≡ appended self.old job (Adopted claim.now status)) }
        ensures index { IfOk result (λ done. done.index ≡ length self.new.entries) }
        ensures outcome { IfOk result (λ done. done.outcome ≡ Outcome.Made) }
        ensures legal { Legal self.new.entries }
        ensures full { (n : ℕ) → IsErrOf result (LedgerError.Full n) → (length self.old.entries ≡ n) × (self.old.limit ≤ n) }
        ensures err { OnErr result (self.new ≡ self.old) }
    {
        one_holder();
        memory_goes_on();
        let index = make_room(&mut self.entries, &mut self.job_states, self.limit, job)?;
        let claim = adopt(
            alloc,
            &mut self.state,
            &mut self.holders,
            &mut self.totals,
            index,
            claim,
            status.value(),
        )?;
        let event = Event::Adopted { claim, status };
        append(&mut self.entries, &mut self.job_states, job, event);
        Ok(Done {
            index,
            outcome: Outcome::Made,
        })
    }
}

/// Allocates all memory for an entry, puts its object, and sets the date of nodes, slices and classes if it is one.
fn put_object(
    alloc: Global,
    entries: &mut Vec<Entry>,
    job_states: &mut JobStates,
    state: &mut State,
    holders: &Held,
    totals: &mut SharedTotals,
    dates: &mut Shared<Dates>,
    limit: u64,
    job: u64,
    kept: Kept,
) -> Result<u64, LedgerError>
    requires limit { limit < 2 ^ 48 }
    requires free { has_room state.old (object_of kept) ≡ true }
    requires counted { AreCounted state.old.inventory holders.now totals.old }
    ensures entries { entries.new.items ≡ entries.old.items }
    ensures job_states { (j : ℕ) → job_state_in job_states.new j ≡ job_state_in job_states.old j }
    ensures row { OnOk result (is_some (at job_states.new job) ≡ true) }
    ensures room { OnOk result (vec_len entries.new < vec_capacity entries.new) }
    ensures within { OnOk result (length entries.old.items < limit) }
    ensures index { IfOk result (λ index. index ≡ length entries.old.items + 1) }
    ensures ok { OnOk result (state.new ≡ with_object (length entries.old.items + 1) (object_of kept) state.old) }
    ensures dated { OnOk result (AreSet (is_searched (object_of kept)) [] (length entries.old.items + 1) dates.old dates.new) }
    ensures full { (n : ℕ) → IsErrOf result (LedgerError.Full n) → (length entries.old.items ≡ n) × (limit ≤ n) }
    ensures err { OnErr result (state.new ≡ state.old) }
    ensures undated { OnErr result (IsSame dates.old dates.new) }
    ensures counted { AreCounted state.new.inventory holders.now totals.new }
{
    let index = make_room(entries, job_states, limit, job)?;
    if is_searched(&kept) {
        let dates = dates.change(alloc)?;
        put_searched(alloc, state, holders, totals, dates, index, kept)?;
    } else {
        put(alloc, state, holders, totals, index, kept)?;
    }
    Ok(index)
}

/// Puts a node, a slice or a class by the entry at this index, and sets their date.
fn put_searched(
    alloc: Global,
    state: &mut State,
    holders: &Held,
    totals: &mut SharedTotals,
    dates: &mut Dates,
    index: u64,
    kept: Kept,
) -> Result<(), AllocError>
    requires free { has_room state.old (object_of kept) ≡ true }
    requires counted { AreCounted state.old.inventory holders.now totals.old }
    ensures ok { OnOk result (state.new ≡ with_object index (object_of kept) state.old) }
    ensures dated { OnOk result (AreSet true [] index dates.old dates.new) }
    ensures err { OnErr result (state.new ≡ state.old) }
    ensures undated { OnErr result (IsSame dates.old dates.new) }
    ensures counted { AreCounted state.new.inventory holders.now totals.new }
{
    make_slice_row(alloc, dates, &kept)?;
    put(alloc, state, holders, totals, index, kept)?;
    dates.set_objects(index);
    Ok(())
}

/// The version of a claim that is there.
fn version(state: &State, claim: &Key) -> u64
    ensures { result ≡ version_of state.now claim.now }
{
    match state.claims.get(claim) {
        None => 0,
        Some(claim) => claim.claim.version,
    }
}

/// An equal key, and the value for an entry.
fn kept<T: Drop>(alloc: Global, key: &Key, value: T) -> Result<(Key, Shared<T>), AllocError>
    ensures { IfOk result (λ kept. (kept.0 ≡ key.now) × (kept.1 ≡ value)) }
{
    let key = key.copy(alloc)?;
    let value = Shared::new(alloc, value)?;
    Ok((key, value))
}

/// The same value behind a pointer, if there is one.
fn shared<T: Drop>(alloc: Global, value: Option<T>) -> Result<Option<Shared<T>>, AllocError>
    ensures { IfOk result (λ shared. shared ≡ value) }
{
    match value {
        None => Ok(None),
        Some(value) => Ok(Some(Shared::new(alloc, value)?)),
    }
}

/// That a plan for a pod fails.
fn refused(alloc: Global, pod: &Key, plan: &Plan, why: Shared<Failure>) -> Result<Event, AllocError>
    ensures { IfOk result (λ event. event ≡ Refused pod.now plan.now why) }
{
    let pod = pod.copy(alloc)?;
    let plan = Shared::new(alloc, plan.copy(alloc)?)?;
    Ok(Event::Refused { pod, plan, why })
}

/// The version of a claim that a pod assumed, if it has.
fn assumed(state: &State, pod: &Key, claim: &Key) -> u64
    ensures { result ≡ assumed_by (use_in pod.now (at_key state.now.claims claim.now)) }
{
    match state.claims.get(claim) {
        None => 0,
        Some(claim) => assumed_in(&claim.users, pod),
    }
}

fn assumed_in(users: &Users, pod: &Key) -> u64
    ensures { result ≡ assumed_by (at_key users.now pod.now) }
{
    match users.get(pod) {
        None => 0,
        Some(Use::Assumed(seen)) => *seen,
        Some(Use::Written) => 0,
    }
}

/// The node that a pod is taken for.
fn node_of(alloc: Global, state: &State, pod: &Key) -> Result<Text, AllocError>
    ensures { IfOk result (λ node. node ≡ taken_node state.now pod.now) }
{
    match state.pods.get(pod) {
        None => Text::from_str(alloc, ""),
        Some(pod) => match &pod.phase {
            Phase::Taken { node, .. } => node.copy(alloc),
            Phase::Idle | Phase::Bound(_) => Text::from_str(alloc, ""),
        },
    }
}

/// Binds a pod to the node that it is taken for, and returns its key again, and the node.
fn bind(alloc: Global, state: &mut State, pod: &Key) -> Result<(Key, Text), AllocError>
    ensures kept { IfOk result (λ kept. (kept.0 ≡ pod.now) × (kept.1 ≡ taken_node state.old pod.now)) }
    ensures ok { OnOk result (state.new ≡ with_bound pod.now (taken_node state.old pod.now) state.old) }
    ensures err { OnErr result (state.new ≡ state.old) }
{
    let kept = pod.copy(alloc)?;
    let node = node_of(alloc, state, pod)?;
    let kept_node = node.copy(alloc)?;
    state.bind(alloc, pod, node)?;
    Ok((kept, kept_node))
}

/// A snapshot of the state for the searches of a pod: its slices are sorted, and if it is to learn, the inventory has
/// found out about those whose devices are all held what `learn_full_slices` says.
fn take_snapshot(
    alloc: Global,
    state: &mut State,
    holders: &Held,
    totals: &SharedTotals,
    pod: &Key,
    at: u64,
    learns: bool,
) -> Result<Shared<Snapshot>, AllocError>
    requires holders { AreHeld holders.now (held state.old) }
    requires totals { AreCounted state.old.inventory holders.now totals.now }
    ensures same { state.new ≡ state.old }
    ensures seen { IfOk result (λ snapshot. snapshot ≡ record { at = at; state = state.old }) }
{
    state.sort(alloc)?;
    learn(alloc, state, holders, pod, learns)?;
    let holders = holders.share()?;
    let totals = totals.share()?;
    let state = state.share()?;
    Shared::new(alloc, Snapshot::of(at, state, holders, totals))
}

/// Lets the inventory find out about slices for the searches of a pod, if it exists and the inventory is to learn. The
/// state stays the same.
fn learn(
    alloc: Global,
    state: &mut State,
    holders: &Held,
    pod: &Key,
    learns: bool,
) -> Result<(), AllocError>
    ensures { state.new ≡ state.old }
{
    if !learns {
        return Ok(());
    }
    match state.pods.get(pod) {
        None => Ok(()),
        Some(stored) => {
            let claims = wanted_in(alloc, &state.claims, &stored.pod.object)?;
            learn_full_slices(
                alloc,
                &mut state.inventory,
                &state.classes,
                &claims,
                holders,
            )
        }
    }
}
