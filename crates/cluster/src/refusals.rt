ghost use Rattle.std.specs.Prelude.{◌≡◌, IfOk, Some, is_some, option_copied, option_map};
ghost use Rattle.pool_view.specs.Names.{at_key};
ghost use Rattle.cluster.specs.Denied.{carried_version, conflict_of, has_user, is_busy, is_claim_changed, is_pod_changed, phase_refusal, status_refusal, unbound_refusal};

use crate::same::{same_pod_claims, same_spec};
use crate::{ClaimState, Command, Mode, Object, Phase, PodState, Refusal, State, Target};
use api_claim::{ClaimStatus, ResourceClaim};
use api_cluster::Pod;
use object_fields::Key;
use pool_view::Stored;
use std::alloc::{AllocError, Global};

impl State {
    ghost use Rattle.std.specs.Prelude.{◌≡◌, IfOk};
    ghost use Rattle.cluster.specs.State.{has_room, is_there};
    ghost use Rattle.cluster.specs.Denied.{conflict, first_refusal, is_changed, is_found, is_in_use, is_user, no_room, or_else, version_at, when};
    ghost use Rattle.cluster.specs.declared.entry.Command.TheVariants.{Adopt, Apply, Delete, Release, Schedule};
    ghost use Rattle.cluster.specs.declared.entry.Mode.TheVariants.{Create, Update};
    ghost use Rattle.cluster.specs.declared.entry.Refusal.TheVariants as refusal;

    /// The first refusal of a command that holds, or `None` if none does. `AllocError` is returned only
    /// if memory runs out.
    ///
    /// | Command | Refusals in order |
    /// |---|---|
    /// | a document with an error | Invalid |
    /// | to create an object | Exists, Devices |
    /// | to update an object | NotFound, Conflict, Immutable, Devices |
    /// | to apply an object | as an update if one of its kind and name is there, else as a creation |
    /// | to delete an object | NotFound, InUse |
    /// | to schedule a pod | NotFound, Busy, Bound |
    /// | to release a pod | NotFound, Busy, NotBound |
    /// | to write a claim's status | NotFound, Conflict, Exists |
    ///
    /// Whether the grant of a status write is an allocation isn't looked at here.
    pub fn first_refusal(
        &self,
        alloc: Global,
        command: &Command,
    ) -> Result<Option<Refusal>, AllocError>
        ensures { IfOk result (λ refusal. refusal ≡ first_refusal self.now command.now) }
    {
        match command {
            Command::Invalid(_) => Ok(Some(Refusal::Invalid)),
            Command::Apply { object, mode } => Ok(self.apply_refusal(object, *mode)),
            Command::Delete(target) => Ok(self.delete_refusal(target)),
            Command::Schedule(pod) => self.schedule_refusal(alloc, pod),
            Command::Release(pod) => Ok(self.release_refusal(pod)),
            Command::Adopt { claim, status } => Ok(self.status_refusal(claim, status.value())),
        }
    }

    /// The first refusal that holds of an object to be applied. Allocates nothing.
    pub fn apply_refusal(&self, object: &Object, mode: Mode) -> Option<Refusal>
        ensures { result ≡ first_refusal self.now (Apply object.now mode) }
    {
        match mode {
            Mode::Create => self.create_refusal(object),
            Mode::Update => self.update_refusal(object),
            Mode::Apply => {
                if self.is_there(object) {
                    self.refusal_there(object)
                } else {
                    self.room_refusal(object)
                }
            }
        }
    }

    /// The first refusal that holds of an object to be taken away. Allocates nothing.
    pub fn delete_refusal(&self, target: &Target) -> Option<Refusal>
        ensures { result ≡ first_refusal self.now (Delete target.now) }
    {
        if !self.is_found(target) {
            Some(Refusal::NotFound)
        } else if self.is_in_use(target) {
            Some(Refusal::InUse)
        } else {
            None
        }
    }

    /// The first refusal that holds of a pod to be scheduled. `AllocError` is returned only if memory runs
    /// out.
    pub fn schedule_refusal(&self, alloc: Global, pod: &Key) -> Result<Option<Refusal>, AllocError>
        ensures { IfOk result (λ refusal. refusal ≡ first_refusal self.now (Schedule pod.now)) }
    {
        match self.pods.get(pod) {
            None => Ok(Some(Refusal::NotFound)),
            Some(state) => phase_refusal(alloc, &state.phase),
        }
    }

    /// The first refusal that holds of a pod to be released. Allocates nothing.
    pub fn release_refusal(&self, pod: &Key) -> Option<Refusal>
        ensures { result ≡ first_refusal self.now (Release pod.now) }
    {
        match self.pods.get(pod) {
            None => Some(Refusal::NotFound),
            Some(state) => unbound_refusal(&state.phase),
        }
    }

    /// The first refusal that holds of a status write, before its grant is looked at. Allocates nothing.
    pub fn status_refusal(&self, claim: &Key, status: &ClaimStatus) -> Option<Refusal>
        ensures { result ≡ first_refusal self.now (Adopt claim.now status.now) }
    {
        match self.claims.get(claim) {
            None => Some(Refusal::NotFound),
            Some(state) => grant_refusal(status, state),
        }
    }

    fn create_refusal(&self, object: &Object) -> Option<Refusal>
        ensures { result ≡ first_refusal self.now (Apply object.now Create) }
    {
        if self.is_there(object) {
            Some(Refusal::Exists)
        } else {
            self.room_refusal(object)
        }
    }

    fn update_refusal(&self, object: &Object) -> Option<Refusal>
        ensures { result ≡ first_refusal self.now (Apply object.now Update) }
    {
        if self.is_there(object) {
            self.refusal_there(object)
        } else {
            Some(Refusal::NotFound)
        }
    }

    /// The refusals of an update of an object that is there.
    fn refusal_there(&self, object: &Object) -> Option<Refusal>
        ensures { result ≡ or_else (conflict self.now object.now) (or_else (when (is_changed self.now object.now) refusal.Immutable) (no_room self.now object.now)) }
    {
        match self.conflict(object) {
            Some(refusal) => Some(refusal),
            None => self.change_refusal(object),
        }
    }

    /// The refusals of an update behind the version's.
    fn change_refusal(&self, object: &Object) -> Option<Refusal>
        ensures { result ≡ or_else (when (is_changed self.now object.now) refusal.Immutable) (no_room self.now object.now) }
    {
        if self.is_changed(object) {
            Some(Refusal::Immutable)
        } else {
            self.room_refusal(object)
        }
    }

    fn room_refusal(&self, object: &Object) -> Option<Refusal>
        ensures { result ≡ no_room self.now object.now }
    {
        if self.has_room(object) {
            None
        } else {
            Some(Refusal::Devices)
        }
    }

    /// Whether an object of this kind and name is there.
    pub fn is_there(&self, object: &Object) -> bool
        ensures { result ≡ is_there self.now object.now }
    {
        match object {
            Object::Node(node) => self.inventory.nodes().contains_key(&node.name),
            Object::Slice(slice) => self.inventory.slices().contains_key(&slice.name),
            Object::Class(class) => self.classes.contains_key(&class.name),
            Object::Claim(claim) => self.claims.contains_key(&claim.key),
            Object::Pod(pod) => self.pods.contains_key(&pod.key),
        }
    }

    /// Whether an object of this kind and name is there.
    fn is_found(&self, target: &Target) -> bool
        ensures { result ≡ is_found self.now target.now }
    {
        match target {
            Target::Node(name) => self.inventory.nodes().contains_key(name),
            Target::Slice(name) => self.inventory.slices().contains_key(name),
            Target::Class(name) => self.classes.contains_key(name),
            Target::Claim(key) => self.claims.contains_key(key),
            Target::Pod(key) => self.pods.contains_key(key),
        }
    }

    /// Whether all slices with the object have at most 65,536 devices, where a slice replaces the
    /// one of its name.
    fn has_room(&self, object: &Object) -> bool
        ensures { result ≡ has_room self.now object.now }
    {
        match object {
            Object::Slice(slice) => self.inventory.has_room_for(slice),
            Object::Node(_) | Object::Class(_) | Object::Claim(_) | Object::Pod(_) => true,
        }
    }

    /// The version of the object of this kind and name that is there.
    fn version_at(&self, object: &Object) -> Option<u64>
        ensures { result ≡ version_at self.now object.now }
    {
        match object {
            Object::Node(node) => version(self.inventory.nodes().get(&node.name)),
            Object::Slice(slice) => version(self.inventory.slices().get(&slice.name)),
            Object::Class(class) => version(self.classes.get(&class.name)),
            Object::Claim(claim) => claim_version(self.claims.get(&claim.key)),
            Object::Pod(pod) => pod_version(self.pods.get(&pod.key)),
        }
    }

    /// That the object carries a version that isn't the one of the object that is there.
    fn conflict(&self, object: &Object) -> Option<Refusal>
        ensures { result ≡ conflict self.now object.now }
    {
        conflict_of(carried_version(object), self.version_at(object))
    }

    /// Whether the object changes what an update may not: the spec of a claim, or the list of claims
    /// of a pod.
    fn is_changed(&self, object: &Object) -> bool
        ensures { result ≡ is_changed self.now object.now }
    {
        match object {
            Object::Claim(claim) => is_claim_changed(self.claims.get(&claim.key), claim),
            Object::Pod(pod) => is_pod_changed(self.pods.get(&pod.key), pod),
            Object::Node(_) | Object::Slice(_) | Object::Class(_) => false,
        }
    }

    /// Whether the object may not be taken away: a claim that has a user, or a pod that is taken, bound
    /// or a user of a claim.
    fn is_in_use(&self, target: &Target) -> bool
        ensures { result ≡ is_in_use self.now target.now }
    {
        match target {
            Target::Claim(key) => has_user(self.claims.get(key)),
            Target::Pod(key) => is_busy(self.pods.get(key)) || self.is_user(key),
            Target::Node(_) | Target::Slice(_) | Target::Class(_) => false,
        }
    }

    /// Whether the pod is a user of a claim.
    fn is_user(&self, pod: &Key) -> bool
        ensures { result ≡ is_user self.now pod.now }
    {
        for (_, claim) in self.claims.iter() {
            if is_used_by(claim, pod) {
                return true;
            }
        }
        false
    }
}

/// Whether the pod is a user of the claim.
fn is_used_by(claim: &ClaimState, pod: &Key) -> bool
    ensures { result ≡ is_some (at_key claim.now.users pod.now) }
{
    claim.users.contains_key(pod)
}

fn version<T>(stored: Option<&Stored<T>>) -> Option<u64>
    ensures { result ≡ option_map (λ e. e.version) (option_copied stored.entry) }
{
    match stored {
        None => None,
        Some(stored) => Some(stored.version),
    }
}

fn claim_version(state: Option<&ClaimState>) -> Option<u64>
    ensures { result ≡ option_map (λ c. c.claim.version) (option_copied state.entry) }
{
    match state {
        None => None,
        Some(state) => Some(state.claim.version),
    }
}

fn pod_version(state: Option<&PodState>) -> Option<u64>
    ensures { result ≡ option_map (λ p. p.pod.version) (option_copied state.entry) }
{
    match state {
        None => None,
        Some(state) => Some(state.pod.version),
    }
}

/// The `metadata.resourceVersion` that the object carries.
fn carried_version(object: &Object) -> Option<u64>
    ensures { result ≡ carried_version object.now }
{
    match object {
        Object::Node(node) => node.version,
        Object::Slice(slice) => slice.version,
        Object::Class(class) => class.version,
        Object::Claim(claim) => claim.version,
        Object::Pod(pod) => pod.version,
    }
}

fn conflict_of(carried: Option<u64>, present: Option<u64>) -> Option<Refusal>
    ensures { result ≡ conflict_of carried present }
{
    match carried {
        None => None,
        Some(had) => match present {
            None => None,
            Some(now) => {
                if had == now {
                    None
                } else {
                    Some(Refusal::Conflict { had, now })
                }
            }
        },
    }
}

fn is_claim_changed(state: Option<&ClaimState>, claim: &ResourceClaim) -> bool
    ensures { result ≡ is_claim_changed claim.now (option_copied state.entry) }
{
    match state {
        None => false,
        Some(state) => !same_spec(state.claim.object.claim(), claim),
    }
}

fn is_pod_changed(state: Option<&PodState>, pod: &Pod) -> bool
    ensures { result ≡ is_pod_changed pod.now (option_copied state.entry) }
{
    match state {
        None => false,
        Some(state) => !same_pod_claims(&state.pod.object, pod),
    }
}

fn has_user(state: Option<&ClaimState>) -> bool
    ensures { result ≡ has_user (option_copied state.entry) }
{
    match state {
        None => false,
        Some(state) => !state.users.is_empty(),
    }
}

/// The refusal of a pod that isn't Idle.
fn phase_refusal(alloc: Global, phase: &Phase) -> Result<Option<Refusal>, AllocError>
    ensures { IfOk result (λ refusal. refusal ≡ phase_refusal phase.now) }
{
    match phase {
        Phase::Idle => Ok(None),
        Phase::Taken { job, .. } => Ok(Some(Refusal::Busy(*job))),
        Phase::Bound(node) => Ok(Some(Refusal::Bound(node.copy(alloc)?))),
    }
}

/// The refusal of a pod that isn't bound.
fn unbound_refusal(phase: &Phase) -> Option<Refusal>
    ensures { result ≡ unbound_refusal phase.now }
{
    match phase {
        Phase::Idle => Some(Refusal::NotBound),
        Phase::Taken { job, .. } => Some(Refusal::Busy(*job)),
        Phase::Bound(_) => None,
    }
}

/// The refusal of a status write to a claim that has another version than the status carries, or a
/// grant.
fn grant_refusal(status: &ClaimStatus, state: &ClaimState) -> Option<Refusal>
    ensures { result ≡ status_refusal status.now (Some state.now) }
{
    match conflict_of(status.version, Some(state.claim.version)) {
        Some(refusal) => Some(refusal),
        None => {
            if state.grant.is_some() {
                Some(Refusal::Exists)
            } else {
                None
            }
        }
    }
}

/// Whether the pod is taken or bound.
fn is_busy(state: Option<&PodState>) -> bool
    ensures { result ≡ is_busy (option_copied state.entry) }
{
    match state {
        None => false,
        Some(state) => match &state.phase {
            Phase::Idle => false,
            Phase::Taken { .. } | Phase::Bound(_) => true,
        },
    }
}
