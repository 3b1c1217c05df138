ghost use Rattle.std.specs.Prelude.{◌≡◌, IfOk, OnOk, OnErr, Some, map, option_map};
ghost use Rattle.std.specs.BTreeMap.{is_at};
ghost use Rattle.std.specs.Map.{remove_entry};
ghost use Rattle.pool_view.specs.Inventory.{with_named};
ghost use Rattle.cluster.specs.Adopted.{result_of, status_grant};
ghost use Rattle.cluster.specs.Applied.{new_claim, new_pod, updated_claim, updated_pod};
ghost use Rattle.cluster.specs.Tables.{changed_at, changed_or_new, with_phase};
ghost use Rattle.cluster.specs.Wrote.{as_published, written_by};

use crate::freed::{leave, prepare_free};
use crate::reserved::{place, prepare};
use crate::{DeviceResult, Kept, Plan, Target, Users};
use api_claim::{ClaimStatus, StatusResult};
use api_cluster::Pod;
use dra_values::{Duplicate, Seq, Shared, Text};
use object_fields::Key;
use pool_view::{Inventory, Stored, put_named};
use ready_objects::{ReadyClaim, ReadyClass};
use shared_map::{NoValue, SharedMap};
use std::alloc::{AllocError, Global};

/// The most users that a claim may have.
pub const MOST_USERS: usize = 256;

/// What a claim was granted.
#[derive(Drop)]
pub struct Granted {
    pub node: Text,
    pub results: Seq<DeviceResult>,
    /// Whether a pod's use was written, or a status write made the grant, which shows it to others.
    pub published: bool,
}

impl Duplicate for Granted {
    fn duplicate(&self, alloc: Global) -> Result<Granted, AllocError> {
        Ok(Granted {
            node: self.node.copy(alloc)?,
            results: self.results.copy(alloc)?,
            published: self.published,
        })
    }
}

/// How a pod uses a claim.
#[derive(Drop)]
pub enum Use {
    /// Assumed when the claim had this version.
    Assumed(u64),
    Written,
}

impl Duplicate for Use {
    fn duplicate(&self, _alloc: Global) -> Result<Use, AllocError> {
        match self {
            Use::Assumed(version) => Ok(Use::Assumed(*version)),
            Use::Written => Ok(Use::Written),
        }
    }
}

/// A claim with its grant and its users.
#[derive(Drop)]
pub struct ClaimState {
    pub claim: Stored<Shared<ReadyClaim>>,
    pub grant: Option<Shared<Granted>>,
    pub users: Shared<Users>,
}

/// A duplicate shares the object, the grant and the users.
impl Duplicate for ClaimState {
    fn duplicate(&self, alloc: Global) -> Result<ClaimState, AllocError> {
        Ok(ClaimState {
            claim: self.claim.duplicate(alloc)?,
            grant: self.grant.duplicate(alloc)?,
            users: self.users.share()?,
        })
    }
}

/// How far a pod has come.
#[derive(Drop)]
pub enum Phase {
    Idle,
    /// A job has reserved its claims for a node.
    Taken { job: u64, node: Text },
    /// It was bound to this node.
    Bound(Text),
}

impl Duplicate for Phase {
    fn duplicate(&self, alloc: Global) -> Result<Phase, AllocError> {
        match self {
            Phase::Idle => Ok(Phase::Idle),
            Phase::Taken { job, node } => Ok(Phase::Taken {
                job: *job,
                node: node.copy(alloc)?,
            }),
            Phase::Bound(node) => Ok(Phase::Bound(node.copy(alloc)?)),
        }
    }
}

#[derive(Drop)]
pub struct PodState {
    pub pod: Stored<Shared<Pod>>,
    pub phase: Phase,
}

/// A duplicate shares the pod.
impl Duplicate for PodState {
    fn duplicate(&self, alloc: Global) -> Result<PodState, AllocError> {
        Ok(PodState {
            pod: self.pod.duplicate(alloc)?,
            phase: self.phase.duplicate(alloc)?,
        })
    }
}

/// All objects, grants and pods.
#[derive(Drop)]
pub struct State {
    /// The nodes and the slices.
    pub inventory: Shared<Inventory>,
    pub classes: SharedMap<Text, Stored<Shared<ReadyClass>>>,
    pub claims: SharedMap<Key, ClaimState>,
    pub pods: SharedMap<Key, PodState>,
}

impl State {
    ghost use Rattle.std.specs.Prelude.{◌≡◌, true, IfOk, OnOk, OnErr};
    ghost use Rattle.cluster.specs.Ready.{object_of};
    ghost use Rattle.cluster.specs.State.{empty_state, has_room};
    ghost use Rattle.cluster.specs.Deleted.{without_object};
    ghost use Rattle.cluster.specs.Applied.{with_object};

    /// The state in which nothing is there. `AllocError` is returned only if memory runs out.
    pub fn new(alloc: Global) -> Result<State, AllocError>
        ensures { IfOk result (λ state. state ≡ empty_state) }
    {
        let inventory = Shared::new(alloc, Inventory::new(alloc)?)?;
        let classes = SharedMap::new(alloc)?;
        let claims = SharedMap::new(alloc)?;
        let pods = SharedMap::new(alloc)?;
        Ok(State {
            inventory,
            classes,
            claims,
            pods,
        })
    }

    /// Puts an object that there is room for at its name, by the entry at this index: it is updated and
    /// keeps its uid if one of its kind and name is there, and else it is created. A claim that is
    /// updated keeps its grant and its users, and a pod how far it has come. `AllocError` is returned only
    /// if memory runs out, and then nothing changed.
    pub fn put(&mut self, alloc: Global, index: u64, kept: Kept) -> Result<(), AllocError>
        requires { has_room self.old (object_of kept) ≡ true }
        ensures ok { OnOk result (self.new ≡ with_object index (object_of kept) self.old) }
        ensures err { OnErr result (self.new ≡ self.old) }
    {
        match kept {
            Kept::Node(node) => self.inventory.change(alloc)?.put_node(alloc, index, node),
            Kept::Slice(slice) => self.inventory.change(alloc)?.put_slice(alloc, index, slice),
            Kept::Class(class) => put_class(alloc, &mut self.classes, index, class),
            Kept::Claim(claim) => put_claim(alloc, &mut self.claims, index, claim),
            Kept::Pod(pod) => put_pod(alloc, &mut self.pods, index, pod),
        }
    }

    /// Takes the object of a kind and name away, if it is there. `AllocError` is returned only if memory runs
    /// out, which the change of a shared table may need, and then nothing changed.
    pub fn remove(&mut self, alloc: Global, target: &Target) -> Result<(), AllocError>
        ensures ok { OnOk result (self.new ≡ without_object target.now self.old) }
        ensures err { OnErr result (self.new ≡ self.old) }
    {
        match target {
            Target::Node(name) => self.inventory.change(alloc)?.remove_node(alloc, name),
            Target::Slice(name) => self.inventory.change(alloc)?.remove_slice(alloc, name),
            Target::Class(name) => take_out(alloc, &mut self.classes, name),
            Target::Claim(key) => take_out(alloc, &mut self.claims, key),
            Target::Pod(key) => take_out(alloc, &mut self.pods, key),
        }
    }
}

impl State {
    ghost use Rattle.std.specs.Prelude.{◌≡◌, IfOk, OnOk, OnErr};
    ghost use Rattle.cluster.specs.Reserved.{with_reserved};
    ghost use Rattle.cluster.specs.Wrote.{with_written};
    ghost use Rattle.cluster.specs.Bound.{with_bound};
    ghost use Rattle.cluster.specs.Freed.{without_uses};
    ghost use Rattle.cluster.specs.Adopted.{with_adopted};

    /// Makes the plan's grants, makes the pod an assumed user of each claim that is granted or joined,
    /// and takes the pod for a job. `AllocError` is returned only if memory runs out, and then nothing changed.
    pub fn reserve(
        &mut self,
        alloc: Global,
        job: u64,
        pod: &Key,
        plan: &Plan,
    ) -> Result<(), AllocError>
        ensures ok { OnOk result (self.new ≡ with_reserved job pod.now plan.now self.old) }
        ensures err { OnErr result (self.new ≡ self.old) }
    {
        let node = plan.node.copy(alloc)?;
        let uses = prepare(alloc, &self.claims, pod, plan)?;
        let mut claims = self.claims.share()?;
        place(alloc, &mut claims, uses)?;
        set_phase(alloc, &mut self.pods, pod, Phase::Taken { job, node })?;
        self.claims = claims;
        Ok(())
    }

    /// Writes the pod's use of the claim, which publishes its grant. `AllocError` is returned only if memory
    /// runs out, which the change of a shared table may need, and then nothing changed.
    pub fn write(
        &mut self,
        alloc: Global,
        index: u64,
        pod: &Key,
        claim: &Key,
    ) -> Result<(), AllocError>
        ensures ok { OnOk result (self.new ≡ with_written index pod.now claim.now self.old) }
        ensures err { OnErr result (self.new ≡ self.old) }
    {
        write_claim(alloc, &mut self.claims, index, pod, claim)
    }

    /// Takes away the pod's uses of its claims, by the entry at this index, and leaves the pod Idle. A
    /// claim whose written use goes gets the index as its version, and one without users loses its grant.
    /// `AllocError` is returned only if memory runs out, and then nothing changed.
    pub fn free(&mut self, alloc: Global, index: u64, pod: &Key) -> Result<(), AllocError>
        ensures ok { OnOk result (self.new ≡ without_uses index pod.now self.old) }
        ensures err { OnErr result (self.new ≡ self.old) }
    {
        let left = prepare_free(alloc, &self.claims, index, pod, self.pods.get(pod))?;
        let mut claims = self.claims.share()?;
        leave(alloc, &mut claims, left)?;
        set_phase(alloc, &mut self.pods, pod, Phase::Idle)?;
        self.claims = claims;
        Ok(())
    }

    /// Grants a claim what a status write says, published and without users, by the entry at this index.
    /// `AllocError` is returned only if memory runs out, and then nothing changed.
    pub fn adopt(
        &mut self,
        alloc: Global,
        index: u64,
        claim: &Key,
        status: &ClaimStatus,
    ) -> Result<(), AllocError>
        ensures ok { OnOk result (self.new ≡ with_adopted index claim.now status.now self.old) }
        ensures err { OnErr result (self.new ≡ self.old) }
    {
        let grant = Shared::new(alloc, status_grant(alloc, status)?)?;
        set_grant(alloc, &mut self.claims, index, claim, grant)
    }

    /// Binds the pod to a node. `AllocError` is returned only if memory runs out, and then nothing changed.
    pub fn bind(&mut self, alloc: Global, pod: &Key, node: Text) -> Result<(), AllocError>
        ensures ok { OnOk result (self.new ≡ with_bound pod.now node self.old) }
        ensures err { OnErr result (self.new ≡ self.old) }
    {
        set_phase(alloc, &mut self.pods, pod, Phase::Bound(node))
    }

    /// Sorts the inventory's slices for the searches that follow, unless they are sorted. The state stays the
    /// same. `AllocError` only if memory runs out.
    pub fn sort(&mut self, alloc: Global) -> Result<(), AllocError>
        ensures { self.new ≡ self.old }
    {
        if !self.inventory.is_sorted() {
            self.inventory.change(alloc)?.sort(alloc)?;
        }
        Ok(())
    }

    /// An equal state, which shares its tables with this one. Allocates nothing; `AllocError` only if a
    /// count of owners is full.
    pub fn share(&self) -> Result<State, AllocError>
        ensures { IfOk result (λ other. other ≡ self.now) }
    {
        Ok(State {
            inventory: self.inventory.share()?,
            classes: self.classes.share()?,
            claims: self.claims.share()?,
            pods: self.pods.share()?,
        })
    }
}

/// Writes the pod's use of a claim, if it is there.
#[tactic(auto, using(std::proofs::lemmas::Map::Steps::set_value_same))]
fn write_claim(
    alloc: Global,
    claims: &mut SharedMap<Key, ClaimState>,
    index: u64,
    pod: &Key,
    claim: &Key,
) -> Result<(), AllocError>
    ensures ok { OnOk result (claims.new ≡ changed_at claim.now (written_by index pod.now) claims.old) }
    ensures err { OnErr result (claims.new ≡ claims.old) }
{
    match claims.get_mut(alloc, claim) {
        Ok(state) => write_use(alloc, state, index, pod),
        Err(NoValue::Missing) => Ok(()),
        Err(NoValue::Memory) => Err(AllocError),
    }
}

/// Writes the pod's use of a claim, and publishes its grant. All memory is allocated before the first
/// change.
fn write_use(alloc: Global, state: &mut ClaimState, index: u64, pod: &Key) -> Result<(), AllocError>
    ensures ok { OnOk result (state.new ≡ written_by index pod.now state.old) }
    ensures err { OnErr result (state.new ≡ state.old) }
{
    let users = state.users.change(alloc)?;
    publish(alloc, &mut state.grant)?;
    users.set(pod, Use::Written);
    state.claim.version = index;
    Ok(())
}

/// Publishes a grant, if there is one.
fn publish(alloc: Global, grant: &mut Option<Shared<Granted>>) -> Result<(), AllocError>
    ensures ok { OnOk result (grant.new ≡ option_map as_published grant.old) }
    ensures err { OnErr result (grant.new ≡ grant.old) }
{
    if let Some(granted) = grant {
        granted.change(alloc)?.published = true;
    }
    Ok(())
}

/// What a status write grants.
fn status_grant(alloc: Global, status: &ClaimStatus) -> Result<Granted, AllocError>
    ensures { IfOk result (λ g. g ≡ status_grant status.now) }
{
    let node = status.node.copy(alloc)?;
    let results = status_results(alloc, status)?;
    Ok(Granted {
        node,
        results,
        published: true,
    })
}

fn status_results(alloc: Global, status: &ClaimStatus) -> Result<Seq<DeviceResult>, AllocError>
    ensures { IfOk result (λ rs. rs ≡ map result_of status.now.results) }
{
    let mut results = Seq::empty(alloc);
    for picked in status.results.as_slice() {
        results.push(device_result(alloc, picked)?)?;
    }
    Ok(results)
}

fn device_result(alloc: Global, picked: &StatusResult) -> Result<DeviceResult, AllocError>
    ensures { IfOk result (λ r. r ≡ result_of picked.now) }
{
    Ok(DeviceResult {
        name: picked.request.copy(alloc)?,
        device: picked.device.copy(alloc)?,
        admin: picked.admin,
    })
}

/// Grants a claim what a status write says, if it is there.
fn set_grant(
    alloc: Global,
    claims: &mut SharedMap<Key, ClaimState>,
    index: u64,
    claim: &Key,
    grant: Shared<Granted>,
) -> Result<(), AllocError>
    ensures ok { OnOk result (claims.new ≡ changed_at claim.now (λ c. record c { claim = record c.claim { version = index }; grant = Some grant }) claims.old) }
    ensures err { OnErr result (claims.new ≡ claims.old) }
{
    match claims.get_mut(alloc, claim) {
        Ok(state) => {
            state.claim.version = index;
            state.grant = Some(grant);
            Ok(())
        }
        Err(NoValue::Missing) => Ok(()),
        Err(NoValue::Memory) => Err(AllocError),
    }
}

/// Puts a pod into another phase, if it is there.
fn set_phase(
    alloc: Global,
    pods: &mut SharedMap<Key, PodState>,
    pod: &Key,
    phase: Phase,
) -> Result<(), AllocError>
    ensures ok { OnOk result (pods.new ≡ with_phase pod.now phase pods.old) }
    ensures err { OnErr result (pods.new ≡ pods.old) }
{
    match pods.get_mut(alloc, pod) {
        Ok(state) => {
            state.phase = phase;
            Ok(())
        }
        Err(NoValue::Missing) => Ok(()),
        Err(NoValue::Memory) => Err(AllocError),
    }
}

/// Removes the value of a key, if there is one.
fn take_out<K: Ord + Duplicate + Drop, V: Duplicate + Drop>(
    alloc: Global,
    map: &mut SharedMap<K, V>,
    key: &K,
) -> Result<(), AllocError>
    ensures ok { OnOk result (map.new ≡ remove_entry (is_at (K.cmp key.now)) map.old) }
    ensures err { OnErr result (map.new ≡ map.old) }
{
    map.remove(alloc, key)?;
    Ok(())
}

/// Puts a class at its name.
fn put_class(
    alloc: Global,
    classes: &mut SharedMap<Text, Stored<Shared<ReadyClass>>>,
    index: u64,
    class: Shared<ReadyClass>,
) -> Result<(), AllocError>
    ensures ok { OnOk result (classes.new ≡ with_named index class.name class classes.old) }
    ensures err { OnErr result (classes.new ≡ classes.old) }
{
    let name = class.class().name.copy(alloc)?;
    put_named(alloc, classes, index, name, class)
}

/// Puts a claim at its key.
fn put_claim(
    alloc: Global,
    claims: &mut SharedMap<Key, ClaimState>,
    index: u64,
    claim: Shared<ReadyClaim>,
) -> Result<(), AllocError>
    ensures ok { OnOk result (claims.new ≡ changed_or_new claim.key (new_claim index claim) (updated_claim index claim) claims.old) }
    ensures err { OnErr result (claims.new ≡ claims.old) }
{
    let key = claim.claim().key.copy(alloc)?;
    put_claim_at(alloc, claims, index, key, claim)
}

/// Puts a claim at a key.
fn put_claim_at(
    alloc: Global,
    claims: &mut SharedMap<Key, ClaimState>,
    index: u64,
    key: Key,
    claim: Shared<ReadyClaim>,
) -> Result<(), AllocError>
    ensures ok { OnOk result (claims.new ≡ changed_or_new key (new_claim index claim) (updated_claim index claim) claims.old) }
    ensures err { OnErr result (claims.new ≡ claims.old) }
{
    if claims.contains_key(&key) {
        update_claim(alloc, claims, index, &key, claim)
    } else {
        let users = Shared::new(alloc, Users::none(alloc))?;
        let claim = ClaimState {
            claim: Stored::created(index, claim),
            grant: None,
            users,
        };
        claims.insert(alloc, key, claim)
    }
}

/// Updates a claim, if it is there.
fn update_claim(
    alloc: Global,
    claims: &mut SharedMap<Key, ClaimState>,
    index: u64,
    key: &Key,
    claim: Shared<ReadyClaim>,
) -> Result<(), AllocError>
    ensures ok { OnOk result (claims.new ≡ changed_at key.now (updated_claim index claim) claims.old) }
    ensures err { OnErr result (claims.new ≡ claims.old) }
{
    match claims.get_mut(alloc, key) {
        Ok(state) => {
            state.claim.update(index, claim);
            Ok(())
        }
        Err(NoValue::Missing) => Ok(()),
        Err(NoValue::Memory) => Err(AllocError),
    }
}

/// Puts a pod at its key.
fn put_pod(
    alloc: Global,
    pods: &mut SharedMap<Key, PodState>,
    index: u64,
    pod: Shared<Pod>,
) -> Result<(), AllocError>
    ensures ok { OnOk result (pods.new ≡ changed_or_new pod.key (new_pod index pod) (updated_pod index pod) pods.old) }
    ensures err { OnErr result (pods.new ≡ pods.old) }
{
    let key = pod.key.copy(alloc)?;
    if pods.contains_key(&key) {
        update_pod(alloc, pods, index, &key, pod)
    } else {
        let pod = PodState {
            pod: Stored::created(index, pod),
            phase: Phase::Idle,
        };
        pods.insert(alloc, key, pod)
    }
}

/// Updates a pod, if it is there.
fn update_pod(
    alloc: Global,
    pods: &mut SharedMap<Key, PodState>,
    index: u64,
    key: &Key,
    pod: Shared<Pod>,
) -> Result<(), AllocError>
    ensures ok { OnOk result (pods.new ≡ changed_at key.now (updated_pod index pod) pods.old) }
    ensures err { OnErr result (pods.new ≡ pods.old) }
{
    match pods.get_mut(alloc, key) {
        Ok(state) => {
            state.pod.update(index, pod);
            Ok(())
        }
        Err(NoValue::Missing) => Ok(()),
        Err(NoValue::Memory) => Err(AllocError),
    }
}
