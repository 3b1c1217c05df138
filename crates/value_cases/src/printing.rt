use crate::input::{CaseError, item, text_at};
use crate::shown::{Out, read};
use crate::{claims, objects};
use api_cluster::{Node, Pod};
use api_print::{claim_value, class_value, node_value, pod_value, print, slice_value, uid_text};
use api_slice::ResourceSlice;
use cluster::{
    ClaimState, DeviceResult, Granted, Kept, Phase, PodState, State, Target, Use, Users,
};
use dra_values::{Seq, Shared, Text};
use object_fields::{DeviceId, FieldError, Key};
use pool_view::Stored;
use ready_objects::ReadyClaim;
use serde_json::Value;
use shared_map::SharedMap;
use std::alloc::{AllocError, Global};
use std::str;

/// Appends an object as Kubernetes prints it, if it was created at 10 and changed last at 300, or the name
/// and the path of the error; a uid.
pub fn answer(alloc: Global, out: &mut Out, kind: &str, input: &Value) -> Result<(), CaseError> {
    match kind {
        "uid" => uid(alloc, out, input),
        "node" => node(alloc, out, input),
        "class" => class(alloc, out, input),
        "slice" => slice(alloc, out, input),
        "pod" => pod(alloc, out, input),
        "claim" => claim(alloc, out, input),
        "of_state" => of_state(alloc, out, input),
        _ => Err(CaseError::BadCase),
    }
}

fn uid(alloc: Global, out: &mut Out, input: &Value) -> Result<(), CaseError> {
    let number = input.as_u64().ok_or(CaseError::BadCase)?;
    let text = uid_text(alloc, number)?;
    out.say(text.as_str());
    Ok(())
}

/// An object as it is stored, unless it has an error.
fn stored<T: Drop>(
    alloc: Global,
    out: &mut Out,
    answer: Result<T, FieldError>,
) -> Result<Stored<Shared<T>>, CaseError> {
    let object = Shared::new(alloc, read(alloc, out, answer)?)?;
    Ok(Stored {
        object,
        uid: 10,
        version: 300,
    })
}

fn push_value(
    alloc: Global,
    out: &mut Out,
    value: Result<Value, AllocError>,
) -> Result<(), CaseError> {
    let value = value?;
    out.json(alloc, &value);
    Ok(())
}

fn node(alloc: Global, out: &mut Out, input: &Value) -> Result<(), CaseError> {
    let node = stored(alloc, out, Node::read(alloc, input))?;
    push_value(alloc, out, node_value(alloc, &node))
}

fn class(alloc: Global, out: &mut Out, input: &Value) -> Result<(), CaseError> {
    let class = stored(alloc, out, objects::read_ready(alloc, input))?;
    push_value(alloc, out, class_value(alloc, &class))
}

fn slice(alloc: Global, out: &mut Out, input: &Value) -> Result<(), CaseError> {
    let slice = stored(alloc, out, ResourceSlice::read(alloc, input))?;
    push_value(alloc, out, slice_value(alloc, &slice))
}

fn pod(alloc: Global, out: &mut Out, input: &Value) -> Result<(), CaseError> {
    let pod = stored(alloc, out, Pod::read(alloc, input))?;
    push_value(alloc, out, pod_value(alloc, &pod))
}

/// Appends a claim that was created at 11 and changed last at 301, with the device `gpu.example.com/n0/d0`
/// granted for its request `gpu` if the grant is `published` or `assumed`, beside that pod as the pod `p0`. The
/// use of `p0` is written, and that of `p1` is assumed.
fn claim(alloc: Global, out: &mut Out, input: &Value) -> Result<(), CaseError> {
    let (grant, claim, pod) = (text_at(input, 0)?, item(input, 1)?, item(input, 2)?);
    let claim = read(alloc, out, claims::read_ready(alloc, claim))?;
    let state = claim_state(alloc, grant, claim)?;
    claim_beside(alloc, out, &state, pod)
}

fn claim_state(alloc: Global, grant: &str, claim: ReadyClaim) -> Result<ClaimState, CaseError> {
    let object = Shared::new(alloc, claim)?;
    let users = users(alloc)?;
    let grant = granted(alloc, grant)?;
    let claim = Stored {
        object,
        uid: 11,
        version: 301,
    };
    Ok(ClaimState {
        claim,
        grant,
        users,
    })
}

fn claim_beside(
    alloc: Global,
    out: &mut Out,
    claim: &ClaimState,
    pod: &Value,
) -> Result<(), CaseError> {
    let pod = stored(alloc, out, Pod::read(alloc, pod))?;
    let pods = pods(alloc, pod)?;
    push_value(alloc, out, claim_value(alloc, &pods, claim))
}

/// The key of a name in the namespace `default`.
fn key(alloc: Global, name: &str) -> Result<Key, AllocError> {
    let namespace = Text::from_str(alloc, "default")?;
    let name = Text::from_str(alloc, name)?;
    Ok(Key { namespace, name })
}

fn granted(alloc: Global, grant: &str) -> Result<Option<Shared<Granted>>, CaseError> {
    match grant {
        "none" => Ok(None),
        "assumed" => grant_of(alloc, false),
        "published" => grant_of(alloc, true),
        _ => Err(CaseError::BadCase),
    }
}

fn grant_of(alloc: Global, published: bool) -> Result<Option<Shared<Granted>>, CaseError> {
    let results = results(alloc)?;
    let node = Text::from_str(alloc, "n0")?;
    let granted = Granted {
        node,
        results,
        published,
    };
    Ok(Some(Shared::new(alloc, granted)?))
}

fn results(alloc: Global) -> Result<Seq<DeviceResult>, AllocError> {
    let name = Text::from_str(alloc, "gpu")?;
    let device = device(alloc)?;
    let mut results = Seq::empty(alloc);
    results.push(DeviceResult {
        name,
        device,
        admin: false,
    })?;
    Ok(results)
}

fn device(alloc: Global) -> Result<DeviceId, AllocError> {
    let driver = Text::from_str(alloc, "gpu.example.com")?;
    let pool = Text::from_str(alloc, "n0")?;
    let device = Text::from_str(alloc, "d0")?;
    Ok(DeviceId {
        driver,
        pool,
        device,
    })
}

fn users(alloc: Global) -> Result<Shared<Users>, AllocError> {
    let users = with_user(alloc, &Users::none(alloc), "p1", Use::Assumed(4))?;
    let users = with_user(alloc, &users, "p0", Use::Written)?;
    Shared::new(alloc, users)
}

fn with_user(alloc: Global, users: &Users, pod: &str, how: Use) -> Result<Users, AllocError> {
    let pod = key(alloc, pod)?;
    users.with(alloc, &pod, how)
}

/// That pod alone, as `p0`.
fn pods(alloc: Global, pod: Stored<Shared<Pod>>) -> Result<SharedMap<Key, PodState>, AllocError> {
    let key = key(alloc, "p0")?;
    let phase = Phase::Idle;
    let mut pods = SharedMap::new(alloc)?;
    pods.insert(alloc, key, PodState { pod, phase })?;
    Ok(pods)
}

/// Appends the pod of a name in a state that has one pod, or `absent`.
fn of_state(alloc: Global, out: &mut Out, input: &Value) -> Result<(), CaseError> {
    let (name, pod) = (text_at(input, 0)?, item(input, 1)?);
    let pod = read(alloc, out, Pod::read(alloc, pod))?;
    let mut state = State::new(alloc)?;
    put_twice(alloc, &mut state, pod)?;
    push_pod(alloc, out, name, &state)
}

fn put_twice(alloc: Global, state: &mut State, pod: Pod) -> Result<(), AllocError> {
    let pod = Shared::new(alloc, pod)?;
    let again = pod.share()?;
    state.put(alloc, 10, Kept::Pod(pod))?;
    state.put(alloc, 300, Kept::Pod(again))
}

fn push_pod(alloc: Global, out: &mut Out, name: &str, state: &State) -> Result<(), CaseError> {
    let target = Target::Pod(key(alloc, name)?);
    match print(alloc, &target, state)? {
        Some(text) => out.say(str::from_utf8(&text).unwrap_or("not UTF-8")),
        None => out.say("absent"),
    }
    Ok(())
}
