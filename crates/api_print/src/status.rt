ghost use Rattle.std.specs.Prelude.{◌≡◌, ◌++◌, map, option_map, IfOk, OnOk};
ghost use Rattle.serde_json.specs.Data.{Data};
ghost use Rattle.serde_json.specs.View.{view};
ghost use Rattle.api_print.specs.Status.{allocation_json, grant_node_json, items_if, one_field_json, one_node_json, result_json, results_json, status_if, status_json, user_by, user_json, user_of, written_users};

use crate::fields::{before, before_if, before_text, none, only};
use crate::listing::{Printed, flag, list};
use crate::metadata::uid;
use crate::selector::list_of_one;
use cluster::{DeviceResult, Granted, PodState, Use, Users};
use dra_values::{Seq, Shared, Text};
use object_fields::Key;
use serde_json::Value;
use shared_map::SharedMap;
use std::alloc::{AllocError, Global};

impl Printed for DeviceResult {
    ghost json = { result_json };

    fn value(&self, alloc: Global) -> Result<Value, AllocError> {
        let device = &self.device;
        let members = before_text(none(alloc), alloc, "request", self.name.as_str())?;
        let members = before_text(members, alloc, "pool", device.pool.as_str())?;
        let members = before_text(members, alloc, "driver", device.driver.as_str())?;
        let members = before_text(members, alloc, "device", device.device.as_str())?;
        let members = before_if(members, alloc, "adminAccess", flag(self.admin))?;
        Ok(Value::Object(members))
    }
}

fn results(alloc: Global, results: &Seq<DeviceResult>) -> Result<Value, AllocError>
    ensures { IfOk result (λ v. view v ≡ results_json results.now) }
{
    let list = list(alloc, results.as_slice())?;
    only(alloc, "results", list)
}

/// `metadata.name` In the one node.
fn one_node(alloc: Global, node: &Text) -> Result<Value, AllocError>
    ensures { IfOk result (λ v. view v ≡ one_node_json node.now) }
{
    let node = Value::try_from_str(alloc, node.as_str())?;
    let values = list_of_one(alloc, node)?;
    let members = before(none(alloc), alloc, "values", values)?;
    let members = before_text(members, alloc, "operator", "In")?;
    let members = before_text(members, alloc, "key", "metadata.name")?;
    Ok(Value::Object(members))
}

/// A term of the one node.
fn one_field(alloc: Global, node: &Text) -> Result<Value, AllocError>
    ensures { IfOk result (λ v. view v ≡ one_field_json node.now) }
{
    let node = one_node(alloc, node)?;
    let fields = list_of_one(alloc, node)?;
    only(alloc, "matchFields", fields)
}

/// A selector of the one node.
fn grant_node(alloc: Global, node: &Text) -> Result<Value, AllocError>
    ensures { IfOk result (λ v. view v ≡ grant_node_json node.now) }
{
    let term = one_field(alloc, node)?;
    let terms = list_of_one(alloc, term)?;
    only(alloc, "nodeSelectorTerms", terms)
}

#[tactic(auto, unfolding(crate::specs::Status::allocation_json))]
fn allocation(alloc: Global, grant: &Granted) -> Result<Value, AllocError>
    ensures { IfOk result (λ v. view v ≡ allocation_json grant.now) }
{
    let node = grant_node(alloc, &grant.node)?;
    let members = before(none(alloc), alloc, "nodeSelector", node)?;
    let results = results(alloc, &grant.results)?;
    let members = before(members, alloc, "devices", results)?;
    Ok(Value::Object(members))
}

fn user(alloc: Global, key: &Key, place: u64) -> Result<Value, AllocError>
    ensures { IfOk result (λ v. view v ≡ user_json key.now.name place) }
{
    let uid = uid(alloc, place)?;
    let members = before(none(alloc), alloc, "uid", uid)?;
    let members = before_text(members, alloc, "resource", "pods")?;
    let members = before_text(members, alloc, "name", key.name.as_str())?;
    Ok(Value::Object(members))
}

/// Puts the pod at the end of a list, if it exists.
fn push_pod(
    list: &mut Vec<Value>,
    alloc: Global,
    pods: &SharedMap<Key, PodState>,
    key: &Key,
) -> Result<(), AllocError>
    ensures { OnOk result (map view list.new.items ≡ map view list.old.items ++ user_by pods.now key.now Use.Written) }
{
    if let Some(pod) = pods.get(key) {
        list.push(user(alloc, key, pod.pod.uid)?)?;
    }
    Ok(())
}

/// Puts the pod at the end of a list, if it exists and its use is written.
fn push_user(
    list: &mut Vec<Value>,
    alloc: Global,
    pods: &SharedMap<Key, PodState>,
    key: &Key,
    how: &Use,
) -> Result<(), AllocError>
    ensures { OnOk result (map view list.new.items ≡ map view list.old.items ++ user_by pods.now key.now how.now) }
{
    match how {
        Use::Assumed(_) => Ok(()),
        Use::Written => push_pod(list, alloc, pods, key),
    }
}

fn written_users(
    alloc: Global,
    pods: &SharedMap<Key, PodState>,
    users: &Users,
) -> Result<Vec<Value>, AllocError>
    ensures { IfOk result (λ l. map view l.items ≡ written_users pods.now users.now) }
{
    let mut list = Vec::new(alloc);
    for user in users.as_slice() {
        push_user(&mut list, alloc, pods, &user.0, &user.1)?;
    }
    Ok(list)
}

fn some_items(items: Vec<Value>) -> Option<Value>
    ensures { option_map view result ≡ items_if (map view items.items) }
{
    if items.is_empty() {
        None
    } else {
        Some(Value::Array(items))
    }
}

fn status(
    alloc: Global,
    pods: &SharedMap<Key, PodState>,
    grant: &Granted,
    users: &Users,
) -> Result<Value, AllocError>
    ensures { IfOk result (λ v. view v ≡ status_json pods.now grant.now users.now) }
{
    let users = written_users(alloc, pods, users)?;
    let members = before_if(none(alloc), alloc, "reservedFor", some_items(users))?;
    let allocation = allocation(alloc, grant)?;
    let members = before(members, alloc, "allocation", allocation)?;
    Ok(Value::Object(members))
}

/// The status of a claim with this grant and these users: its allocation and the pods whose use is
/// written, each with its uid. `None` if no grant is published. `AllocError` only if memory runs out.
pub fn some_status(
    alloc: Global,
    pods: &SharedMap<Key, PodState>,
    grant: &Option<Shared<Granted>>,
    users: &Users,
) -> Result<Option<Value>, AllocError>
    ensures { IfOk result (λ o. option_map view o ≡ status_if pods.now grant.now users.now) }
{
    match grant {
        None => Ok(None),
        Some(grant) => {
            if grant.published {
                Ok(Some(status(alloc, pods, grant.value(), users)?))
            } else {
                Ok(None)
            }
        }
    }
}
