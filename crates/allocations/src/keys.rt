ghost use Rattle.std.specs.Prelude.{◌≡◌, IfOk};
ghost use Rattle.std.specs.List.{list_any};
ghost use Rattle.pool_view.specs.Names.{key_eq};
ghost use Rattle.allocations.specs.Claims.{added_key, keys_of_pod};

use api_cluster::{Pod, PodResourceClaim};
use dra_values::Seq;
use object_fields::Key;
use std::alloc::{AllocError, Global};

/// The claims that a pod names, in order, each at its first index.
/// `AllocError` is returned only if memory runs out.
pub fn keys_of_pod(alloc: Global, pod: &Pod) -> Result<Seq<Key>, AllocError>
    ensures { IfOk result (λ keys. keys ≡ keys_of_pod pod.now) }
{
    let mut keys = Seq::empty(alloc);
    for entry in pod.claims.as_slice() {
        let key = claim_key(alloc, pod, entry)?;
        add_key(&mut keys, key)?;
    }
    Ok(keys)
}

/// The claim that an entry of a pod names.
fn claim_key(alloc: Global, pod: &Pod, entry: &PodResourceClaim) -> Result<Key, AllocError>
    ensures { IfOk result (λ key. key ≡ record { namespace = pod.now.key.namespace; name = entry.now.claim }) }
{
    Ok(Key {
        namespace: pod.key.namespace.copy(alloc)?,
        name: entry.claim.copy(alloc)?,
    })
}

/// Puts a key at the end, if it isn't among the keys yet.
fn add_key(keys: &mut Seq<Key>, key: Key) -> Result<(), AllocError>
    ensures { IfOk result (λ _. keys.new ≡ added_key keys.old key) }
{
    if is_among(keys.as_slice(), &key) {
        Ok(())
    } else {
        keys.push(key)
    }
}

fn is_among(keys: &[Key], key: &Key) -> bool
    ensures { result ≡ list_any (λ l. key_eq l key.now) keys.now }
{
    keys.iter().any(|other| *other == *key)
}
