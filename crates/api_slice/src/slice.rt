ghost use Rattle.std.specs.Prelude.{◌≡◌, Ok};
ghost use Rattle.serde_json.specs.View.{view};
ghost use Rattle.object_fields.specs.Fields as reading;
ghost use Rattle.object_fields.specs.Fields.{Reads};
ghost use Rattle.object_fields.specs.Limits.{NameKept, VersionKept};
ghost use Rattle.api_slice.specs.Slices as fields;
ghost use Rattle.api_slice.specs.Counters.{counter_sets_at};
ghost use Rattle.api_slice.specs.Devices.{devices_at};
ghost use Rattle.api_slice.specs.Nodes.{is_per_device};

use crate::counters::read_counter_sets;
use crate::device::read_devices;
use crate::driver::DriverName;
use crate::nodes::read_slice_nodes;
use crate::types::{CounterSet, Device, Pool, ResourceSlice, SliceNodes};
use device_taints::taints_keep_limits;
use dra_values::{Seq, Text};
use object_fields::{
    FieldError, ObjectMeta, Path, Scope, metadata_keeps_limits, natural, object, read_pool_name,
};
use serde_json::Value;
use std::alloc::Global;

/// The maximum of a signed 64-bit integer.
const SIGNED_MOST: u64 = 0x7fff_ffff_ffff_ffff;

impl ResourceSlice {
    /// Reads a ResourceSlice of the API reference of `resource.k8s.io/v1`. The first error is returned.
    /// The fields are checked in this order; a row is read of all devices before the next row of
    /// any, lists in their order, and the members of a map in the byte order of their keys.
    ///
    /// - `metadata.name`, a DNS subdomain of at most 253 bytes; `metadata.labels`, which are read
    ///   and not kept; `metadata.resourceVersion`
    /// - `spec.driver`, a DNS subdomain of at most 63 bytes
    /// - `spec.pool`, with `name` (DNS subdomains joined by `/`, at most 253 bytes in all),
    ///   `generation` (0 to 2^63-1) and `resourceSliceCount` (1 to 2^63-1); another number is
    ///   OutOfRange
    /// - `spec.nodeName`, `nodeSelector`, `allNodes` and `perDeviceNodeSelection`, of which just one
    ///   is set, else NotOne at `spec`; false and the empty text are unset
    /// - `spec.sharedCounters`, which may be missing, and is NotOne unless it or `spec.devices` is
    ///   missing, null or an empty list: sets with a `name` (a DNS label, Doubled where a set before
    ///   has it) and `counters`, each a DNS label with a `value` that isn't negative; with more than
    ///   32 counters in all it is TooMany
    /// - `spec.devices`, which may be missing: at most 128 (TooMany), each with a `name` (a DNS
    ///   label, Doubled where a device before has it)
    /// - `attributes` of a device, which may be missing: each a qualified name (Doubled where a key
    ///   before means the same) with just one of `int`, `bool`, `string` and `version`, else NotOne;
    ///   a string or a version of more than 64 characters is TooLong, and a version is one of
    ///   Semantic Versioning 2.0.0, else BadVersion
    /// - `capacity` of a device, which may be missing: each a qualified name (Doubled) with a
    ///   quantity as its `value`, and without a `requestPolicy` (NotSupported); with the attributes
    ///   at most 32, else TooMany
    /// - `consumesCounters` of a device, which may be missing: each with a `counterSet`, any text that
    ///   appears once (Doubled), and `counters`, any texts with a `value` that isn't negative; with
    ///   more than 32 of these in all it is TooMany
    /// - `nodeName`, `nodeSelector` and `allNodes` of a device: just one where the slice has
    ///   `perDeviceNodeSelection`, else none, NotOne at the device
    /// - `taints` of a device, which may be missing: at most 16 (TooMany), as `read_taints` of
    ///   `device_taints` reads them
    /// - `allowMultipleAllocations`, `bindingConditions`, `bindingFailureConditions` and `bindsToNode`
    ///   of a device: NotSupported unless missing, null, false or empty
    ///
    /// A required field is Missing if it isn't there or is null; then it is WrongType if it
    /// is of another JSON type, TooLong, and BadName, BadQuantity or BadVersion, and a number or an
    /// amount out of its range is OutOfRange. Fields that this project doesn't know are ignored.
    /// Memory may be returned at any time, with the top's path.
    pub fn read(alloc: Global, value: &Value) -> Result<ResourceSlice, FieldError>
        ensures { Reads result (fields.slice_of (view value.now)) }
    {
        let ObjectMeta { key, version, .. } = ObjectMeta::read(alloc, value, Scope::Cluster)?;
        metadata_keeps_limits();
        read_named(alloc, value, key.name, version)
    }
}

/// The slice of that name and version with the document's spec.
fn read_named(
    alloc: Global,
    document: &Value,
    name: Text,
    version: Option<u64>,
) -> Result<ResourceSlice, FieldError>
    requires name { NameKept name }
    requires version { VersionKept version }
    ensures { Reads result (fields.spec_at name version (view document.now)) }
{
    let top = Path::top();
    let spec = object(alloc, document, &top, "spec")?;
    let path = top.member("spec");
    read_spec(alloc, spec, &path, name, version)
}

fn read_spec(
    alloc: Global,
    spec: &Value,
    path: &Path,
    name: Text,
    version: Option<u64>,
) -> Result<ResourceSlice, FieldError>
    requires name { NameKept name }
    requires version { VersionKept version }
    ensures { Reads result (fields.spec_in name version path.now (view spec.now)) }
{
    taints_keep_limits();
    let driver = DriverName::read(alloc, spec, path)?;
    let pool = read_pool(alloc, spec, path)?;
    let nodes = read_slice_nodes(alloc, spec, path)?;
    let (counters, devices) = read_contents(alloc, spec, path, &driver, is_per_device(&nodes))?;
    Ok(ResourceSlice {
        name,
        version,
        driver,
        pool,
        nodes,
        counters,
        devices,
    })
}

/// The counter sets and the devices. The driver and `per_device`, whether each device says where it
/// is, are the slice's.
fn read_contents(
    alloc: Global,
    spec: &Value,
    path: &Path,
    driver: &DriverName,
    per_device: bool,
) -> Result<(Seq<CounterSet>, Seq<Device>), FieldError>
    ensures { Reads result
        (reading.◌>>=◌ (counter_sets_at path.now (view spec.now)) (λ counters.
        reading.◌>>=◌ (devices_at driver.now per_device path.now (view spec.now)) (λ devices. Ok (counters, devices)))) }
{
    let counters = read_counter_sets(alloc, spec, path)?;
    let devices = read_devices(alloc, spec, path, driver, per_device)?;
    Ok((counters, devices))
}

/// Whether each device says where it is.
fn is_per_device(nodes: &SliceNodes) -> bool
    ensures { result ≡ is_per_device nodes.now }
{
    match nodes {
        SliceNodes::Nodes(_) => false,
        SliceNodes::PerDevice => true,
    }
}

/// The pool of a slice's spec.
fn read_pool(alloc: Global, spec: &Value, path: &Path) -> Result<Pool, FieldError>
    ensures { Reads result (fields.pool_at path.now (view spec.now)) }
{
    let pool = object(alloc, spec, path, "pool")?;
    let path = path.member("pool");
    read_pool_members(alloc, pool, &path)
}

fn read_pool_members(alloc: Global, pool: &Value, path: &Path) -> Result<Pool, FieldError>
    ensures { Reads result (fields.pool_in path.now (view pool.now)) }
{
    let name = read_pool_name(alloc, pool, path, "name")?;
    let generation = natural(alloc, pool, path, "generation", 0, SIGNED_MOST)?;
    let slices = natural(alloc, pool, path, "resourceSliceCount", 1, SIGNED_MOST)?;
    Ok(Pool {
        name,
        generation,
        slices,
    })
}
