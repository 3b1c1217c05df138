ghost use Rattle.std.specs.Prelude.{◌≡◌, ◌++◌, IfOk, OnOk, map, string_bytes};
ghost use Rattle.script_gen.specs.Script.{cluster_documents, lines_of, number_after, number_after_release, pod_documents, release_documents, script_of};

use crate::documents::{
    push_claim, push_class, push_node, push_pod, push_release, push_schedule, push_slice,
};
use crate::generator::Generator;
use std::alloc::{AllocError, Global};

/// Writes the nodes, the class and the slices.
fn push_cluster(out: &mut String) -> Result<(), AllocError>
    ensures { OnOk result (string_bytes out.new ≡ string_bytes out.old ++ lines_of cluster_documents) }
{
    for i in 0..4 {
        push_node(out, i)?;
    }
    push_class(out)?;
    for i in 0..4 {
        push_slice(out, i)?;
    }
    Ok(())
}

/// Writes the Release of an earlier pod than the one with this index, if one is released.
fn push_released(out: &mut String, numbers: &mut Generator, i: u64) -> Result<(), AllocError>
    ensures text { OnOk result (string_bytes out.new ≡ string_bytes out.old ++ lines_of (release_documents numbers.old.number i)) }
    ensures number { OnOk result (numbers.new.number ≡ number_after_release numbers.old.number i) }
{
    if numbers.draw() % 4 == 0 && i > 0 {
        push_release(out, numbers.draw() % i)?;
    }
    Ok(())
}

/// Writes the documents of the pod with this index.
fn push_documents(out: &mut String, numbers: &mut Generator, i: u64) -> Result<(), AllocError>
    ensures text { OnOk result (string_bytes out.new ≡ string_bytes out.old ++ lines_of (pod_documents numbers.old.number i)) }
    ensures number { OnOk result (numbers.new.number ≡ number_after numbers.old.number i) }
{
    let count = 1 + numbers.draw() % 2;
    push_claim(out, i, count)?;
    push_pod(out, i)?;
    push_schedule(out, i)?;
    push_released(out, numbers, i)?;
    Ok(())
}

/// The script of so many pods that is generated from a number: nodes `n0` to `n3`, the class `gpu`,
/// a slice of eight devices for each node, and then for each pod a claim that asks for one or two
/// devices, the pod, a Schedule of it, and for some pods the Release of an earlier one. Each document
/// is on a line of its own. `AllocError` is returned only if memory runs out. The script is this
/// project's own.
pub fn script(alloc: Global, from: u64, pods: u64) -> Result<Vec<u8>, AllocError>
    ensures { IfOk result (λ v. v.items ≡ script_of from pods) }
{
    let mut out = String::new(alloc);
    push_cluster(&mut out)?;
    let mut numbers = Generator { number: from };
    for i in 0..pods {
        push_documents(&mut out, &mut numbers, i)?;
    }
    Ok(out.into_bytes())
}
