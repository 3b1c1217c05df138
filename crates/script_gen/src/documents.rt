ghost use Rattle.std.specs.Prelude.{◌≡◌, ◌++◌, OnOk, codes, string_bytes};
ghost use Rattle.script_gen.specs.Documents.{class_document, claim_document, node_document, pod_document, release_document, schedule_document, slice_document, slice_head};

use std::alloc::AllocError;
use std::fmt::Write;

/// Writes the line of the node `ni`.
pub fn push_node(out: &mut String, i: u64) -> Result<(), AllocError>
    ensures { OnOk result (string_bytes out.new ≡ string_bytes out.old ++ node_document i ++ codes "\n") }
{
    writeln!(
        out,
        r#"{{"apiVersion":"v1","kind":"Node","metadata":{{"name":"n{i}"}}}}"#
    )
}

/// Writes the line of the class.
pub fn push_class(out: &mut String) -> Result<(), AllocError>
    ensures { OnOk result (string_bytes out.new ≡ string_bytes out.old ++ class_document ++ codes "\n") }
{
    out.push_str(
        r#"{"apiVersion":"resource.k8s.io/v1","kind":"DeviceClass","metadata":{"name":"gpu"},"spec":{}}"#,
    )?;
    Ok(out.push_str("\n")?)
}

/// Writes the slice `si` up to its devices.
fn push_slice_head(out: &mut String, i: u64) -> Result<(), AllocError>
    ensures { OnOk result (string_bytes out.new ≡ string_bytes out.old ++ slice_head i) }
{
    write!(
        out,
        r#"{{"apiVersion":"resource.k8s.io/v1","kind":"ResourceSlice","metadata":{{"name":"s{i}"}},"#
    )?;
    write!(
        out,
        r#""spec":{{"driver":"gpu.example.com","nodeName":"n{i}","pool":{{"name":"n{i}","generation":1,"resourceSliceCount":1}},"devices":["#
    )
}

/// Writes the line of the slice `si`.
pub fn push_slice(out: &mut String, i: u64) -> Result<(), AllocError>
    ensures { OnOk result (string_bytes out.new ≡ string_bytes out.old ++ slice_document i ++ codes "\n") }
{
    push_slice_head(out, i)?;
    out.push_str(r#"{"name":"d0"},{"name":"d1"},{"name":"d2"},{"name":"d3"},"#)?;
    out.push_str(r#"{"name":"d4"},{"name":"d5"},{"name":"d6"},{"name":"d7"}"#)?;
    Ok(out.push_str("]}}\n")?)
}

/// Writes the line of the claim `ci`, which asks for so many devices.
pub fn push_claim(out: &mut String, i: u64, count: u64) -> Result<(), AllocError>
    ensures { OnOk result (string_bytes out.new ≡ string_bytes out.old ++ claim_document i count ++ codes "\n") }
{
    write!(
        out,
        r#"{{"apiVersion":"resource.k8s.io/v1","kind":"ResourceClaim","metadata":{{"namespace":"default","name":"c{i}"}},"#
    )?;
    writeln!(
        out,
        r#""spec":{{"devices":{{"requests":[{{"name":"gpu","exactly":{{"deviceClassName":"gpu","count":{count}}}}}]}}}}}}"#
    )
}

/// Writes the line of the pod `pi`, which uses the claim `ci`.
pub fn push_pod(out: &mut String, i: u64) -> Result<(), AllocError>
    ensures { OnOk result (string_bytes out.new ≡ string_bytes out.old ++ pod_document i ++ codes "\n") }
{
    writeln!(
        out,
        r#"{{"apiVersion":"v1","kind":"Pod","metadata":{{"namespace":"default","name":"p{i}"}},"spec":{{"resourceClaims":[{{"name":"g","resourceClaimName":"c{i}"}}]}}}}"#
    )
}

/// Writes the line of a Schedule of the pod `pi`.
pub fn push_schedule(out: &mut String, i: u64) -> Result<(), AllocError>
    ensures { OnOk result (string_bytes out.new ≡ string_bytes out.old ++ schedule_document i ++ codes "\n") }
{
    writeln!(
        out,
        r#"{{"apiVersion":"dra.replay/v1","kind":"Schedule","namespace":"default","name":"p{i}"}}"#
    )
}

/// Writes the line of a Release of the pod `pi`.
pub fn push_release(out: &mut String, i: u64) -> Result<(), AllocError>
    ensures { OnOk result (string_bytes out.new ≡ string_bytes out.old ++ release_document i ++ codes "\n") }
{
    writeln!(
        out,
        r#"{{"apiVersion":"dra.replay/v1","kind":"Release","namespace":"default","name":"p{i}"}}"#
    )
}
