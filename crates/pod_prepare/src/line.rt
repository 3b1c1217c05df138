ghost use Rattle.std.specs.Prelude.{◌≡◌, ◌++◌, IfErr, IfOk, IsErrOf, OnOk, string_bytes, codes};
ghost use Rattle.std.specs.List.{flat_map, join_by};
ghost use Rattle.journal_text.specs.Journal.{kubelet_line};
ghost use Rattle.pod_prepare.specs.Texts.{absent_text, claim_text, error_word, name_text, prepared_text, reopened_text, unprepared_text};
ghost use Rattle.pod_prepare.specs.Lines.{EndedBy, IsLineOf};

use dra_values::Text;
use journal_text::kubelet_line;
use object_fields::Key;
use prepare_core::{KubeletError, Names};
use std::alloc::{AllocError, Global};

/// What is said of one claim, and whether the command goes on after it.
#[derive(Drop)]
pub struct Line {
    pub text: Vec<u8>,
    pub goes: bool,
}

/// An error's word.
fn error_word(why: KubeletError) -> &'static str
    ensures { result.now ≡ error_word why }
{
    match why {
        KubeletError::NotAllocated => "NotAllocated",
        KubeletError::NotReserved => "NotReserved",
        KubeletError::OtherNode => "OtherNode",
        KubeletError::DriverFault => "DriverFault",
        KubeletError::DiskFault => "DiskFault",
        KubeletError::Full => "Full",
        KubeletError::Closed => "Closed",
        KubeletError::NotPrepared => "NotPrepared",
        KubeletError::Memory => "Memory",
        KubeletError::NotAJournal(_) => "NotAJournal",
    }
}

/// Writes each name after a comma.
fn push_names(out: &mut String, names: &[Text]) -> Result<(), AllocError>
    ensures { OnOk result (string_bytes out.new ≡ string_bytes out.old ++ flat_map (λ x. codes "," ++ name_text x) names.now) }
{
    for name in names {
        out.push_str(",")?;
        out.push_str(name.as_str())?;
    }
    Ok(())
}

/// The names joined by `,`.
fn joined(alloc: Global, names: &[Text]) -> Result<String, AllocError>
    ensures { IfOk result (λ s. string_bytes s ≡ join_by name_text (codes ",") names.now) }
{
    let mut out = String::new(alloc);
    match names.split_first() {
        None => Ok(out),
        Some((first, rest)) => {
            out.push_str(first.as_str())?;
            push_names(&mut out, rest)?;
            Ok(out)
        }
    }
}

/// The line of a claim that was prepared.
fn names_line(
    alloc: Global,
    job: u64,
    pod: &Key,
    claim: &Key,
    names: &Names,
) -> Result<Vec<u8>, AllocError>
    ensures { IfOk result (λ v. v.items ≡ kubelet_line job (claim_text (codes "prepared") pod.now claim.now ++ codes " " ++ join_by name_text (codes ",") names.now)) }
{
    let names = joined(alloc, names.as_slice())?;
    let text = format!(in alloc; "prepared {pod} {claim} {names}")?;
    kubelet_line(alloc, job, text.as_str())
}

/// The line of a claim that was refused.
fn refused_line(
    alloc: Global,
    job: u64,
    what: &str,
    pod: &Key,
    claim: &Key,
    why: KubeletError,
) -> Result<Vec<u8>, AllocError>
    ensures { IfOk result (λ v. v.items ≡ kubelet_line job (claim_text what.now pod.now claim.now ++ codes " " ++ error_word why)) }
{
    let text = format!(in alloc; "{what} {pod} {claim} {}", error_word(why))?;
    kubelet_line(alloc, job, text.as_str())
}

/// The line of a claim that was given up.
fn given_up_line(alloc: Global, job: u64, pod: &Key, claim: &Key) -> Result<Vec<u8>, AllocError>
    ensures { IfOk result (λ v. v.items ≡ kubelet_line job (claim_text (codes "unprepared") pod.now claim.now)) }
{
    let text = format!(in alloc; "unprepared {pod} {claim}")?;
    kubelet_line(alloc, job, text.as_str())
}

/// What is said of a claim that was to be prepared, unless the error ends the command.
pub fn prepared(
    alloc: Global,
    job: u64,
    pod: &Key,
    claim: &Key,
    outcome: Result<Names, KubeletError>,
) -> Result<Line, KubeletError>
    ensures line { IfOk result (λ l. IsLineOf job (prepared_text pod.now claim.now) outcome l.text.items l.goes) }
    ensures ends { IfErr result (λ e. EndedBy outcome e) }
    ensures disk { IsErrOf outcome KubeletError.DiskFault → IsErrOf result KubeletError.DiskFault }
{
    match outcome {
        Ok(names) => {
            let text = names_line(alloc, job, pod, claim, &names)?;
            Ok(Line { text, goes: true })
        }
        Err(KubeletError::DiskFault) => Err(KubeletError::DiskFault),
        Err(KubeletError::Memory) => Err(KubeletError::Memory),
        Err(why) => {
            let text = refused_line(alloc, job, "prepare-refused", pod, claim, why)?;
            Ok(Line { text, goes: false })
        }
    }
}

/// What is said of a claim that was to be given up, unless the error ends the command.
pub fn unprepared(
    alloc: Global,
    job: u64,
    pod: &Key,
    claim: &Key,
    outcome: Result<(), KubeletError>,
) -> Result<Line, KubeletError>
    ensures line { IfOk result (λ l. IsLineOf job (unprepared_text pod.now claim.now) outcome l.text.items l.goes) }
    ensures ends { IfErr result (λ e. EndedBy outcome e) }
    ensures disk { IsErrOf outcome KubeletError.DiskFault → IsErrOf result KubeletError.DiskFault }
{
    match outcome {
        Ok(()) => {
            let text = given_up_line(alloc, job, pod, claim)?;
            Ok(Line { text, goes: true })
        }
        Err(KubeletError::DiskFault) => Err(KubeletError::DiskFault),
        Err(KubeletError::Memory) => Err(KubeletError::Memory),
        Err(why) => {
            let text = refused_line(alloc, job, "unprepare-refused", pod, claim, why)?;
            Ok(Line { text, goes: false })
        }
    }
}

/// The line of a command on a pod that isn't there.
pub fn absent_line(alloc: Global, job: u64, what: &str, pod: &Key) -> Result<Vec<u8>, AllocError>
    ensures { IfOk result (λ v. v.items ≡ kubelet_line job (absent_text what.now pod.now)) }
{
    let text = format!(in alloc; "{what} {pod} NotFound")?;
    kubelet_line(alloc, job, text.as_str())
}

/// The line of a kubelet that was opened again.
pub fn reopened_line(alloc: Global, job: u64, claims: usize) -> Result<Vec<u8>, AllocError>
    ensures { IfOk result (λ v. v.items ≡ kubelet_line job (reopened_text claims)) }
{
    let text = format!(in alloc; "reopened claims={claims}")?;
    kubelet_line(alloc, job, text.as_str())
}
