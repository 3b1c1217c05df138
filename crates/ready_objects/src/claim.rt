ghost use Rattle.std.specs.Prelude.{◌≡◌, [], ◌∷◌, ◌++◌, codes, Ok};
ghost use Rattle.object_fields.specs.declared.path.Step.TheVariants as Step;
ghost use Rattle.object_fields.specs.Fields.{Reads};
ghost use Rattle.ready_objects.specs.Ready.{claim_ready, claim_selectors, kind_texts, only_texts, options_from, requests_from, requests_path, selectors_path, texts_at};

use crate::compile::compile_each;
use api_claim::{DeviceAsk, DeviceRequest, DeviceSubRequest, RequestKind, ResourceClaim};
use device_selector::DeviceSelector;
use dra_values::Seq;
use object_fields::{FieldError, Path, or_memory};
use std::alloc::Global;
use std::marker::Model;

/// A claim whose selectors are compiled, which contracts see as the claim.
#[derive(Drop)]
pub struct ReadyClaim {
    claim: ResourceClaim,
    /// By the requests, and by the ways to satisfy each: `exactly`, or its subrequests.
    selectors: Seq<Seq<Seq<DeviceSelector>>>,
}

impl Model for ReadyClaim {
    ghost use Rattle.api_claim.specs.declared.types.ResourceClaim.{ResourceClaim};
    ghost use Rattle.ready_objects.specs.Ready.{IsReadyClaim};

    ghost Value = { ResourceClaim };

    ghost view = { λ r. r.claim };

    ghost invariant = { λ r. IsReadyClaim r.claim r.selectors };
}

impl ReadyClaim {
    /// Compiles the selectors of a claim. The error is that of the first that doesn't compile, of kind
    /// `Selector` with its stage, at its `cel.expression`; Memory may be returned at any point.
    #[tactic(auto, using(crate::proofs::Gathered::claim_made))]
    pub fn of(alloc: Global, claim: ResourceClaim) -> Result<ReadyClaim, FieldError>
        ensures { Reads result (claim_ready claim) }
    {
        let selectors = compile_requests(alloc, claim.requests.as_slice())?;
        Ok(ReadyClaim { claim, selectors })
    }

    /// The claim.
    pub fn claim(&self) -> &ResourceClaim
        ensures value { result.now ≡ self.now }
        ensures ready { claim_ready self.now ≡ Ok self.now }
    {
        &self.claim
    }

    /// The compiled selectors by the requests, and by the ways to satisfy each.
    pub fn selectors(&self) -> &[Seq<Seq<DeviceSelector>>]
        ensures { result.now ≡ claim_selectors self.now }
    {
        self.selectors.as_slice()
    }
}

fn compile_requests(
    alloc: Global,
    requests: &[DeviceRequest],
) -> Result<Seq<Seq<Seq<DeviceSelector>>>, FieldError>
    ensures { Reads result (requests_from 0 [] requests.now) }
{
    let top = Path::top();
    let spec = top.member("spec");
    let devices = spec.member("devices");
    let path = devices.member("requests");
    compile_list(alloc, requests, &path)
}

fn compile_list(
    alloc: Global,
    requests: &[DeviceRequest],
    path: &Path,
) -> Result<Seq<Seq<Seq<DeviceSelector>>>, FieldError>
    requires { path.now ≡ requests_path }
    ensures { Reads result (requests_from 0 [] requests.now) }
{
    let mut selectors = Seq::empty(alloc);
    for place in 0..requests.len() {
        let at = path.place(place);
        let options = compile_kind(alloc, &requests[place].kind, &at)?;
        or_memory(alloc, selectors.push(options))?;
    }
    Ok(selectors)
}

fn compile_kind(
    alloc: Global,
    kind: &RequestKind,
    path: &Path,
) -> Result<Seq<Seq<DeviceSelector>>, FieldError>
    ensures { Reads result (kind_texts path.now kind.now) }
{
    match kind {
        RequestKind::Exactly(exactly) => compile_exactly(alloc, &exactly.ask, path),
        RequestKind::FirstAvailable(requests) => {
            compile_subrequests(alloc, requests.as_slice(), path)
        }
    }
}

fn compile_exactly(
    alloc: Global,
    ask: &DeviceAsk,
    path: &Path,
) -> Result<Seq<Seq<DeviceSelector>>, FieldError>
    ensures { Reads result (only_texts (path.now ++ Step.Member (codes "exactly") ∷ []) ask.now.selectors) }
{
    let path = path.member("exactly");
    compile_only(alloc, ask, &path)
}

fn compile_subrequests(
    alloc: Global,
    requests: &[DeviceSubRequest],
    path: &Path,
) -> Result<Seq<Seq<DeviceSelector>>, FieldError>
    ensures { Reads result (options_from (path.now ++ Step.Member (codes "firstAvailable") ∷ []) 0 [] requests.now) }
{
    let path = path.member("firstAvailable");
    compile_options(alloc, requests, &path)
}

fn compile_only(
    alloc: Global,
    ask: &DeviceAsk,
    path: &Path,
) -> Result<Seq<Seq<DeviceSelector>>, FieldError>
    ensures { Reads result (only_texts path.now ask.now.selectors) }
{
    let selectors = compile_ask(alloc, ask, path)?;
    let mut options = Seq::empty(alloc);
    or_memory(alloc, options.push(selectors))?;
    Ok(options)
}

fn compile_options(
    alloc: Global,
    requests: &[DeviceSubRequest],
    path: &Path,
) -> Result<Seq<Seq<DeviceSelector>>, FieldError>
    ensures { Reads result (options_from path.now 0 [] requests.now) }
{
    let mut options = Seq::empty(alloc);
    for place in 0..requests.len() {
        let at = path.place(place);
        let selectors = compile_ask(alloc, &requests[place].ask, &at)?;
        or_memory(alloc, options.push(selectors))?;
    }
    Ok(options)
}

fn compile_ask(
    alloc: Global,
    ask: &DeviceAsk,
    path: &Path,
) -> Result<Seq<DeviceSelector>, FieldError>
    ensures { Reads result (texts_at (selectors_path path.now) ask.now.selectors) }
{
    let path = path.member("selectors");
    compile_each(alloc, ask.selectors.as_slice(), &path)
}
