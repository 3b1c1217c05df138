ghost use Rattle.std.specs.Prelude.{◌≡◌, List, true};
ghost use Rattle.device_taints.specs.Tolerating as spec;
ghost use Rattle.device_taints.specs.Tolerating.{AreTolerated, Tolerates};
ghost use Rattle.device_taints.specs.declared.types.Taint.{Taint};
ghost use Rattle.device_taints.specs.declared.types.Toleration.{Toleration};

use crate::types::{Taint, TaintEffect, Toleration, TolerationOperator};
use dra_values::Text;

/// Whether each of the taints of a device is tolerated by one of the tolerations of a request or
/// subrequest. Allocates nothing.
pub fn are_tolerated(tolerations: &[Toleration], taints: &[Taint]) -> bool
    ensures { result ≡ spec.are_tolerated tolerations.now taints.now }
{
    taints.iter().all(|taint| is_tolerated(tolerations, taint))
}

fn is_tolerated(tolerations: &[Toleration], taint: &Taint) -> bool
    ensures { result ≡ spec.is_tolerated tolerations.now taint.now }
{
    tolerations
        .iter()
        .any(|toleration| tolerates(toleration, taint))
}

/// Whether the toleration tolerates the taint (KEP 5055): its effect is missing or the taint's; its
/// key is the taint's, or it is empty with Exists; and its operator is Exists, or its value is the
/// taint's, where a missing value is empty. Allocates nothing.
pub fn tolerates(toleration: &Toleration, taint: &Taint) -> bool
    ensures { result ≡ spec.tolerates toleration.now taint.now }
{
    fits_effect(toleration.effect, taint.effect)
        && fits_key(toleration, &taint.key)
        && fits_value(&toleration.operator, &taint.value)
}

fn fits_effect(own: Option<TaintEffect>, effect: TaintEffect) -> bool
    ensures { result ≡ spec.fits_effect own effect }
{
    match own {
        Some(own) => own == effect,
        None => true,
    }
}

/// Whether the key is the taint's, or there is none with Exists.
fn fits_key(toleration: &Toleration, key: &Text) -> bool
    ensures { result ≡ spec.fits_key toleration.now.operator toleration.now.key key.now }
{
    match &toleration.operator {
        TolerationOperator::Equal(_) => toleration.key == *key,
        TolerationOperator::Exists => {
            toleration.key.as_str().is_empty() || toleration.key == *key
        }
    }
}

fn fits_value(operator: &TolerationOperator, value: &Text) -> bool
    ensures { result ≡ spec.fits_value operator.now value.now }
{
    match operator {
        TolerationOperator::Equal(own) => *own == *value,
        TolerationOperator::Exists => true,
    }
}

/// What `tolerates` and `are_tolerated` compute, in plain facts: they are true if and only if the
/// toleration fits the taint by its effect, its key and its value, and if and only if each taint has a
/// toleration among those given that fits it.
pub fn tolerations_are_by_facts()
    ensures fits { (toleration : Toleration) (taint : Taint) → spec.tolerates toleration taint ≡ true → Tolerates toleration taint }
    ensures only { (toleration : Toleration) (taint : Taint) → Tolerates toleration taint → spec.tolerates toleration taint ≡ true }
    ensures all_fit { (tolerations : List Toleration) (taints : List Taint) → spec.are_tolerated tolerations taints ≡ true → AreTolerated tolerations taints }
    ensures only_all { (tolerations : List Toleration) (taints : List Taint) → AreTolerated tolerations taints → spec.are_tolerated tolerations taints ≡ true }
{}
