//! Laws of what is read.

ghost use Rattle.std.specs.Prelude.{◌≡◌, List, Ok};
ghost use Rattle.serde_json.specs.Data.{Data};
ghost use Rattle.object_fields.specs.declared.path.Step.{Step};
ghost use Rattle.device_taints.specs.Limits.{TaintsKept, TolerationsKept};
ghost use Rattle.device_taints.specs.Reading.{taints_at, tolerations_at};
ghost use Rattle.device_taints.specs.declared.types.Taint.{Taint};
ghost use Rattle.device_taints.specs.declared.types.Toleration.{Toleration};

use crate::types::{Taint, Toleration};
use object_fields::lists_keep_limits;

/// The taints that are read of a device are at most 16, each with a key of 1 to 317 bytes and a value
/// of at most 63.
pub fn taints_keep_limits()
    ensures { (path : List Step) (d : Data) (taints : List Taint) → taints_at path d ≡ Ok taints → TaintsKept taints }
{
    lists_keep_limits::<Taint>();
}

/// The tolerations that are read of a request or subrequest are at most 16, and each without a key has
/// the operator Exists.
pub fn tolerations_keep_limits()
    ensures { (path : List Step) (d : Data) (tolerations : List Toleration) → tolerations_at path d ≡ Ok tolerations → TolerationsKept tolerations }
{
    lists_keep_limits::<Toleration>();
}
