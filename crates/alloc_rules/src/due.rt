use cluster::DeviceResult;
use object_fields::Key;
use std::marker::Model;

/// A result with its claim, the index of the row of the request that it is for, and the position of its
/// device. Contracts see the record of its values.
#[derive(Drop)]
pub struct Due<'a> {
    pub claim: &'a Key,
    pub row: usize,
    pub position: usize,
    pub result: &'a DeviceResult,
}

impl<'a> Model for Due<'a> {
    ghost use Rattle.alloc_rules.specs.Rows.{DueFields};

    ghost Value = { DueFields };

    ghost view = { λ d. record { claim = d.claim.now; row = d.row; position = d.position; result = d.result.now } };
}
