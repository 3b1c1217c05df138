use crate::Ledger;
use cluster::Entry;
use turn_lock::Recorded;

/// Under a lock a ledger's history is its entries, and its fixed number is how many it may have.
impl Recorded for Ledger {
    type Entry = Entry;

    ghost history = { λ ledger. ledger.entries };

    ghost number = { λ ledger. ledger.limit };
}
