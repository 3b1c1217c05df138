//! What a worker remembers of nodes while it searches.

ghost use Rattle.std.specs.Prelude.{◌≡◌, None};
ghost use Rattle.sched_job.specs.Noted.{AreNotesOf, AreSince};

use crate::Next;
use dra_values::Shared;
use ledger_core::{Ledger, LedgerError, memory_goes_on};
use node_memo::{Dates, Memo};
use std::alloc::Global;

/// What is remembered of nodes that have no allocation, and the dates by which it is true.
#[derive(Drop)]
pub struct Notes {
    pub dates: Shared<Dates>,
    pub memo: Memo,
}

/// Gives a ledger back what was taken out of it, if anything was.
pub fn give_back(ledger: &mut Ledger, notes: &mut Option<Notes>)
    requires { AreSince ledger.old.entries notes.old }
    ensures ledger { ledger.new ≡ ledger.old }
    ensures notes { notes.new ≡ None }
{
    memory_goes_on();
    let _len = ledger.len();
    if let Some(found) = notes.take() {
        let Notes {
            dates: _dates,
            memo,
        } = found;
        ledger.put_memo(memo);
    }
}

/// Takes what is remembered out of a ledger, with its dates. Allocates nothing.
pub fn take_notes(alloc: Global, ledger: &mut Ledger) -> Option<Notes>
    ensures ledger { ledger.new ≡ ledger.old }
    ensures notes { AreNotesOf ledger.old.entries result }
{
    match ledger.share_dates() {
        Ok(dates) => {
            let memo = ledger.take_memo(alloc);
            Some(Notes { dates, memo })
        }
        Err(_) => None,
    }
}

/// What is remembered, if a search is next.
pub fn notes_for(
    alloc: Global,
    ledger: &mut Ledger,
    next: &Result<Next, LedgerError>,
) -> Option<Notes>
    ensures ledger { ledger.new ≡ ledger.old }
    ensures notes { AreNotesOf ledger.old.entries result }
{
    match next {
        Ok(Next::Think) => take_notes(alloc, ledger),
        Ok(Next::Again | Next::Ended(_)) | Err(_) => None,
    }
}
