//! What is remembered of nodes, by each worker that isn't searching now.

ghost use Rattle.std.specs.Prelude.{List};
ghost use Rattle.cluster.specs.declared.entry.Entry.{Entry};
ghost use Rattle.ledger_core.specs.Remembered.{AreTrueOf, IsTrueOf};

use node_memo::Memo;
use std::alloc::Global;

/// Takes the last out, or else makes one that knows nothing. Allocates nothing.
pub fn take_last(alloc: Global, memos: &mut Vec<Memo>) -> Memo
    ensures known { (h : List Entry) → AreTrueOf h memos.old.items → IsTrueOf h result }
    ensures rest { (h : List Entry) → AreTrueOf h memos.old.items → AreTrueOf h memos.new.items }
{
    match memos.pop() {
        Some(memo) => memo,
        None => Memo::new(alloc),
    }
}

/// Puts one at the end. It is let go of if memory runs out.
pub fn put_last(memos: &mut Vec<Memo>, memo: Memo)
    ensures { (h : List Entry) → AreTrueOf h memos.old.items → IsTrueOf h memo → AreTrueOf h memos.new.items }
{
    let _put = memos.push(memo);
}
