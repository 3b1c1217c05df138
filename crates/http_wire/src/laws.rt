ghost use Rattle.std.specs.Prelude.{◌≡◌, ◌≤◌, ◌+◌, ◌∷◌, ◌++◌, [], List, ℕ, false, length};
ghost use Rattle.http_wire.specs.Requests.{AreRequests, Ending, IsFirst, IsRequest, Lie, LieAfter, Message, requests_most};

/// The requests of bytes lie in them in order, one after another, up to an ending.
///
/// Behind so many others bytes have one list of requests and one ending (`one`), and a request that
/// the bytes begin with is the first of them, followed by those of the bytes after it (`first`): so a
/// reader that takes the first request, again and again, can return no others. Requests that don't end
/// the connection, and one after them that doesn't either, are such requests again (`more`). After them
/// come the requests and the ending of what follows (`ends`). A connection has at most 65,535 (`few`).
pub fn requests_lie_in_order()
    ensures one { (before : ℕ) (bytes : List ℕ) (ms ns : List Message) (e f : Ending) → LieAfter before bytes ms e → LieAfter before bytes ns f → (ms ≡ ns) × (e ≡ f) }
    ensures first { (before : ℕ) (text rest : List ℕ) (m : Message) (ms : List Message) (e : Ending) → IsRequest before text m → LieAfter before (text ++ rest) ms e → IsFirst before m rest ms e }
    ensures more { (before : ℕ) (bytes text : List ℕ) (ms : List Message) (m : Message) → AreRequests before bytes ms → IsRequest (before + length ms) text m → m.last ≡ false → AreRequests before (bytes ++ text) (ms ++ m ∷ []) }
    ensures ends { (before : ℕ) (bytes rest : List ℕ) (ms ns : List Message) (e : Ending) → AreRequests before bytes ms → LieAfter (before + length ms) rest ns e → LieAfter before (bytes ++ rest) (ms ++ ns) e }
    ensures few { (bytes : List ℕ) (ms : List Message) (e : Ending) → Lie bytes ms e → length ms ≤ requests_most }
{}
