ghost use Rattle.std.specs.Prelude.{◌≡◌, ◌≤◌, length, take, map};
ghost use Rattle.std.specs.List.{list_all};
ghost use Rattle.std.specs.Result.{is_ok};
ghost use Rattle.cel_tree.specs.Ast.{constant_view, entry_view, entries_of, span_of, tree_view};
ghost use Rattle.cel_tree.specs.Typing.{key_type, key_of, keys_type, beside, literal_of};
ghost use Rattle.cel_check.specs.Keys.{literals};

use cel_tree::{Entry, KeyType, Kind, Literal, Tree};

/// Whether the two are literals of one of the types of keys, and not alike.
fn is_beside(first: &Literal, second: &Literal) -> bool
    ensures { result ≡ beside (constant_view first.now) (constant_view second.now) }
{
    match (first, second) {
        (Literal::Bool(a), Literal::Bool(b)) => *a != *b,
        (Literal::Int(a), Literal::Int(b)) => *a != *b,
        (Literal::Text(a), Literal::Text(b)) => a.as_str() != b.as_str(),
        _ => false,
    }
}

/// The type of a key that is the literal.
pub fn key_type(literal: &Literal) -> Option<KeyType>
    ensures { result ≡ key_type (constant_view literal.now) }
{
    match literal {
        Literal::Null => None,
        Literal::Bool(_) => Some(KeyType::Bool),
        Literal::Int(_) => Some(KeyType::Int),
        Literal::Text(_) => Some(KeyType::Text),
    }
}

/// Whether a literal is beside each key of the entries that is a literal.
fn is_fresh(entries: &[Entry], literal: &Literal) -> bool
    ensures { result ≡ list_all (beside (constant_view literal.now)) (literals (map entry_view entries.now)) }
{
    for entry in entries {
        if let Kind::Literal(earlier) = &entry.key.kind {
            if !is_beside(literal, earlier) {
                return false;
            }
        }
    }
    true
}

/// Whether the key of the entry at the index is a literal of one of the types of keys, and beside
/// each key before it.
pub fn is_key(entries: &[Entry], at: usize, key: &Tree) -> bool
    requires { at ≤ length entries.now }
    ensures { result ≡ is_ok (key_of (span_of (tree_view key.now)) (literals (map entry_view (take at entries.now))) (literal_of (tree_view key.now))) }
{
    match &key.kind {
        Kind::Literal(literal) => key_type(literal).is_some() && is_fresh(&entries[..at], literal),
        _ => false,
    }
}

/// The type of the keys of a map literal: that of its first key.
pub fn keys_type(entries: &[Entry]) -> KeyType
    ensures { result ≡ keys_type (entries_of (map entry_view entries.now)) }
{
    if entries.len() == 0 {
        return KeyType::Text;
    }
    match &entries[0].key.kind {
        Kind::Literal(literal) => key_type(literal).unwrap_or(KeyType::Text),
        _ => KeyType::Text,
    }
}
