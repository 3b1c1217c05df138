//! Which results a constraint names.

ghost use Rattle.std.specs.Prelude.{◌≡◌};
ghost use Rattle.request_rules.specs.Agreeing as spec;

use dra_values::Text;

/// The part of a result's name before the slash, or all of it.
fn main_of(name: &str) -> &str
    ensures { result.now ≡ spec.main_of name.now }
{
    match name.split_once('/') {
        Some((main, _)) => main,
        None => name,
    }
}

fn names_one(name: &Text, result_name: &Text) -> bool
    ensures { result ≡ spec.names_one name.now result_name.now }
{
    name == result_name || name.as_str() == main_of(result_name.as_str())
}

fn names_any(requests: &[Text], result_name: &Text) -> bool
    ensures { result ≡ spec.names_any requests.now result_name.now }
{
    for name in requests {
        if names_one(name, result_name) {
            return true;
        }
    }
    false
}

/// Whether one of the names is that of the result or of its request; an empty list names all results.
pub fn names(requests: &[Text], result_name: &Text) -> bool
    ensures { result ≡ spec.names requests.now result_name.now }
{
    requests.len() == 0 || names_any(requests, result_name)
}
