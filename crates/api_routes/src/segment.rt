ghost use Rattle.std.specs.Prelude.{◌≡◌, ◌∷◌, option_map};
ghost use Rattle.api_routes.specs.Paths.{following, is_named, path_part, segments};

/// The target up to its first `?`.
pub fn path_part(target: &str) -> &str
    ensures { result.now ≡ path_part target.now }
{
    match target.split_once('?') {
        Some((path, _)) => path,
        None => target,
    }
}

/// The first segment of a path, and what follows the slash after it.
pub fn next(path: &str) -> (&str, Option<&str>)
    ensures { segments path.now ≡ result.0.now ∷ following (option_map (λ p. p.now) result.1) }
{
    match path.split_once('/') {
        Some((segment, rest)) => (segment, Some(rest)),
        None => (path, None),
    }
}

/// Whether a segment can be a name: it isn't empty.
pub fn is_named(segment: &str) -> bool
    ensures { result ≡ is_named segment.now }
{
    !segment.is_empty()
}
