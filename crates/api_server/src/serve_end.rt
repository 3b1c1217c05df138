ghost use Rattle.std.specs.Prelude.{◌≡◌, map};
ghost use Rattle.api_server.specs.Together.{worse, worst};
ghost use Rattle.api_server.specs.declared.serve_end.ServeEnd.TheVariants as serve_end;

use crate::share_end::ShareEnd;
use crate::worker::Visited;
use door_ports::Door;

/// How the workers of a server ended.
#[derive(Clone, Copy, Debug, PartialEq, Eq, Drop)]
pub enum ServeEnd {
    /// All connections were served.
    Served,
    /// Memory ran out.
    Memory,
    /// The doors, or one of them, failed.
    Door,
    /// The history has so many entries, its limit, and one more is expected.
    Limit(u64),
}

/// How a server ends whose workers ended so.
pub fn worst<D: Door>(ends: &[Visited<D>]) -> ServeEnd
    ensures { result ≡ worst serve_end.Served (map (λ v. v.end) ends.now) }
{
    let mut worst = ServeEnd::Served;
    for visited in ends {
        worst = worse(worst, visited.end);
    }
    worst
}

/// The one of two reasons that comes first.
fn worse(end: ServeEnd, next: ShareEnd) -> ServeEnd
    ensures { result ≡ worse end next }
{
    match next {
        ShareEnd::Served => end,
        ShareEnd::Memory => ServeEnd::Memory,
        ShareEnd::Door => match end {
            ServeEnd::Memory => end,
            ServeEnd::Served | ServeEnd::Door | ServeEnd::Limit(_) => ServeEnd::Door,
        },
        ShareEnd::Full(count) => match end {
            ServeEnd::Memory | ServeEnd::Door => end,
            ServeEnd::Served | ServeEnd::Limit(_) => ServeEnd::Limit(count),
        },
    }
}
