use api_routes::Kind;
use cluster::Target;
use commands::Command;
use dra_values::Text;

/// What a request is for.
#[derive(Drop)]
pub enum Task {
    /// A command, which a job carries out.
    Run(Command),
    /// The object of a kind and name.
    Show(Target),
    /// All objects of a kind in a namespace, which is empty if the kind has none.
    List(Kind, Text),
    /// The journal.
    History,
}
