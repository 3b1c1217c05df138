ghost use Rattle.std.specs.Prelude.{◌≡◌, ◌≤◌, Some};
ghost use Rattle.cel_tree.specs.Ast.{tree_view};
ghost use Rattle.cel_tree.specs.Estimate.{Estimate};
ghost use Rattle.device_selector.specs.Compiles.{Compiles, Checks, priced_of};
ghost use Rattle.device_selector.specs.Selectors.{Stands, cheap, selector_in, selector_of};

use cel_check::{CheckError, check};
use cel_cost::estimate;
use cel_parse::{ParseError, parse};
use cel_tree::{Checked, Tree};
use std::alloc::Global;
use std::marker::Model;
use thiserror::Error;

/// The most steps that the evaluation of a selector may take, by its estimate.
pub const MOST_STEPS: u64 = 1_000_000;

/// A selector: a checked tree whose estimate is at most 1,000,000 steps.
#[derive(Drop)]
pub struct Compiled {
    tree: Checked,
}

impl Model for Compiled {
    ghost use Rattle.cel_tree.specs.Typed.{Typed, coded_typed};
    ghost use Rattle.cel_tree.specs.Estimate.{Estimate};
    ghost use Rattle.std.specs.Prelude.{◌≤◌};

    ghost Value = { Typed };

    ghost coded = { coded_typed };

    ghost view = { λ c. c.tree };

    ghost invariant = { λ c. Estimate c.tree.tree ≤ 1000000 };
}

/// Why a text is no selector.
#[derive(Clone, Copy, Debug, PartialEq, Eq, Drop, Error)]
pub enum CompileError {
    /// It is no expression of the selector language.
    #[error(transparent)]
    Parse(ParseError),
    /// The expression has no type, or one other than bool and dyn.
    #[error(transparent)]
    Check(CheckError),
    /// Its evaluation may take this many steps, more than 1,000,000.
    #[error("at most {0} steps, where 1000000 are allowed")]
    CostTooHigh(u64),
    /// Out of memory.
    #[error("out of memory")]
    Memory,
}

impl Compiled {
    /// Compiles a selector of the language, this project's profile of the CEL language definition.
    /// The errors come in this order: Parse, if the text is no expression; Check, if the
    /// expression has no type or one that a selector can't have; CostTooHigh, with the estimate,
    /// if that is over 1,000,000.
    #[tactic(auto, using(crate::proofs::Given::given, crate::proofs::Given::stood, crate::proofs::Given::refused))]
    pub fn compile(alloc: Global, text: &str) -> Result<Compiled, CompileError>
        ensures answer { Compiles text.now result }
        ensures stands { Stands (selector_of text.now) result }
    {
        match parse(alloc, text) {
            Ok(tree) => selector(tree),
            Err(ParseError::Memory) => Err(CompileError::Memory),
            Err(error) => Err(CompileError::Parse(error)),
        }
    }

    /// The checked tree.
    pub fn tree(&self) -> &Checked
        ensures tree { result.now ≡ self.now }
        ensures bounded { Estimate self.now.tree ≤ 1000000 }
    {
        &self.tree
    }
}

/// The tree as a selector.
fn selector(tree: Tree) -> Result<Compiled, CompileError>
    ensures answer { Checks (tree_view tree) result }
    ensures stands { Stands (selector_in (Some (tree_view tree))) result }
{
    match check(tree) {
        Ok(tree) => priced(tree),
        Err(CheckError::Memory) => Err(CompileError::Memory),
        Err(error) => Err(CompileError::Check(error)),
    }
}

/// The checked tree as a selector, unless it may take too many steps.
fn priced(tree: Checked) -> Result<Compiled, CompileError>
    ensures answer { result ≡ priced_of tree }
    ensures stands { Stands (cheap tree) result }
{
    let steps = estimate(&tree);
    if steps > MOST_STEPS {
        Err(CompileError::CostTooHigh(steps))
    } else {
        Ok(Compiled { tree })
    }
}
