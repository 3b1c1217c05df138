ghost use Rattle.std.specs.Prelude.{◌≡◌, ◌∷◌, [], ◌++◌, IfOk, Ok, Some};
ghost use Rattle.object_fields.specs.Trails.{steps_of};
ghost use Rattle.object_fields.specs.Words.{path_text, step_text, steps_text};

use dra_values::{Duplicate, Seq, Text};
use std::alloc::{AllocError, Global};
use std::fmt;
use std::marker::Model;

/// One step from a JSON value to a value inside it.
#[derive(Drop)]
pub enum Step {
    /// A member of an object with named fields.
    Member(Text),
    /// An index in a list, from 0.
    Place(usize),
    /// A key of a map.
    Key(Text),
}

impl Duplicate for Step {
    fn duplicate(&self, alloc: Global) -> Result<Step, AllocError> {
        match self {
            Step::Member(name) => Ok(Step::Member(name.copy(alloc)?)),
            Step::Place(place) => Ok(Step::Place(*place)),
            Step::Key(key) => Ok(Step::Key(key.copy(alloc)?)),
        }
    }
}

/// A step behind others: `.member`, `[index]` or `[key]`.
impl fmt::Display for Step {
    ghost output = { λ s. Some (step_text s) };

    fn fmt<W: fmt::Write>(&self, f: &mut fmt::Formatter<W>) -> fmt::Result {
        match self {
            Step::Member(name) => write!(f, ".{name}"),
            Step::Place(place) => write!(f, "[{place}]"),
            Step::Key(key) => write!(f, "[{key}]"),
        }
    }
}

/// The steps from the top of a document to a value in it, in the order of reading: each borrows the path above it and its
/// own name. Contracts see a list.
#[derive(Drop)]
pub struct Path<'a> {
    trail: Trail<'a>,
}

/// The last step of a path, and the path above it.
#[derive(Drop)]
enum Trail<'a> {
    Top,
    Member(&'a Trail<'a>, &'a str),
    Place(&'a Trail<'a>, usize),
    Key(&'a Trail<'a>, &'a str),
}

impl<'a> Model for Path<'a> {
    ghost use Rattle.std.specs.Prelude.{List};
    ghost use Rattle.object_fields.specs.declared.path.Step.{Step};
    ghost use Rattle.object_fields.specs.Trails.{steps_of};

    ghost Value = { List Step };

    ghost view = { λ p. steps_of p.trail };
}

impl<'a> Path<'a> {
    /// The top of the document.
    pub fn top() -> Path<'a>
        ensures { result ≡ [] }
    {
        Path { trail: Trail::Top }
    }

    /// This path with a member appended.
    pub fn member<'b>(&'b self, name: &'b str) -> Path<'b>
        ensures { result ≡ self.now ++ Step.Member name.now ∷ [] }
    {
        Path {
            trail: Trail::Member(&self.trail, name),
        }
    }

    /// This path with an index of a list appended, counted from 0.
    pub fn place<'b>(&'b self, place: usize) -> Path<'b>
        ensures { result ≡ self.now ++ Step.Place place ∷ [] }
    {
        Path {
            trail: Trail::Place(&self.trail, place),
        }
    }

    /// This path with a key of a map appended.
    pub fn key<'b>(&'b self, key: &'b str) -> Path<'b>
        ensures { result ≡ self.now ++ Step.Key key.now ∷ [] }
    {
        Path {
            trail: Trail::Key(&self.trail, key),
        }
    }

    /// Its steps. `AllocError` is returned only if memory runs out.
    pub fn copy(&self, alloc: Global) -> Result<FieldPath, AllocError>
        ensures { IfOk result (λ p. p ≡ self.now) }
    {
        let mut steps = Seq::empty(alloc);
        push_steps(&mut steps, alloc, &self.trail)?;
        Ok(FieldPath { steps })
    }

    /// Its steps, with a member appended. `AllocError` is returned only if memory runs out.
    pub fn copy_to(&self, alloc: Global, name: &str) -> Result<FieldPath, AllocError>
        ensures { IfOk result (λ p. p ≡ self.now ++ Step.Member name.now ∷ []) }
    {
        let mut path = self.copy(alloc)?;
        path.steps.push(Step::Member(Text::from_str(alloc, name)?))?;
        Ok(path)
    }
}

/// Puts the steps of a trail at the end.
fn push_steps(steps: &mut Seq<Step>, alloc: Global, trail: &Trail<'_>) -> Result<(), AllocError>
    ensures { IfOk result (λ _. steps.new ≡ steps.old ++ steps_of trail.now) }
{
    match trail {
        Trail::Top => Ok(()),
        Trail::Member(above, name) => {
            push_steps(steps, alloc, above)?;
            steps.push(Step::Member(Text::from_str(alloc, name)?))
        }
        Trail::Place(above, place) => {
            push_steps(steps, alloc, above)?;
            steps.push(Step::Place(*place))
        }
        Trail::Key(above, key) => {
            push_steps(steps, alloc, above)?;
            steps.push(Step::Key(Text::from_str(alloc, key)?))
        }
    }
}

/// The steps from the top of a document to a value in it, which contracts see as a list.
#[derive(Drop)]
pub struct FieldPath {
    steps: Seq<Step>,
}

impl Model for FieldPath {
    ghost use Rattle.std.specs.Prelude.{List};
    ghost use Rattle.object_fields.specs.declared.path.Step.{Step};

    ghost Value = { List Step };

    ghost view = { λ p. p.steps };
}

impl FieldPath {
    /// The top of the document. Allocates nothing.
    pub fn top(alloc: Global) -> FieldPath
        ensures { result ≡ [] }
    {
        FieldPath {
            steps: Seq::empty(alloc),
        }
    }

    /// The steps in order.
    pub fn steps(&self) -> &[Step]
        ensures { result.now ≡ self.now }
    {
        self.steps.as_slice()
    }

    /// An equal path.
    pub fn copy(&self, alloc: Global) -> Result<FieldPath, AllocError>
        ensures { IfOk result (λ p. p ≡ self.now) }
    {
        Ok(FieldPath {
            steps: self.steps.copy(alloc)?,
        })
    }
}

impl Duplicate for FieldPath {
    fn duplicate(&self, alloc: Global) -> Result<FieldPath, AllocError> {
        self.copy(alloc)
    }
}

/// As `a.b[0][key]`.
impl fmt::Display for FieldPath {
    ghost output = { λ p. Some (path_text p) };

    fn fmt<W: fmt::Write>(&self, f: &mut fmt::Formatter<W>) -> fmt::Result {
        match self.steps.as_slice().split_first() {
            None => Ok(()),
            Some((Step::Member(name), rest)) => write!(f, "{name}{}", Rest(rest)),
            Some((step, rest)) => write!(f, "{step}{}", Rest(rest)),
        }
    }
}

impl fmt::Debug for FieldPath {
    fn fmt<W: fmt::Write>(&self, f: &mut fmt::Formatter<W>) -> fmt::Result {
        write!(f, "{self}")
    }
}

/// Steps that follow others.
#[derive(Clone, Copy)]
struct Rest<'a>(&'a [Step]);

impl fmt::Display for Rest<'_> {
    ghost output = { λ r. Some (steps_text r.0.now) };

    fn fmt<W: fmt::Write>(&self, f: &mut fmt::Formatter<W>) -> fmt::Result {
        for step in self.0 {
            write!(f, "{step}")?;
        }
        Ok(())
    }
}
