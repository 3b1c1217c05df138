ghost use Rattle.std.specs.Prelude.{◌≡◌, Ok, ◌||◌};
ghost use Rattle.cel_meaning.specs.Folds.{connective_of, start_of, joined};
ghost use Rattle.cel_meaning.specs.Steps.{decides};
ghost use Rattle.cel_meaning.specs.Memory.{is_memory, with_memory};

use cel_tree::BinaryOp;
use cel_value::EvalError;

/// `&&` and `||`, and the comprehensions that fold them: `all` and `exists`.
#[derive(Clone, Copy, Debug, PartialEq, Eq)]
pub enum Connective {
    And,
    Or,
}

/// The connective that an operator is, if it is one.
pub fn connective_of(op: BinaryOp) -> Option<Connective>
    ensures { result ≡ connective_of op }
{
    match op {
        BinaryOp::And => Some(Connective::And),
        BinaryOp::Or => Some(Connective::Or),
        _ => None,
    }
}

impl Connective {
    /// What there is before the first side.
    pub fn start(self) -> bool
        ensures { result ≡ start_of self }
    {
        match self {
            Connective::And => true,
            Connective::Or => false,
        }
    }

    /// Whether nothing after this side is evaluated: it decides alone, or is out of memory.
    pub fn stops(self, side: Result<bool, EvalError>) -> bool
        ensures { result ≡ (is_memory side || decides self side) }
    {
        match side {
            Ok(truth) => truth != self.start(),
            Err(error) => error == EvalError::Memory,
        }
    }

    /// Both sides together, where the left one isn't out of memory. The left error is returned rather
    /// than the right one, unless the right one is out of memory.
    pub fn join(
        self,
        left: Result<bool, EvalError>,
        right: Result<bool, EvalError>,
    ) -> Result<bool, EvalError>
        ensures { result ≡ with_memory right (joined self left right) }
    {
        match right {
            Err(EvalError::Memory) => right,
            Err(_) => match left {
                Ok(truth) if truth == self.start() => right,
                _ => left,
            },
            Ok(truth) if truth == self.start() => left,
            Ok(_) => right,
        }
    }
}
