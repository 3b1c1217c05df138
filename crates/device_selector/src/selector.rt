ghost use Rattle.std.specs.Prelude.{◌≡◌, IfErr, Err, Ok};
ghost use Rattle.device_selector.specs.Compiles.{Compiles};
ghost use Rattle.device_selector.specs.Selectors.{Selects, selector_of};

use crate::{CompileError, Compiled};
use dra_values::Text;
use std::alloc::Global;
use std::marker::Model;

/// A selector with its text (CELDeviceSelector of the Kubernetes API reference), which contracts see
/// as that text.
#[derive(Drop)]
pub struct DeviceSelector {
    text: Text,
    compiled: Compiled,
}

impl Model for DeviceSelector {
    ghost use Rattle.std.specs.Prelude.{◌≡◌, ℕ, List, Ok};
    ghost use Rattle.device_selector.specs.Selectors.{selector_of};

    ghost Value = { List ℕ };

    ghost view = { λ s. s.text };

    ghost invariant = { λ s. selector_of s.text ≡ Ok s.compiled };
}

impl DeviceSelector {
    /// Compiles a selector. The errors come as those of `Compiled::compile`.
    pub fn compile(alloc: Global, text: &Text) -> Result<DeviceSelector, CompileError>
        ensures selects { Selects text.now result }
        ensures error { IfErr result (λ e. Compiles text.now (Err e)) }
    {
        let compiled = Compiled::compile(alloc, text.as_str())?;
        match text.copy(alloc) {
            Ok(text) => Ok(DeviceSelector { text, compiled }),
            Err(_) => Err(CompileError::Memory),
        }
    }

    /// The text that was compiled.
    pub fn text(&self) -> &Text
        ensures { result.now ≡ self.now }
    {
        &self.text
    }

    /// The selector that the text compiles to.
    pub fn compiled(&self) -> &Compiled
        ensures { selector_of self.now ≡ Ok result.now }
    {
        &self.compiled
    }
}
