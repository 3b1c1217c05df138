ghost use Rattle.std.specs.Prelude.{◌≡◌, Ok};
ghost use Rattle.object_fields.specs.Fields.{Reads};
ghost use Rattle.ready_objects.specs.Ready.{class_path, class_ready, texts_at};

use crate::compile::compile_each;
use api_cluster::DeviceClass;
use device_selector::DeviceSelector;
use dra_values::Seq;
use object_fields::{FieldError, Path};
use std::alloc::Global;
use std::marker::Model;

/// A class whose selectors are compiled, which contracts see as the class.
#[derive(Drop)]
pub struct ReadyClass {
    class: DeviceClass,
    selectors: Seq<DeviceSelector>,
}

impl Model for ReadyClass {
    ghost use Rattle.api_cluster.specs.declared.types.DeviceClass.{DeviceClass};
    ghost use Rattle.ready_objects.specs.Ready.{IsReadyClass};

    ghost Value = { DeviceClass };

    ghost view = { λ r. r.class };

    ghost invariant = { λ r. IsReadyClass r.class r.selectors };
}

impl ReadyClass {
    /// Compiles the selectors of a class. The error is that of the first that doesn't compile, of kind
    /// `Selector` with its stage, at its `cel.expression`; Memory may be returned at any point.
    #[tactic(auto, using(crate::proofs::Gathered::class_made))]
    pub fn of(alloc: Global, class: DeviceClass) -> Result<ReadyClass, FieldError>
        ensures { Reads result (class_ready class) }
    {
        let selectors = class_selectors(alloc, &class)?;
        Ok(ReadyClass { class, selectors })
    }

    /// The class.
    pub fn class(&self) -> &DeviceClass
        ensures value { result.now ≡ self.now }
        ensures ready { class_ready self.now ≡ Ok self.now }
    {
        &self.class
    }

    /// The compiled selectors, in order.
    pub fn selectors(&self) -> &[DeviceSelector]
        ensures { result.now ≡ self.now.selectors }
    {
        self.selectors.as_slice()
    }
}

fn class_selectors(alloc: Global, class: &DeviceClass) -> Result<Seq<DeviceSelector>, FieldError>
    ensures { Reads result (texts_at class_path class.now.selectors) }
{
    let top = Path::top();
    let spec = top.member("spec");
    let path = spec.member("selectors");
    compile_each(alloc, class.selectors.as_slice(), &path)
}
