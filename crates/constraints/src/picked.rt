use dra_values::Text;
use pool_view::DeviceRef;
use std::marker::Model;

/// A result of an allocation, borrowed. Contracts see the record of its values.
#[derive(Drop)]
pub struct Picked<'a> {
    /// The name of the result as it is printed: the request, or `request/subrequest`.
    pub request: &'a Text,
    /// The allocated device.
    pub device: DeviceRef<'a>,
    /// Whether the request has admin access. Constraints ignore it.
    pub admin: bool,
}

impl<'a> Model for Picked<'a> {
    ghost use Rattle.request_rules.specs.Agreeing.{Pick};

    ghost Value = { Pick };

    ghost view = { λ p. record { request = p.request.now; device = p.device; admin = p.admin } };
}

impl<'a> Picked<'a> {
    ghost use Rattle.std.specs.Prelude.{◌≡◌};
    ghost use Rattle.request_rules.specs.Agreeing as spec;

    /// A result of that name.
    pub fn of(request: &'a Text, device: DeviceRef<'a>, admin: bool) -> Picked<'a>
        ensures { result ≡ record { request = request.now; device = device.entry; admin = admin } }
    {
        Picked {
            request,
            device,
            admin,
        }
    }

    /// The name of the result.
    pub fn request(&self) -> &'a Text
        ensures { result.now ≡ self.now.request }
    {
        self.request
    }

    /// Its device.
    pub fn device(&self) -> &DeviceRef<'a>
        ensures { result.now ≡ self.now.device }
    {
        &self.device
    }
}
