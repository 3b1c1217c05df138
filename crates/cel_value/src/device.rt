ghost use Rattle.std.specs.Prelude.{◌≡◌, ◌+◌, [], ◌++◌, nat_le, SomeIff, IfOk, OnOk, option_map, option_copied};
ghost use Rattle.cel_value.specs.declared.value.Single.TheVariants as single;
ghost use Rattle.std.specs.List.{list_all, list_any};
ghost use Rattle.std.specs.Str.{bytes_eq};
ghost use Rattle.std.specs.Map.{keys_of, values_of};
ghost use Rattle.cel_value.specs.Device.{Device, IsWithinLimits, within_limits, is_short_name, is_short_text, is_short_value};
ghost use Rattle.cel_value.specs.Lookups.{at_name, full_name, has_domain, with_new, domains_from, domains_of, ids_in, ids_of};

use crate::Single;
use crate::functions::char_count;
use cel_tree::Facet;
use dra_values::{Duplicate, Seq, Table, Text};
use object_fields::QualName;
use quantity::Quantity;
use std::alloc::{AllocError, Global};
use std::marker::Model;

/// The most bytes of a driver's name.
const DRIVER_MOST: usize = 63;

/// The most bytes of a domain.
const DOMAIN_MOST: usize = 63;

/// The most bytes of an id.
const ID_MOST: usize = 32;

/// The most characters of an attribute's text.
const CHARS_MOST: usize = 64;

/// The most attributes and capacities together.
const TOGETHER_MOST: usize = 32;

/// The device that a selector is about, within the limits of the API reference of
/// `resource.k8s.io/v1`: the driver and each domain have at most 63 bytes, each id at most 32, each
/// text of an attribute at most 64 characters, and attributes and capacities together are at most 32.
#[derive(Drop)]
pub struct DeviceEnv {
    driver: Text,
    attributes: Table<QualName, Single>,
    capacity: Table<QualName, Quantity>,
}

impl Model for DeviceEnv {
    ghost use Rattle.cel_value.specs.Device.{Device, IsWithinLimits, coded_device};

    ghost Value = { Device };

    ghost coded = { coded_device };

    ghost view = { λ d. record { driver = d.driver; attributes = d.attributes; capacity = d.capacity } };

    ghost invariant = { λ d. IsWithinLimits (record { driver = d.driver; attributes = d.attributes; capacity = d.capacity }) };
}

impl DeviceEnv {
    /// The device of that driver with these attributes and capacities, by their full names. Allocates
    /// nothing.
    pub fn new(
        driver: Text,
        attributes: Table<QualName, Single>,
        capacity: Table<QualName, Quantity>,
    ) -> DeviceEnv
        requires { IsWithinLimits (record { driver = driver; attributes = attributes; capacity = capacity }) }
        ensures { result ≡ record { driver = driver; attributes = attributes; capacity = capacity } }
    {
        DeviceEnv {
            driver,
            attributes,
            capacity,
        }
    }

    /// The same, or None if a limit is broken.
    pub fn checked(
        driver: Text,
        attributes: Table<QualName, Single>,
        capacity: Table<QualName, Quantity>,
    ) -> Option<DeviceEnv>
        ensures { SomeIff result
            (IsWithinLimits (record { driver = driver; attributes = attributes; capacity = capacity }))
            (record { driver = driver; attributes = attributes; capacity = capacity }) }
    {
        if keeps_limits(&driver, &attributes, &capacity) {
            Some(DeviceEnv::new(driver, attributes, capacity))
        } else {
            None
        }
    }

    /// The driver's name, a DNS subdomain of at most 63 bytes.
    pub fn driver(&self) -> &Text
        ensures { result.now ≡ self.now.driver }
    {
        &self.driver
    }

    /// States the limits, which every device keeps.
    pub fn within_limits(&self)
        ensures { IsWithinLimits self.now }
    {
        let _driver = &self.driver;
    }

    /// A copy of the attribute or capacity with that id in that domain.
    pub(crate) fn get(
        &self,
        alloc: Global,
        facet: Facet,
        domain: &str,
        id: &str,
    ) -> Result<Option<Single>, AllocError>
        ensures { IfOk result (λ found. found ≡ at_name self.now facet (full_name domain.now id.now)) }
    {
        let name = QualName {
            domain: Text::from_str(alloc, domain)?,
            id: Text::from_str(alloc, id)?,
        };
        self.find(alloc, facet, &name)
    }

    fn find(
        &self,
        alloc: Global,
        facet: Facet,
        name: &QualName,
    ) -> Result<Option<Single>, AllocError>
        ensures { IfOk result (λ found. found ≡ at_name self.now facet name.now) }
    {
        match facet {
            Facet::Attributes => copied(alloc, self.attributes.get(name)),
            Facet::Capacities => Ok(amount(self.capacity.get(name))),
        }
    }

    /// Whether the device has an attribute or a capacity in the domain.
    pub(crate) fn has_domain(&self, facet: Facet, domain: &str) -> bool
        ensures { result ≡ has_domain self.now facet domain.now }
    {
        match facet {
            Facet::Attributes => any_in(&self.attributes, domain),
            Facet::Capacities => any_in(&self.capacity, domain),
        }
    }

    /// The domains of the attributes or capacities, each once, in order.
    pub(crate) fn domains(&self, alloc: Global, facet: Facet) -> Result<Seq<Text>, AllocError>
        ensures { IfOk result (λ names. names ≡ domains_of self.now facet) }
    {
        match facet {
            Facet::Attributes => domains(alloc, &self.attributes),
            Facet::Capacities => domains(alloc, &self.capacity),
        }
    }

    /// The ids of the attributes or capacities in the domain, in order.
    pub(crate) fn ids(
        &self,
        alloc: Global,
        facet: Facet,
        domain: &str,
    ) -> Result<Seq<Text>, AllocError>
        ensures { IfOk result (λ names. names ≡ ids_of self.now facet domain.now) }
    {
        match facet {
            Facet::Attributes => ids(alloc, &self.attributes, domain),
            Facet::Capacities => ids(alloc, &self.capacity, domain),
        }
    }
}

fn keeps_limits(
    driver: &Text,
    attributes: &Table<QualName, Single>,
    capacity: &Table<QualName, Quantity>,
) -> bool
    ensures { result
        ≡ within_limits (record { driver = driver.now; attributes = attributes.now; capacity = capacity.now }) }
{
    driver.as_str().len() <= DRIVER_MOST
        && (names_are_short(attributes)
            && (values_are_short(attributes)
                && (names_are_short(capacity) && are_few(attributes.len(), capacity.len()))))
}

fn are_few(attributes: usize, capacities: usize) -> bool
    ensures { result ≡ nat_le (attributes + capacities) 32 }
{
    attributes <= TOGETHER_MOST && capacities <= TOGETHER_MOST - attributes
}

fn names_are_short<V>(table: &Table<QualName, V>) -> bool
    ensures { result ≡ list_all is_short_name (keys_of table.now) }
{
    for (name, _) in table.as_map() {
        if !is_short_name(name) {
            return false;
        }
    }
    true
}

fn is_short_name(name: &QualName) -> bool
    ensures { result ≡ is_short_name name.now }
{
    name.domain.as_str().len() <= DOMAIN_MOST && name.id.as_str().len() <= ID_MOST
}

fn values_are_short(table: &Table<QualName, Single>) -> bool
    ensures { result ≡ list_all is_short_value (values_of table.now) }
{
    for (_, value) in table.as_map() {
        if !is_short_value(value) {
            return false;
        }
    }
    true
}

fn is_short_value(value: &Single) -> bool
    ensures { result ≡ is_short_value value.now }
{
    match value {
        Single::Text(text) => is_short_text(text.as_str()),
        _ => true,
    }
}

fn is_short_text(text: &str) -> bool
    ensures { result ≡ is_short_text text.now }
{
    char_count(text) <= CHARS_MOST
}

fn copied(alloc: Global, found: Option<&Single>) -> Result<Option<Single>, AllocError>
    ensures { IfOk result (λ copy. copy ≡ option_copied found.entry) }
{
    match found {
        Some(single) => Ok(Some(single.duplicate(alloc)?)),
        None => Ok(None),
    }
}

fn amount(found: Option<&Quantity>) -> Option<Single>
    ensures { result ≡ option_map single.Quantity (option_copied found.entry) }
{
    match found {
        Some(quantity) => Some(Single::Quantity(*quantity)),
        None => None,
    }
}

fn any_in<V>(table: &Table<QualName, V>, domain: &str) -> bool
    ensures { result ≡ list_any (λ name. bytes_eq name.domain domain.now) (keys_of table.now) }
{
    for (name, _) in table.as_map() {
        if name.domain.as_str() == domain {
            return true;
        }
    }
    false
}

fn domains<V>(alloc: Global, table: &Table<QualName, V>) -> Result<Seq<Text>, AllocError>
    ensures { IfOk result (λ names. names ≡ domains_from [] (keys_of table.now)) }
{
    let mut domains = Seq::empty(alloc);
    for (name, _) in table.as_map() {
        push_new(alloc, &mut domains, &name.domain)?;
    }
    Ok(domains)
}

/// Puts the name at the end, unless it is there.
fn push_new(alloc: Global, names: &mut Seq<Text>, name: &Text) -> Result<(), AllocError>
    ensures { OnOk result (names.new ≡ with_new names.old name.now) }
{
    if is_among(name, names.as_slice()) {
        Ok(())
    } else {
        names.push(name.copy(alloc)?)
    }
}

fn is_among(name: &Text, names: &[Text]) -> bool
    ensures { result ≡ list_any (λ s. bytes_eq s name.now) names.now }
{
    names.contains(name)
}

fn ids<V>(alloc: Global, table: &Table<QualName, V>, domain: &str) -> Result<Seq<Text>, AllocError>
    ensures { IfOk result (λ names. names ≡ ids_in domain.now (keys_of table.now)) }
{
    let mut ids = Seq::empty(alloc);
    for (name, _) in table.as_map() {
        if name.domain.as_str() == domain {
            ids.push(name.id.copy(alloc)?)?;
        }
    }
    Ok(ids)
}
