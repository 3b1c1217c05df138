//! Where devices and selections are looked for. Any place is right: what is there is compared before it is used.

ghost use Rattle.std.specs.Prelude.{◌<◌, length};

use crate::fingerprint::fingerprint_of;
use crate::same::{are_texts, texts_of};
use crate::selection::Selection;
use api_slice::{Device, ResourceSlice, SliceNodes};
use device_selector::DeviceSelector;
use dra_values::{Seq, Table, Text};
use pool_view::DeviceRef;
use std::alloc::{AllocError, Global};

/// The most devices of which something is remembered, and for which a position is kept.
const MOST_DEVICES: usize = 65_536;

/// The places for the devices of a slice, one after another.
#[derive(Drop)]
struct Block {
    first: usize,
    /// How many they are.
    len: usize,
}

/// Where devices are looked for. Devices that look alike have one position.
#[derive(Drop)]
pub struct Places {
    /// The places of the slices' devices, by the slices' names.
    blocks: Table<Text, Block>,
    /// The position of the device at each place; `usize::MAX` if it has none yet.
    positions: Vec<usize>,
    /// The positions of devices by their fingerprints.
    fingerprints: Table<u64, usize>,
}

/// The place of a device.
#[derive(Clone, Copy, Drop)]
pub struct Place {
    /// The first place of its slice.
    first: usize,
    /// Its index in the slice.
    index: usize,
}

impl Place {
    /// Of no device yet.
    pub fn none() -> Place {
        Place { first: 0, index: 0 }
    }

    fn number(&self) -> usize {
        self.first.saturating_add(self.index)
    }
}

impl Places {
    /// No device has a place. Allocates nothing.
    pub fn new(alloc: Global) -> Places {
        Places {
            blocks: Table::new(alloc),
            positions: Vec::new(alloc),
            fingerprints: Table::new(alloc),
        }
    }

    /// Whether there are more places or positions than there may be.
    pub fn are_over(&self) -> bool {
        self.positions.len() > MOST_DEVICES || self.fingerprints.len() > MOST_DEVICES
    }

    /// The first place of a slice, which gets places if it has none, or too few.
    fn first_of(&mut self, alloc: Global, slice: &ResourceSlice) -> Result<usize, AllocError> {
        let len = slice.devices.as_slice().len();
        match place_in(&self.blocks, &slice.name, len) {
            Some(first) => Ok(first),
            None => self.add(alloc, &slice.name, len),
        }
    }

    fn add(&mut self, alloc: Global, name: &Text, len: usize) -> Result<usize, AllocError> {
        let first = self.positions.len();
        for _at in 0..len {
            self.positions.push(usize::MAX)?;
        }
        self.blocks.insert(name.copy(alloc)?, Block { first, len })?;
        Ok(first)
    }

    /// The place of the device at an index of a list; `before` is that of the one before it.
    pub fn place(
        &mut self,
        alloc: Global,
        devices: &[DeviceRef],
        at: usize,
        before: Place,
    ) -> Result<Place, AllocError>
        requires { at < length devices.now }
    {
        let device = &devices[at];
        let slice = device.slice();
        if is_like_before(devices, at) {
            let next = before.index.saturating_add(1);
            Ok(Place {
                first: before.first,
                index: index_in(slice, next, device.device()),
            })
        } else {
            Ok(Place {
                first: self.first_of(alloc, slice)?,
                index: index_in(slice, 0, device.device()),
            })
        }
    }

    /// The position that is kept for a place.
    pub fn position(&self, place: Place) -> usize {
        match self.positions.get(place.number()) {
            None => usize::MAX,
            Some(position) => *position,
        }
    }

    /// The position of a device, which is kept for its place.
    pub fn find(
        &mut self,
        alloc: Global,
        place: Place,
        device: &DeviceRef,
    ) -> Result<usize, AllocError> {
        let fingerprint = fingerprint_of(&device.device().properties);
        let position = self.position_of(fingerprint)? % MOST_DEVICES;
        if let Some(kept) = self.positions.get_mut(place.number()) {
            *kept = position;
        }
        Ok(position)
    }

    fn position_of(&mut self, fingerprint: u64) -> Result<usize, AllocError> {
        match self.fingerprints.get(&fingerprint) {
            Some(position) => Ok(*position),
            None => self.add_fingerprint(fingerprint),
        }
    }

    fn add_fingerprint(&mut self, fingerprint: u64) -> Result<usize, AllocError> {
        let position = self.fingerprints.len();
        self.fingerprints.insert(fingerprint, position)?;
        Ok(position)
    }
}

fn place_in(blocks: &Table<Text, Block>, slice: &Text, len: usize) -> Option<usize> {
    match blocks.get(slice) {
        None => None,
        Some(block) => {
            if block.len < len {
                None
            } else {
                Some(block.first)
            }
        }
    }
}

/// Whether the device at an index is of the same slice as the one before it.
fn is_like_before(devices: &[DeviceRef], at: usize) -> bool {
    if at == 0 || at >= devices.len() {
        return false;
    }
    devices[at - 1].slice().name == devices[at].slice().name
}

/// The index of a device in its slice, if it isn't before this one. All devices of a slice without a selection for
/// each device follow each other.
fn index_in(slice: &ResourceSlice, start: usize, device: &Device) -> usize {
    match &slice.nodes {
        SliceNodes::Nodes(_) => start,
        SliceNodes::PerDevice => index_from(slice.devices.as_slice(), start, &device.name),
    }
}

/// The first index from this one on at which there is a device of this name, or else this one.
fn index_from(devices: &[Device], start: usize, name: &Text) -> usize {
    for index in start..devices.len() {
        if devices[index].name == *name {
            return index;
        }
    }
    start
}

/// The selectors of a class and of a request.
#[derive(Drop)]
pub struct Texts {
    class: Seq<Text>,
    own: Seq<Text>,
}

/// A number for each selection, which those of the same selectors share.
pub fn numbers_of(
    alloc: Global,
    texts: &mut Vec<Texts>,
    selections: &[Selection],
) -> Result<Vec<usize>, AllocError> {
    let mut numbers = Vec::with_capacity(alloc, selections.len())?;
    for selection in selections {
        numbers.push(number_of(alloc, texts, selection)?)?;
    }
    Ok(numbers)
}

fn number_of(
    alloc: Global,
    texts: &mut Vec<Texts>,
    selection: &Selection,
) -> Result<usize, AllocError> {
    match selection.class {
        None => Ok(0),
        Some(class) => number_for(alloc, texts, class, selection.own),
    }
}

fn number_for(
    alloc: Global,
    texts: &mut Vec<Texts>,
    class: &[DeviceSelector],
    own: &[DeviceSelector],
) -> Result<usize, AllocError> {
    match number_in(texts, class, own) {
        Some(number) => Ok(number),
        None => add_texts(alloc, texts, class, own),
    }
}

fn number_in(texts: &[Texts], class: &[DeviceSelector], own: &[DeviceSelector]) -> Option<usize> {
    for number in 0..texts.len() {
        let texts = &texts[number];
        if are_texts(texts.own.as_slice(), own) && are_texts(texts.class.as_slice(), class) {
            return Some(number);
        }
    }
    None
}

fn add_texts(
    alloc: Global,
    texts: &mut Vec<Texts>,
    class: &[DeviceSelector],
    own: &[DeviceSelector],
) -> Result<usize, AllocError> {
    let number = texts.len();
    let class = texts_of(alloc, class)?;
    let own = texts_of(alloc, own)?;
    texts.push(Texts { class, own })?;
    Ok(number)
}
