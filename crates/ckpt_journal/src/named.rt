ghost use Rattle.std.specs.Prelude.{◌≡◌, ◌++◌, ◌-◌, [], ◌∷◌, ◌<◌, ◌^◌, Bool, IfSome, List, None, OnOk, Option, length, min, true, ℕ};
ghost use Rattle.object_fields.specs.Keys.{device_text, key_text};
ghost use Rattle.ckpt_journal.specs.Names.{device_is_text, device_made, device_read, first_slash_from, key_is_text, key_made, key_read, last_slash_from, text_read};
ghost use Rattle.ckpt_journal.specs.Format.{same_text};
ghost use Rattle.ckpt_journal.specs.Reading.{Reads};
ghost use Rattle.std.specs.Str.{is_utf8};

use crate::error::Unread;
use dra_values::Text;
use object_fields::{DeviceId, Key};
use std::alloc::{AllocError, Global};
use std::str;

/// What is recorded as one text, in its printed form.
pub trait Named: Sized {
    /// The printed form.
    ghost text: { Self → List ℕ };

    /// What bytes are read as.
    ghost reading: { List ℕ → Option Self };

    /// Whether its parts are texts.
    ghost is_text: { Self → Bool };

    /// What these bytes, which are the whole of the text, are read as.
    fn read(alloc: Global, bytes: &[u8]) -> Result<Self, Unread>
        ensures { Reads result (reading bytes.now) };

    /// The length of the printed form in bytes, or 2^64-1 if it is longer. Allocates nothing.
    fn text_len(&self) -> usize
        ensures { result ≡ min (length (text self.now)) (2 ^ 64 - 1) };

    /// Puts the printed form at the end.
    fn put(&self, into: &mut Vec<u8>) -> Result<(), AllocError>
        ensures put { OnOk result (into.new.items ≡ into.old.items ++ text self.now) }
        ensures is_text { OnOk result (is_text self.now ≡ true) };
}

/// These bytes as a text, if they are UTF-8.
#[tactic(auto, using(crate::proofs::Names::text_is, crate::proofs::Names::no_text))]
fn read_text(alloc: Global, bytes: &[u8]) -> Result<Text, Unread>
    ensures { Reads result (text_read bytes.now) }
{
    match str::from_utf8(bytes) {
        Ok(text) => Ok(Text::from_str(alloc, text)?),
        Err(_) => Err(Unread::NoRecord),
    }
}

/// The offset of the first slash.
fn first_slash(bytes: &[u8]) -> Option<usize>
    ensures first { result ≡ first_slash_from 0 bytes.now }
    ensures within { IfSome result (λ at. at < length bytes.now) }
{
    for at in 0..bytes.len() {
        if bytes[at] == b'/' {
            return Some(at);
        }
    }
    None
}

/// The offset of the last slash.
fn last_slash(bytes: &[u8]) -> Option<usize>
    ensures last { result ≡ last_slash_from 0 None bytes.now }
    ensures within { IfSome result (λ at. at < length bytes.now) }
{
    let mut found = None;
    for at in 0..bytes.len() {
        if bytes[at] == b'/' {
            found = Some(at);
        }
    }
    found
}

fn key_of_parts(alloc: Global, namespace: &[u8], name: &[u8]) -> Result<Key, Unread>
    ensures { Reads result (key_made namespace.now name.now) }
{
    let namespace = read_text(alloc, namespace)?;
    Ok(Key {
        namespace,
        name: read_text(alloc, name)?,
    })
}

fn device_of_parts(
    alloc: Global,
    driver: &[u8],
    pool: &[u8],
    device: &[u8],
) -> Result<DeviceId, Unread>
    ensures { Reads result (device_made driver.now pool.now device.now) }
{
    let driver = read_text(alloc, driver)?;
    let pool = read_text(alloc, pool)?;
    Ok(DeviceId {
        driver,
        pool,
        device: read_text(alloc, device)?,
    })
}

/// Puts a text at the end.
#[tactic(auto, using(crate::proofs::Names::utf8_of))]
fn put_text(into: &mut Vec<u8>, text: &Text) -> Result<(), AllocError>
    ensures put { OnOk result (into.new.items ≡ into.old.items ++ text.now) }
    ensures is_text { is_utf8 text.now ≡ true }
{
    into.extend_from_slice(text.as_str().as_bytes())
}

/// Puts a text and a slash at the end.
fn put_before_slash(into: &mut Vec<u8>, text: &Text) -> Result<(), AllocError>
    ensures put { OnOk result (into.new.items ≡ into.old.items ++ text.now ++ 47 ∷ []) }
    ensures is_text { is_utf8 text.now ≡ true }
{
    put_text(into, text)?;
    into.push(b'/')?;
    Ok(())
}

impl Named for Text {
    ghost use Rattle.std.specs.Str.{is_utf8};
    ghost use Rattle.ckpt_journal.specs.Names.{text_read};
    ghost use Rattle.ckpt_journal.specs.Format.{same_text};

    ghost text = { same_text };

    ghost reading = { text_read };

    ghost is_text = { is_utf8 };

    fn read(alloc: Global, bytes: &[u8]) -> Result<Text, Unread> {
        read_text(alloc, bytes)
    }

    fn text_len(&self) -> usize {
        self.as_str().len()
    }

    fn put(&self, into: &mut Vec<u8>) -> Result<(), AllocError> {
        put_text(into, self)
    }
}

impl Named for Key {
    ghost use Rattle.object_fields.specs.Keys.{key_text};
    ghost use Rattle.ckpt_journal.specs.Names.{key_is_text, key_read};

    ghost text = { key_text };

    ghost reading = { key_read };

    ghost is_text = { key_is_text };

    fn read(alloc: Global, bytes: &[u8]) -> Result<Key, Unread> {
        match first_slash(bytes) {
            None => key_of_parts(alloc, &[], bytes),
            Some(0) => Err(Unread::NoRecord),
            Some(at) => key_of_parts(alloc, &bytes[..at], &bytes[at + 1..]),
        }
    }

    fn text_len(&self) -> usize {
        let namespace = self.namespace.as_str();
        let name = self.name.as_str();
        if namespace.is_empty() {
            name.len()
        } else {
            namespace.len() + 1 + name.len()
        }
    }

    #[tactic(auto, using(crate::proofs::Names::key_utf8))]
    fn put(&self, into: &mut Vec<u8>) -> Result<(), AllocError> {
        if self.namespace.as_str().is_empty() {
            put_text(into, &self.name)
        } else {
            put_before_slash(into, &self.namespace)?;
            put_text(into, &self.name)
        }
    }
}

impl Named for DeviceId {
    ghost use Rattle.object_fields.specs.Keys.{device_text};
    ghost use Rattle.ckpt_journal.specs.Names.{device_is_text, device_read};

    ghost text = { device_text };

    ghost reading = { device_read };

    ghost is_text = { device_is_text };

    fn read(alloc: Global, bytes: &[u8]) -> Result<DeviceId, Unread> {
        match (first_slash(bytes), last_slash(bytes)) {
            (Some(first), Some(last)) => {
                if first < last {
                    device_of_parts(
                        alloc,
                        &bytes[..first],
                        &bytes[first + 1..last],
                        &bytes[last + 1..],
                    )
                } else {
                    Err(Unread::NoRecord)
                }
            }
            _ => Err(Unread::NoRecord),
        }
    }

    fn text_len(&self) -> usize {
        let driver = self.driver.as_str();
        let pool = self.pool.as_str();
        let device = self.device.as_str();
        let ends = driver.len().saturating_add(device.len());
        ends.saturating_add(pool.len()).saturating_add(2)
    }

    fn put(&self, into: &mut Vec<u8>) -> Result<(), AllocError> {
        put_before_slash(into, &self.driver)?;
        put_before_slash(into, &self.pool)?;
        put_text(into, &self.device)
    }
}
