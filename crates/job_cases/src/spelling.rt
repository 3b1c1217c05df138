//! Keys, devices, results, grants and known claims, written as a journal has them.

use crate::input::{CaseError, both, cut_at, number};
use cluster::{DeviceResult, Grant, KnownClaim};
use dra_values::{Seq, Text};
use object_fields::{DeviceId, Key};
use std::alloc::{AllocError, Global};

/// A key such as `default/c`.
pub fn key(alloc: Global, text: &str) -> Result<Key, AllocError> {
    let (namespace, name) = cut_at(text, '/');
    let namespace = Text::from_str(alloc, namespace);
    let (namespace, name) = both(namespace, Text::from_str(alloc, name))?;
    Ok(Key { namespace, name })
}

/// A device such as `gpu.example.com/n1/gpu-0`. The name of the pool may have a `/`.
fn device(alloc: Global, text: &str) -> Result<DeviceId, AllocError> {
    let (driver, rest) = cut_at(text, '/');
    let (pool, device) = rest.rsplit_once('/').unwrap_or((rest, ""));
    let place = both(Text::from_str(alloc, driver), Text::from_str(alloc, pool));
    let (place, device) = both(place, Text::from_str(alloc, device))?;
    let (driver, pool) = place;
    Ok(DeviceId {
        driver,
        pool,
        device,
    })
}

/// A text without a `!` at its end, and whether it had one.
fn cut_admin(text: &str) -> (&str, bool) {
    match text.strip_suffix('!') {
        Some(text) => (text, true),
        None => (text, false),
    }
}

/// A result such as `gpu@gpu.example.com/n1/gpu-0`, with a `!` at the end for admin access.
fn device_result(alloc: Global, text: &str) -> Result<DeviceResult, AllocError> {
    let (text, admin) = cut_admin(text);
    let (name, id) = cut_at(text, '@');
    let (name, device) = both(Text::from_str(alloc, name), device(alloc, id))?;
    Ok(DeviceResult {
        name,
        device,
        admin,
    })
}

/// Appends results with a `+` between two; none if the text is empty.
fn push_results(
    alloc: Global,
    text: &str,
    results: &mut Seq<DeviceResult>,
) -> Result<(), AllocError> {
    for part in text.split('+') {
        if !part.is_empty() {
            results.push(device_result(alloc, part)?)?;
        }
    }
    Ok(())
}

/// A grant such as `default/c:gpu@gpu.example.com/n1/gpu-0`.
pub fn grant(alloc: Global, text: &str) -> Result<Grant, AllocError> {
    let (claim, parts) = cut_at(text, ':');
    let mut results = Seq::empty(alloc);
    let pushed = push_results(alloc, parts, &mut results);
    let (claim, ()) = both(key(alloc, claim), pushed)?;
    Ok(Grant { claim, results })
}

/// The name of a node, if it has one.
fn node(alloc: Global, name: &str) -> Result<Option<Text>, AllocError> {
    if name.is_empty() {
        return Ok(None);
    }
    Ok(Some(Text::from_str(alloc, name)?))
}

/// What a plan knew of a claim: its uid, and the node of its grant if it had one, such as
/// `default/c:5` or `default/c:5:n1`.
pub fn known_claim(alloc: Global, text: &str) -> Result<KnownClaim, CaseError> {
    let (claim, rest) = cut_at(text, ':');
    let (uid, name) = cut_at(rest, ':');
    let uid = number(uid)?;
    let (claim, node) = both(key(alloc, claim), node(alloc, name))?;
    Ok(KnownClaim { claim, uid, node })
}
