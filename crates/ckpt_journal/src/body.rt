ghost use Rattle.std.specs.Prelude.{[], List, option_and_then, ℕ};
ghost use Rattle.object_fields.specs.declared.key.Key.{Key as KeyValue};
ghost use Rattle.ckpt_journal.specs.Names.{key_read};
ghost use Rattle.ckpt_journal.specs.Reading.{Gives, Reads, claim_alone, claim_at, claim_with, count_at, name_at, names_at, names_from, raw_at, record_of, uid_alone};

use crate::error::Unread;
use crate::named::Named;
use crate::record::{Claim, Record};
use dra_values::{Seq, Text};
use object_fields::{DeviceId, Key};
use std::alloc::Global;

/// A number of 16 bits at the start, and what follows it.
#[tactic(auto, unfolding(crate::specs::Reading::count_at))]
fn take_count(bytes: &[u8]) -> Result<(usize, &[u8]), Unread>
    ensures { Gives (λ x. (x.0, x.1.now)) result (count_at bytes.now) }
{
    if bytes.len() < 2 {
        return Err(Unread::NoRecord);
    }
    let (count, rest) = bytes.split_at(2);
    Ok((u16::from_be_bytes([count[0], count[1]]) as usize, rest))
}

/// A number of 16 bits at the start, that many bytes, and what follows them.
fn take_raw(bytes: &[u8]) -> Result<(&[u8], &[u8]), Unread>
    ensures { Gives (λ x. (x.0.now, x.1.now)) result (raw_at bytes.now) }
{
    let (len, rest) = take_count(bytes)?;
    if rest.len() < len {
        return Err(Unread::NoRecord);
    }
    Ok(rest.split_at(len))
}

/// A name at the start, and what follows it.
#[tactic(auto, unfolding(crate::specs::Reading::name_at))]
fn take_name<T: Named>(alloc: Global, bytes: &[u8]) -> Result<(T, &[u8]), Unread>
    ensures { Gives (λ x. (x.0, x.1.now)) result (name_at T.reading bytes.now) }
{
    let (name, rest) = take_raw(bytes)?;
    Ok((T::read(alloc, name)?, rest))
}

/// A count at the start, that many names, and what follows them.
#[tactic(auto, unfolding(crate::specs::Reading::names_at))]
fn take_names<T: Named + Drop>(alloc: Global, bytes: &[u8]) -> Result<(Seq<T>, &[u8]), Unread>
    ensures { Gives (λ x. (x.0, x.1.now)) result (names_at T.reading bytes.now) }
{
    let (count, rest) = take_count(bytes)?;
    take_each(alloc, count, rest)
}

/// `count` names at the start, and what follows them.
fn take_each<T: Named + Drop>(
    alloc: Global,
    count: usize,
    bytes: &[u8],
) -> Result<(Seq<T>, &[u8]), Unread>
    ensures { Gives (λ x. (x.0, x.1.now)) result (names_from T.reading count [] bytes.now) }
{
    let mut names = Seq::empty(alloc);
    let mut rest = bytes;
    for _place in 0..count {
        let (name, after) = take_name::<T>(alloc, rest)?;
        names.push(name)?;
        rest = after;
    }
    Ok((names, rest))
}

/// The pods and the devices of a claim at the start, and what follows them.
fn take_lists(alloc: Global, bytes: &[u8]) -> Result<(Seq<Key>, Seq<DeviceId>, &[u8]), Unread>
    ensures { (uid : List ℕ) (key : KeyValue) → Gives (λ x. (record { uid = uid; key = key; pods = x.0; devices = x.1 }, x.2.now)) result (option_and_then (claim_with uid key) (names_at key_read bytes.now)) }
{
    let (pods, rest) = take_names::<Key>(alloc, bytes)?;
    let (devices, rest) = take_names::<DeviceId>(alloc, rest)?;
    Ok((pods, devices, rest))
}

/// The fields of a claim at the start, and what follows them.
#[tactic(auto, unfolding(crate::specs::Reading::claim_at))]
fn take_claim(alloc: Global, bytes: &[u8]) -> Result<(Claim, &[u8]), Unread>
    ensures { Gives (λ x. (x.0, x.1.now)) result (claim_at bytes.now) }
{
    let (uid, rest) = take_name::<Text>(alloc, bytes)?;
    let (key, rest) = take_name::<Key>(alloc, rest)?;
    let (pods, devices, rest) = take_lists(alloc, rest)?;
    Ok((
        Claim {
            uid,
            key,
            pods,
            devices,
        },
        rest,
    ))
}

/// The fields of a claim, with nothing after them.
fn whole_claim(alloc: Global, bytes: &[u8]) -> Result<Claim, Unread>
    ensures { Reads result (claim_alone bytes.now) }
{
    let (claim, rest) = take_claim(alloc, bytes)?;
    if rest.is_empty() {
        Ok(claim)
    } else {
        Err(Unread::NoRecord)
    }
}

/// A uid, with nothing after it.
fn whole_uid(alloc: Global, bytes: &[u8]) -> Result<Text, Unread>
    ensures { Reads result (uid_alone bytes.now) }
{
    let (uid, rest) = take_name::<Text>(alloc, bytes)?;
    if rest.is_empty() {
        Ok(uid)
    } else {
        Err(Unread::NoRecord)
    }
}

/// The record of a body.
#[tactic(auto, unfolding(crate::specs::Reading::record_of))]
pub fn read_body(alloc: Global, body: &[u8]) -> Result<Record, Unread>
    ensures { Reads result (record_of body.now) }
{
    let Some((kind, fields)) = body.split_first() else {
        return Err(Unread::NoRecord);
    };
    match *kind {
        1 => Ok(Record::Begun(whole_claim(alloc, fields)?)),
        2 => Ok(Record::Prepared(whole_claim(alloc, fields)?)),
        3 => Ok(Record::Leaving(whole_uid(alloc, fields)?)),
        4 => Ok(Record::Gone(whole_uid(alloc, fields)?)),
        _ => Err(Unread::NoRecord),
    }
}
