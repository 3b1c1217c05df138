ghost use Rattle.std.specs.Prelude.{◌≡◌, ◌⊎◌, ◌<◌, ◌≤◌, ◌*◌, ◌^◌, ◌++◌, [], ◌∷◌, IfErr, IfOk, IsErrOf, List, OnOk, ◌&&◌, false, length, nat_le, true};
ghost use Rattle.std.specs.Int.{to_be_bytes, w32};
ghost use Rattle.std.specs.List.{AllByRecursion, flat_map, list_all, list_any};
ghost use Rattle.ckpt_journal.specs.Format.{ClaimIsText, Fits, IsText, ReadsBack, are_long, block, blocks, body, claim_bytes, is_long, is_long_claim, is_long_text, kind_byte, names_bytes, text_bytes};
ghost use Rattle.ckpt_journal.specs.Plan.{is_full, new_file, new_halves, size_for, size_from, table_bytes};
ghost use Rattle.ckpt_journal.specs.Table.{compact, records_of, set_kind};
ghost use Rattle.ckpt_journal.specs.declared.error.JournalError.TheVariants.{Full, Memory};

use crate::JournalError;
use crate::layout::{FIRST, HALF_SIZES};
use crate::named::Named;
use crate::record::{Claim, Record, Row, RowState};
use dra_values::Text;
use std::alloc::{AllocError, Global};

/// The most bytes of a text, and the most names of a list.
const MOST_OF_A_TEXT: usize = 65_535;

/// The byte of an open gate; every other one is a closed gate's.
pub const OPEN: u8 = 0x5a;

/// The byte of a closed gate, as it is written.
const CLOSED: u8 = 0;

/// The first bytes of a new file: the text `DRAKCKPT`, 00 00 00, the version 2, and the base 16 in 32 bits.
const HEADER: [u8; 16] = *b"DRAKCKPT\0\0\0\x02\0\0\0\x10";

/// Whether the text is over 65,535 bytes.
fn long_name<T: Named>(name: &T) -> bool
    ensures { result ≡ is_long_text (T.text name.now) }
{
    name.text_len() > MOST_OF_A_TEXT
}

/// Whether a text of the list is over 65,535 bytes.
fn any_long_name<T: Named>(names: &[T]) -> bool
    ensures { result ≡ list_any (λ a. is_long_text (T.text a)) names.now }
{
    for name in names {
        if long_name(name) {
            return true;
        }
    }
    false
}

/// Whether the list or a text of it is over 65,535.
fn long_names<T: Named>(names: &[T]) -> bool
    ensures { result ≡ are_long T.text names.now }
{
    names.len() > MOST_OF_A_TEXT || any_long_name(names)
}

fn long_claim(claim: &Claim) -> bool
    ensures { result ≡ is_long_claim claim.now }
{
    long_name(&claim.uid)
        || long_name(&claim.key)
        || long_names(claim.pods.as_slice())
        || long_names(claim.devices.as_slice())
}

/// Whether a text or a count of the record is over 65,535.
fn long_record(item: &Record) -> bool
    ensures { result ≡ is_long item.now }
{
    match item {
        Record::Begun(claim) => long_claim(claim),
        Record::Prepared(claim) => long_claim(claim),
        Record::Leaving(uid) => long_name(uid),
        Record::Gone(uid) => long_name(uid),
    }
}

/// Puts the length of a name's text in 16 bits and the text at the end.
fn put_name<T: Named>(into: &mut Vec<u8>, name: &T) -> Result<(), AllocError>
    requires { is_long_text (T.text name.now) ≡ false }
    ensures put { OnOk result (into.new.items ≡ into.old.items ++ text_bytes (T.text name.now)) }
    ensures is_text { OnOk result (T.is_text name.now ≡ true) }
{
    let len = name.text_len() as u16;
    into.extend_from_slice(&len.to_be_bytes())?;
    name.put(into)
}

/// Puts the names at the end, one after another.
fn put_each<T: Named>(into: &mut Vec<u8>, names: &[T]) -> Result<(), AllocError>
    requires { list_any (λ a. is_long_text (T.text a)) names.now ≡ false }
    ensures put { OnOk result (into.new.items ≡ into.old.items ++ flat_map (λ a. text_bytes (T.text a)) names.now) }
    ensures is_text { OnOk result (list_all T.is_text names.now ≡ true) }
{
    for name in names {
        put_name(into, name)?;
    }
    Ok(())
}

/// Puts the number of names in 16 bits and the names at the end.
fn put_names<T: Named>(into: &mut Vec<u8>, names: &[T]) -> Result<(), AllocError>
    requires { are_long T.text names.now ≡ false }
    ensures put { OnOk result (into.new.items ≡ into.old.items ++ names_bytes T.text names.now) }
    ensures is_text { OnOk result (list_all T.is_text names.now ≡ true) }
{
    let count = names.len() as u16;
    into.extend_from_slice(&count.to_be_bytes())?;
    put_each(into, names)
}

/// Puts the fields of a claim at the end.
fn put_claim(into: &mut Vec<u8>, claim: &Claim) -> Result<(), AllocError>
    requires { is_long_claim claim.now ≡ false }
    ensures put { OnOk result (into.new.items ≡ into.old.items ++ claim_bytes claim.now) }
    ensures is_text { OnOk result (ClaimIsText claim.now) }
{
    put_name(into, &claim.uid)?;
    put_name(into, &claim.key)?;
    put_names(into, claim.pods.as_slice())?;
    put_names(into, claim.devices.as_slice())
}

/// Puts the kind byte and the fields of a record at the end.
fn put_body(into: &mut Vec<u8>, item: &Record) -> Result<(), AllocError>
    requires { is_long item.now ≡ false }
    ensures put { OnOk result (into.new.items ≡ into.old.items ++ body item.now) }
    ensures is_text { OnOk result (IsText item.now) }
{
    into.push(kind_of(item))?;
    match item {
        Record::Begun(claim) => put_claim(into, claim),
        Record::Prepared(claim) => put_claim(into, claim),
        Record::Leaving(uid) => put_name(into, uid),
        Record::Gone(uid) => put_name(into, uid),
    }
}

/// The kind byte of a record.
fn kind_of(item: &Record) -> u8
    ensures { result ≡ kind_byte item.now }
{
    match item {
        Record::Begun(_) => 1,
        Record::Prepared(_) => 2,
        Record::Leaving(_) => 3,
        Record::Gone(_) => 4,
    }
}

/// The body of a record.
fn body_of(alloc: Global, item: &Record) -> Result<Vec<u8>, AllocError>
    requires { is_long item.now ≡ false }
    ensures body { IfOk result (λ v. v.items ≡ body item.now) }
    ensures is_text { OnOk result (IsText item.now) }
{
    let mut bytes = Vec::new(alloc);
    put_body(&mut bytes, item)?;
    Ok(bytes)
}

/// The length of a body in 32 bits, the body, and a closed gate.
fn framed(alloc: Global, body: &[u8]) -> Result<Vec<u8>, AllocError>
    requires { length body.now < 2 ^ 32 }
    ensures { IfOk result (λ v. v.items ≡ to_be_bytes w32 (length body.now) ++ body.now ++ 0 ∷ []) }
{
    let len = body.len() as u32;
    let mut bytes = len.to_be_bytes().to_vec(alloc)?;
    bytes.extend_from_slice(body)?;
    bytes.push(CLOSED)?;
    Ok(bytes)
}

/// What is written after a closed gate to add a record to a half of this size: the record and the next gate,
/// closed.
///
/// The error is `Full` only if a text or a count of the record is over 65,535 or the record doesn't fit beside
/// any table. It is `Memory` only if memory runs out.
pub fn spelled(alloc: Global, item: &Record, half: u64) -> Result<Vec<u8>, JournalError>
    requires reads { ReadsBack item.now }
    requires most { half ≤ 134217728 }
    ensures bytes { IfOk result (λ v. v.items ≡ block item.now ++ 0 ∷ []) }
    ensures fits { OnOk result (Fits item.now) }
    ensures short { OnOk result (is_long item.now ≡ false) }
    ensures full { IsErrOf result Full → (rows : List Row) → is_full half rows item.now ≡ true }
    ensures only { IfErr result (λ e. (e ≡ Full) ⊎ (e ≡ Memory)) }
{
    if long_record(item) {
        return Err(JournalError::Full);
    }
    let body = body_of(alloc, item)?;
    if body.len() as u64 + 6 > half {
        return Err(JournalError::Full);
    }
    Ok(framed(alloc, &body)?)
}

/// Puts an open gate, the length of a body in 32 bits and the body at the end.
fn put_record(into: &mut Vec<u8>, body: &[u8]) -> Result<(), AllocError>
    requires { length body.now < 2 ^ 32 }
    ensures { OnOk result (into.new.items ≡ into.old.items ++ 90 ∷ (to_be_bytes w32 (length body.now) ++ body.now)) }
{
    into.push(OPEN)?;
    let len = body.len() as u32;
    into.extend_from_slice(&len.to_be_bytes())?;
    into.extend_from_slice(body)
}

/// The body of a record of this kind with a claim's fields.
fn claim_body(alloc: Global, kind: u8, claim: &Claim) -> Result<Vec<u8>, AllocError>
    requires { is_long_claim claim.now ≡ false }
    ensures { IfOk result (λ v. v.items ≡ kind ∷ claim_bytes claim.now) }
{
    let mut bytes = Vec::new(alloc);
    bytes.push(kind)?;
    put_claim(&mut bytes, claim)?;
    Ok(bytes)
}

/// The body of a record that a claim is Leaving.
fn leaving_body(alloc: Global, uid: &Text) -> Result<Vec<u8>, AllocError>
    requires { is_long_text uid.now ≡ false }
    ensures { IfOk result (λ v. v.items ≡ 3 ∷ text_bytes uid.now) }
{
    let mut bytes = Vec::new(alloc);
    bytes.push(3)?;
    put_name(&mut bytes, uid)?;
    Ok(bytes)
}

/// The kind byte of the record that sets a row.
fn kind_of_row(state: RowState) -> u8
    ensures { result ≡ set_kind state }
{
    match state {
        RowState::Begun => 1,
        RowState::Prepared => 2,
        RowState::Leaving => 2,
    }
}

/// Puts the record that sets a row after an open gate at the end.
fn put_set(alloc: Global, into: &mut Vec<u8>, row: &Row) -> Result<(), AllocError>
    requires long { is_long_claim row.now.claim ≡ false }
    requires size { length (set_kind row.now.state ∷ claim_bytes row.now.claim) < 2 ^ 32 }
    ensures { OnOk result (into.new.items ≡ into.old.items ++ 90 ∷ (to_be_bytes w32 (length (set_kind row.now.state ∷ claim_bytes row.now.claim)) ++ set_kind row.now.state ∷ claim_bytes row.now.claim)) }
{
    let body = claim_body(alloc, kind_of_row(row.state), &row.claim)?;
    put_record(into, &body)
}

/// Puts the record that a claim is Leaving after an open gate at the end.
fn put_leaving(alloc: Global, into: &mut Vec<u8>, uid: &Text) -> Result<(), AllocError>
    requires long { is_long_text uid.now ≡ false }
    requires size { length (3 ∷ text_bytes uid.now) < 2 ^ 32 }
    ensures { OnOk result (into.new.items ≡ into.old.items ++ 90 ∷ (to_be_bytes w32 (length (3 ∷ text_bytes uid.now)) ++ 3 ∷ text_bytes uid.now)) }
{
    let body = leaving_body(alloc, uid)?;
    put_record(into, &body)
}

/// Puts the records of a row after open gates at the end.
#[tactic(auto, unfolding(crate::specs::Format::block))]
fn put_row(alloc: Global, into: &mut Vec<u8>, row: &Row) -> Result<(), AllocError>
    requires { AllByRecursion Fits (records_of row.now.state row.now.claim) }
    ensures { OnOk result (into.new.items ≡ into.old.items ++ blocks (records_of row.now.state row.now.claim)) }
{
    put_set(alloc, into, row)?;
    match row.state {
        RowState::Begun | RowState::Prepared => Ok(()),
        RowState::Leaving => put_leaving(alloc, into, &row.claim.uid),
    }
}

/// Puts the records of the rows after open gates at the end.
fn put_rows(alloc: Global, into: &mut Vec<u8>, rows: &[Row]) -> Result<(), AllocError>
    requires { AllByRecursion Fits (compact rows.now) }
    ensures { OnOk result (into.new.items ≡ into.old.items ++ blocks (compact rows.now)) }
{
    for row in rows {
        put_row(alloc, into, row)?;
    }
    Ok(())
}

/// The compacted table: its records after open gates, and a closed gate.
pub fn compacted(alloc: Global, rows: &[Row]) -> Result<Vec<u8>, AllocError>
    requires { AllByRecursion Fits (compact rows.now) }
    ensures { IfOk result (λ v. v.items ≡ table_bytes rows.now) }
{
    let mut bytes = Vec::new(alloc);
    put_rows(alloc, &mut bytes, rows)?;
    bytes.push(CLOSED)?;
    Ok(bytes)
}

/// The least size of a half that is at least the one asked for and at least twice a table's.
pub fn half_for(asked: u64, len: u64) -> u64
    requires { 2 * len < 2 ^ 64 }
    ensures { result ≡ size_for asked len }
{
    first_size(&HALF_SIZES, asked, len)
}

/// The first of these sizes that is at least the one asked for and at least twice a table's.
fn first_size(sizes: &[u64], asked: u64, len: u64) -> u64
    requires { 2 * len < 2 ^ 64 }
    ensures { result ≡ size_from sizes.now asked len }
{
    for size in sizes {
        if is_enough(*size, asked, len) {
            return *size;
        }
    }
    MOST_OF_A_HALF
}

/// Whether a size is at least the one asked for and at least twice a table's.
fn is_enough(size: u64, asked: u64, len: u64) -> bool
    requires { 2 * len < 2 ^ 64 }
    ensures { result ≡ (nat_le asked size && nat_le (2 * len) size) }
{
    asked <= size && 2 * len <= size
}

/// The largest size of a half.
const MOST_OF_A_HALF: u64 = 134_217_728;

/// The size of a half, the selector, the first half with this table, and the first gate of the second half.
pub fn halves_of(alloc: Global, half: u32, table: &[u8]) -> Result<Vec<u8>, AllocError>
    requires { length table.now ≤ half }
    ensures { IfOk result (λ v. v.items ≡ new_halves half table.now) }
{
    let mut bytes = half.to_be_bytes().to_vec(alloc)?;
    bytes.push(FIRST)?;
    bytes.extend_from_slice(table)?;
    let rest = half as usize + 1 - table.len();
    bytes.resize(bytes.len() + rest, CLOSED)?;
    Ok(bytes)
}

/// The bytes of a file with no record and halves of this size.
#[tactic(auto, unfolding(crate::specs::Layout::magic))]
pub fn empty_file(alloc: Global, half: u32) -> Result<Vec<u8>, AllocError>
    ensures { IfOk result (λ v. v.items ≡ new_file half) }
{
    let mut bytes = HEADER.to_vec(alloc)?;
    bytes.extend_from_slice(&half.to_be_bytes())?;
    bytes.push(FIRST)?;
    bytes.resize(bytes.len() + half as usize + 1, CLOSED)?;
    Ok(bytes)
}
