use ckpt_journal::{Row, RowState};
use mem_disk::MemDisk;
use prepare_core::Kubelet;
use std::alloc::{AllocError, Global};

/// The size in bytes of a half of a checkpoint that is moved over.
const HALF: u32 = 4_194_304;

fn state_word(state: RowState) -> &'static str {
    match state {
        RowState::Begun => "begun",
        RowState::Prepared => "prepared",
        RowState::Leaving => "leaving",
    }
}

/// Appends a row: its state, the claim's uid and key, its pods and its devices.
fn push_row(alloc: Global, text: &mut String, row: &Row) -> Result<(), AllocError> {
    let word = state_word(row.state);
    let claim = &row.claim;
    text.push_str(format!(in alloc; "; {word} {} {} pods=", claim.uid, claim.key)?.as_str())?;
    for pod in claim.pods.as_slice() {
        text.push_str(format!(in alloc; "{pod},")?.as_str())?;
    }
    text.push_str(" devices=")?;
    for device in claim.devices.as_slice() {
        text.push_str(format!(in alloc; "{device},")?.as_str())?;
    }
    Ok(())
}

/// The number of rows, and each after a semicolon.
fn listed(alloc: Global, rows: &[Row]) -> Result<String, AllocError> {
    let mut text = format!(in alloc; "{}", rows.len())?;
    for row in rows {
        push_row(alloc, &mut text, row)?;
    }
    Ok(text)
}

/// The table of the checkpoint on a disk, or that there is none.
#[tactic(auto, unfolding(ckpt_journal::specs::Layout::is_half))]
pub fn table_in(alloc: Global, disk: MemDisk) -> Result<Vec<u8>, AllocError> {
    let Ok(kubelet) = Kubelet::open(alloc, disk, "n", HALF) else {
        return Vec::from_slice(alloc, b"no checkpoint");
    };
    let text = listed(alloc, kubelet.claims())?;
    Vec::from_slice(alloc, text.as_bytes())
}
