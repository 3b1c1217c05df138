//! That a printed line tells the index, the job and the kind of its entry and the index of its plan or verdict,
//! and that the printed text determines the history: laws, without code.
#![tactic(auto)]

mod laws;

pub use laws::{
    digits_begin_entries, lines_tell_entries, names_are_unbroken, texts_are_lines,
    texts_determine_histories,
};
