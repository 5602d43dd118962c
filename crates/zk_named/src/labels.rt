// The labels of graphs.

use crate::places::name_text;
use crate::words::is_own;
use std::alloc::{AllocError, Global};
use zk_names::named::Kind;
use zk_names::names::Names;
use zk_notes::graph::Label;

/// The names of routines, by their byte addresses.
pub fn routine_labels(alloc: Global, names: &Names<'_>) -> Result<Vec<Label>, AllocError> {
    let mut labels = Vec::new(alloc);
    for routine in &names.routines {
        labels.push(Label {
            number: routine.address,
            name: name_text(alloc, routine.name)?,
        })?;
    }
    Ok(labels)
}

/// The names of objects, by their numbers; a graph has the story's own names without them.
pub fn object_labels(alloc: Global, names: &Names<'_>) -> Result<Vec<Label>, AllocError> {
    let mut labels = Vec::new(alloc);
    for named in &names.named {
        if named.kind == Kind::Object && !is_own(named.name) {
            labels.push(Label {
                number: named.value,
                name: name_text(alloc, named.name)?,
            })?;
        }
    }
    Ok(labels)
}
