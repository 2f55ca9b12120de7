//! Records of rows, as a book of rows keeps them.
ghost use Rattle.ch_overlay.specs.Records.{IsSoundRecord};

use crate::row::Row;
use boxcar::{Keeps, Pushed};
use std::alloc::Global;
use std::sync::Arc;

/// A row that was laid for a node. The version of the row is the record's place in the list.
#[derive(Drop)]
pub struct Record {
    /// The node, numbered from 0.
    pub node: u32,
    /// The row.
    pub row: Arc<Row>,
}

/// The rule of a list of records: each row can be relied on under the bound that the list is marked with.
pub struct SoundRows;

impl Keeps<Record> for SoundRows {
    ghost holds = { IsSoundRecord };
}

/// What shows that a list has a record at a place, for as long as the list lasts. A copy is free.
pub type Token = Pushed<Record, Global, SoundRows>;
