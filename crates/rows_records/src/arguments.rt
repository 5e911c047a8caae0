//! Arguments of requests: strings, ids, merges and times.
use jj_backend::backend::{MillisSinceEpoch, Timestamp};
use jj_ids::object_id::Id;
use jj_merges::merge::Merge;
use rows::request::Fields;
use rows::row_error::{RowError, needs};
use smallvec::SmallVec;
use std::alloc::Global;
use std::default::MadeWith;

/// Parses an id in hexadecimal.
pub fn parse_id<K>(alloc: Global, hex: &str) -> Result<Id<K>, RowError> {
    match Id::try_from_hex(alloc, hex)? {
        Some(id) => Ok(id),
        None => Err(RowError::Unreadable("id")),
    }
}

/// Parses the id at `index`.
pub fn id<K>(alloc: Global, fields: &Fields, index: usize) -> Result<Id<K>, RowError> {
    parse_id(alloc, fields.string(index))
}

/// Parses all fields as ids.
pub fn ids<K>(alloc: Global, fields: &Fields) -> Result<Vec<Id<K>>, RowError> {
    let mut ids = Vec::new(alloc);
    for index in 0..fields.len() {
        ids.push(id(alloc, fields, index)?)?;
    }
    Ok(ids)
}

/// Creates the merge of an odd number of terms.
pub fn merge_of<T: MadeWith<Global> + Drop>(terms: Vec<T>) -> Result<Merge<T>, RowError> {
    needs(terms.len() % 2 == 1, "an odd number of terms")?;
    Ok(Merge::from_vec(SmallVec::from_vec(terms)))
}

/// Parses a time from the fields from index `index` on: milliseconds, and minutes of the offset.
pub fn time(fields: &Fields, index: usize) -> Timestamp {
    Timestamp {
        timestamp: MillisSinceEpoch(fields.signed(index)),
        tz_offset: fields.signed32(index.saturating_add(1)),
    }
}
