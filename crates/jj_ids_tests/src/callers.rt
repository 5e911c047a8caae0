//! Callers with contracts of their own, proved from the contracts of jj_ids.
pub mod calls;
pub mod combined;
pub mod lookup;
pub mod own_kind;
pub mod records;
