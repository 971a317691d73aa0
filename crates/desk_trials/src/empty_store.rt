//! Stores with which a part begins.

use crate::disk::no_files;
use crate::opening::{Fused, open};
use anyhow::bail;
use desk_store::{ListStore, PlanStore};
use desk_tables::SqliteStore;
use sqlite::FileStore;
use std::alloc::Global;

/// A store that can be made with no operators and no plans.
pub trait EmptyStore: PlanStore + Drop {
    /// A store of no operators and no plans.
    fn empty(alloc: Global) -> anyhow::Result<Self>;
}

impl EmptyStore for ListStore {
    fn empty(alloc: Global) -> anyhow::Result<ListStore> {
        Ok(ListStore::new(alloc))
    }
}

impl<D: Fused> EmptyStore for SqliteStore<FileStore<D>> {
    fn empty(alloc: Global) -> anyhow::Result<SqliteStore<FileStore<D>>> {
        match open(alloc, no_files(alloc)) {
            Ok(store) => Ok(store),
            Err(_) => bail!("no tables in memory"),
        }
    }
}
