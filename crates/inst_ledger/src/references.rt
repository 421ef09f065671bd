//! The fundings of a history by their reference.
ghost use Rattle.std.specs.Prelude.{◌≡◌, ℕ, List, None, OnOk, OnErr};
ghost use Rattle.inst_ledger.specs.References.{funding_at};
ghost use Rattle.inst_ledger.specs.inner.References.{PutsFunding};

use indexmap::IndexMap;
use inst_base::{Cents, Ident};
use std::alloc::{AllocError, Global};

/// A fund or defund command that was kept.
#[derive(Clone, Copy)]
pub(crate) struct KeptFunding {
    pub(crate) is_defunding: bool,
    pub(crate) cents: Cents,
}

/// The fundings of a history by their reference.
#[derive(Drop)]
pub(crate) struct References {
    table: IndexMap<Ident, KeptFunding>,
}

impl References {
    /// Returns an empty table; allocates nothing.
    pub(crate) fn new(alloc: Global) -> Self
        ensures { (reference : List ℕ) → funding_at result reference ≡ None }
    {
        References {
            table: IndexMap::new(alloc),
        }
    }

    /// Returns the funding with this reference.
    pub(crate) fn get(&self, reference: &Ident) -> Option<KeptFunding>
        ensures { result ≡ funding_at self.now reference.now }
    {
        self.table.get(reference).copied()
    }

    /// Stores the funding under this reference. On allocation failure nothing changes.
    pub(crate) fn put(&mut self, reference: Ident, funding: KeptFunding) -> Result<(), AllocError>
        ensures ok { OnOk result (PutsFunding self.old reference funding self.new) }
        ensures err { OnErr result ((key : List ℕ) →
            funding_at self.new key ≡ funding_at self.old key) }
    {
        self.table.insert(reference, funding)?;
        Ok(())
    }
}
