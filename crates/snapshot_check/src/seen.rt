//! Which components and modules a package's Snapshot has.

ghost use Rattle.std.specs.Prelude.{◌≡◌, ◌++◌, ◌∷◌, ◌==◌, [], List, OnOk, length};
ghost use Rattle.std.specs.List.{list_any};
ghost use Rattle.std.specs.List.Sorted.{IsPermutation, IsSorted};
ghost use Rattle.std.specs.Ordering.{nat_cmp};
ghost use Rattle.rf2_values.specs.Row.{RowValue};
ghost use Rattle.rf2_values.specs.declared.row.Kind.{Kind};
ghost use Rattle.snapshot_check.specs.Differences.{count_of, is_more};
ghost use Rattle.snapshot_check.specs.Private.{ids_of, IsSeen, IsSortedSeen, AddsId, AddsModule};

use crate::found::Counts;
use rf2_rows::{Kind, Row, Sctid};
use std::alloc::{AllocError, Global};

/// The identifiers of a package's Snapshot by kind, and the modules that its rows name.
#[derive(Drop)]
pub(crate) struct Seen {
    concepts: Vec<u128>,
    descriptions: Vec<u128>,
    relationships: Vec<u128>,
    associations: Vec<u128>,
    concretes: Vec<u128>,
    members: Vec<u128>,
    modules: Vec<Sctid>,
}

impl Seen {
    /// No row was seen.
    pub(crate) fn new(alloc: Global) -> Seen
        ensures { IsSeen [] result }
    {
        let concepts = Vec::new(alloc);
        let descriptions = Vec::new(alloc);
        let relationships = Vec::new(alloc);
        let associations = Vec::new(alloc);
        let concretes = Vec::new(alloc);
        let members = Vec::new(alloc);
        let modules = Vec::new(alloc);
        Seen {
            concepts,
            descriptions,
            relationships,
            associations,
            concretes,
            members,
            modules,
        }
    }

    /// Adds an identifier.
    fn add_id(&mut self, kind: Kind, id: u128) -> Result<(), AllocError>
        ensures { OnOk result (AddsId kind id self.old self.new) }
    {
        match kind {
            Kind::Concept => Ok(self.concepts.push(id)?),
            Kind::Description => Ok(self.descriptions.push(id)?),
            Kind::Relationship => Ok(self.relationships.push(id)?),
            Kind::Association => Ok(self.associations.push(id)?),
            Kind::Concrete => Ok(self.concretes.push(id)?),
            Kind::Member => Ok(self.members.push(id)?),
        }
    }

    /// Whether a row names this module.
    fn names(&self, module_id: Sctid) -> bool
        ensures { result ≡ list_any (λ n. n == module_id) self.now.modules.items }
    {
        self.modules.contains(&module_id)
    }

    /// Adds a module.
    fn add_module(&mut self, module_id: Sctid) -> Result<(), AllocError>
        ensures modules { OnOk result
            (AddsModule module_id self.old.modules.items self.new.modules.items) }
        ensures kept { self.new ≡ record self.old { modules = self.new.modules } }
    {
        if self.names(module_id) {
            return Ok(());
        }
        self.modules.push(module_id)?;
        Ok(())
    }

    /// Adds a row.
    pub(crate) fn add(&mut self, row: &Row) -> Result<(), AllocError>
        ensures { OnOk result ((rows : List RowValue) → IsSeen rows self.old
            → IsSeen (rows ++ row.now ∷ []) self.new) }
    {
        self.add_id(row.kind(), row.id)?;
        self.add_module(row.module_id)?;
        Ok(())
    }

    /// Puts the identifiers in order, so that they are found fast.
    pub(crate) fn sort(&mut self)
        ensures { (rows : List RowValue) → IsSeen rows self.old
            → IsSortedSeen rows self.new }
    {
        self.concepts.sort_unstable();
        self.descriptions.sort_unstable();
        self.relationships.sort_unstable();
        self.associations.sort_unstable();
        self.concretes.sort_unstable();
        self.members.sort_unstable();
    }

    /// The identifiers of a kind.
    fn ids(&self, kind: Kind) -> &[u128]
        ensures { result.now ≡ ids_of self.now kind }
    {
        match kind {
            Kind::Concept => &self.concepts,
            Kind::Description => &self.descriptions,
            Kind::Relationship => &self.relationships,
            Kind::Association => &self.associations,
            Kind::Concrete => &self.concretes,
            Kind::Member => &self.members,
        }
    }

    /// Whether a component was seen, once the identifiers are in order.
    fn has(&self, kind: Kind, id: u128) -> bool
        ensures { IsSorted nat_cmp (ids_of self.now kind)
            → result ≡ list_any (λ other. other == id) (ids_of self.now kind) }
    {
        self.ids(kind).binary_search(&id).is_ok()
    }

    /// Whether a row that is shown is of a module that the Snapshot names, and the Snapshot has no
    /// row of its component.
    pub(crate) fn is_more(&self, row: &Row) -> bool
        ensures { (rows : List RowValue) → IsSortedSeen rows self.now
            → result ≡ is_more rows row.now }
    {
        let module_id = row.module_id;
        let key = row.key();
        if self.names(module_id) {
            !self.has(key.kind, key.id)
        } else {
            false
        }
    }

    /// How many rows of a kind were seen.
    fn count(&self, kind: Kind) -> u64
        ensures { result ≡ length (ids_of self.now kind) }
    {
        self.ids(kind).len() as u64
    }

    /// How many rows of each kind were seen.
    pub(crate) fn counts(&self) -> Counts
        ensures { (kind : Kind) → count_of result kind ≡ length (ids_of self.now kind) }
    {
        Counts {
            concepts: self.count(Kind::Concept),
            descriptions: self.count(Kind::Description),
            relationships: self.count(Kind::Relationship),
            associations: self.count(Kind::Association),
            concretes: self.count(Kind::Concrete),
            members: self.count(Kind::Member),
        }
    }
}
