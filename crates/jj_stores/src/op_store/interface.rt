//! The interface of stores of views and operations.
ghost use Rattle.std.specs.Prelude.{◌≡◌, ◌∷◌, IsSome, IfOk, IfErr, OnOk, OnErr};
ghost use Rattle.jj_stores.specs.OperationLaws.{operation_eq};
ghost use Rattle.jj_stores.specs.OpStores.{AddsEqual, IsKeptOperation, IsKeptView, IsResolution};
ghost use Rattle.jj_stores.specs.OpStores.{LacksOthers, ReadsEqual, RemovesOthers, SetsTime};
ghost use Rattle.jj_stores.specs.ViewLaws.{view_eq};

use super::{OpStoreResult, Operation, OperationId, View, ViewId};
use jj_backend::backend::MillisSinceEpoch;
use jj_ids::object_id::{HexPrefix, PrefixResolution};
use std::alloc::Global;

/// A store of views and operations, addressed by id. A write that fails changes neither.
pub trait OpStore {
    ghost use Rattle.jj_backend.specs.Objects.{ById};
    ghost use Rattle.jj_backend.specs.declared.backend.timestamp.MillisSinceEpoch.{MillisSinceEpoch};
    ghost use Rattle.jj_stores.specs.OpStores.{FixedValues};
    ghost use Rattle.jj_stores.specs.declared.op_store.errors.OpStoreError.{OpStoreError};
    ghost use Rattle.jj_stores.specs.declared.op_store.operation.Operation.{Operation};
    ghost use Rattle.jj_stores.specs.declared.op_store.view.View.{View};

    /// The stored views, by id.
    ghost views: { Self → ById View };

    /// The stored operations, by id.
    ghost operations: { Self → ById Operation };

    /// When each view was last written, by id.
    ghost view_times: { Self → ById MillisSinceEpoch };

    /// When each operation was last written, by id.
    ghost operation_times: { Self → ById MillisSinceEpoch };

    /// The values that no call changes.
    ghost fixed: { Self → FixedValues };

    /// The errors that a call may return. A read may also return `ObjectNotFound`.
    ghost may_fail: { Self → OpStoreError → Type 0 };

    /// Returns the name of the type of the store.
    fn name(&self) -> &str
        ensures { result.now ≡ (fixed self.now).name };

    /// Returns the id of the root operation, the ancestor of all other operations.
    fn root_operation_id(&self) -> &OperationId
        ensures id { result.now ≡ (fixed self.now).root_operation_id }
        ensures operation { IsSome (operations self.now result.now) };

    /// Reads a view. `ObjectNotFound` means that no view has the id.
    fn read_view(&self, alloc: Global, id: &ViewId) -> OpStoreResult<View>
        ensures { ReadsEqual view_eq (may_fail self.now) (views self.now id.now) result };

    /// Stores a view and returns its id.
    fn write_view(&mut self, alloc: Global, contents: &View) -> OpStoreResult<ViewId>
        ensures ok { IfOk result (λ id.
            AddsEqual view_eq (views self.old) (views self.new) id contents.now) }
        ensures unchanged { OnErr result (views self.new ≡ views self.old) }
        ensures same_operations { operations self.new ≡ operations self.old }
        ensures time { IfOk result (SetsTime (view_times self.old) (view_times self.new)) }
        ensures same_times { operation_times self.new ≡ operation_times self.old }
        ensures fixed { fixed self.new ≡ fixed self.old }
        ensures error { IfErr result (may_fail self.old) };

    /// Reads an operation. `ObjectNotFound` means that no operation has the id.
    fn read_operation(&self, alloc: Global, id: &OperationId) -> OpStoreResult<Operation>
        ensures { ReadsEqual operation_eq (may_fail self.now) (operations self.now id.now) result };

    /// Stores an operation and returns its id.
    fn write_operation(&mut self, alloc: Global, contents: &Operation) -> OpStoreResult<OperationId>
        ensures ok { IfOk result (λ id.
            AddsEqual operation_eq (operations self.old) (operations self.new) id contents.now) }
        ensures unchanged { OnErr result (operations self.new ≡ operations self.old) }
        ensures same_views { views self.new ≡ views self.old }
        ensures time { IfOk result (SetsTime (operation_times self.old)
            (operation_times self.new)) }
        ensures same_times { view_times self.new ≡ view_times self.old }
        ensures fixed { fixed self.new ≡ fixed self.old }
        ensures error { IfErr result (may_fail self.old) };

    /// Resolves a prefix of an operation id.
    fn resolve_operation_id_prefix(
        &self,
        alloc: Global,
        prefix: &HexPrefix,
    ) -> OpStoreResult<PrefixResolution<OperationId>>
        ensures ok { IfOk result (IsResolution (operations self.now) prefix.now) }
        ensures error { IfErr result (may_fail self.now) };

    /// Deletes the views and operations that are reachable neither from `head_ids` nor from the
    /// root operation and were not written after `keep_newer`. After a failure some of them may
    /// have been deleted.
    fn gc(
        &mut self,
        alloc: Global,
        head_ids: &[OperationId],
        keep_newer: MillisSinceEpoch,
    ) -> OpStoreResult<()>
        ensures kept_operations { RemovesOthers (IsKeptOperation (operations self.old)
            ((fixed self.old).root_operation_id ∷ head_ids.now) (operation_times self.old)
            keep_newer) (operations self.old) (operations self.new) }
        ensures kept_views { RemovesOthers (IsKeptView (operations self.old)
            ((fixed self.old).root_operation_id ∷ head_ids.now) (view_times self.old)
            keep_newer) (views self.old) (views self.new) }
        ensures only_operations { OnOk result (LacksOthers (IsKeptOperation (operations self.old)
            ((fixed self.old).root_operation_id ∷ head_ids.now) (operation_times self.old)
            keep_newer) (operations self.new)) }
        ensures only_views { OnOk result (LacksOthers (IsKeptView (operations self.old)
            ((fixed self.old).root_operation_id ∷ head_ids.now) (view_times self.old)
            keep_newer) (views self.new)) }
        ensures fixed { fixed self.new ≡ fixed self.old }
        ensures error { IfErr result (may_fail self.old) };
}
