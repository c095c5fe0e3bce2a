//! Rewriting a list of views: what stands between two filters by content is merged.
ghost use Rattle.std.specs.Prelude.{◌≡◌, true, IfOk};
ghost use Rattle.std.specs.List.{list_all};
ghost use Rattle.view_trait.specs.Ready.{in_range};
ghost use Rattle.fused_view.specs.Fused.{IsFused};

use crate::run::Run;
use graph_model::Memory;
use std::alloc::Global;
use std::marker::Model;
use view_trait::ReadyOps;

/// A list of views, and a list that shows the same of each world, in which the views between two
/// filters by content are merged.
#[derive(Drop)]
pub struct FusedOps {
    given: ReadyOps,
    merged: ReadyOps,
}

impl Model for FusedOps {
    ghost use Rattle.fused_view.specs.Fused.{Fused, IsFused};

    ghost Value = { Fused };

    ghost view = { λ f. record { given = f.given; merged = f.merged } };

    ghost invariant = { λ f. IsFused f.given f.merged };
}

impl FusedOps {
    /// The views as they were given.
    pub fn given(&self) -> &ReadyOps
        ensures value { result.now ≡ self.now.given }
        ensures fused { IsFused self.now.given self.now.merged }
    {
        &self.given
    }

    /// The merged views.
    pub fn merged(&self) -> &ReadyOps
        ensures value { result.now ≡ self.now.merged }
        ensures fused { IsFused self.now.given self.now.merged }
    {
        &self.merged
    }
}

/// Merges the windows, the views of layers and the views of nodes that stand between two filters by
/// content: into one window, one set of layers, one list of kept nodes and one of dropped nodes, in
/// this order, each where there is such a view. The filters stay in their places. The moments of each
/// window are bounds.
pub fn fuse(alloc: Global, ops: &ReadyOps) -> Result<FusedOps, Memory>
    requires { list_all in_range ops.now ≡ true }
    ensures given { IfOk result (λ fused. fused.given ≡ ops.now) }
    ensures merged { IfOk result (λ fused. IsFused ops.now fused.merged) }
{
    let mut merged = ReadyOps::new(alloc);
    let mut run = Run::new();
    for i in 0..ops.len() {
        run.add(alloc, ops.item(i), &mut merged)?;
    }
    run.close(&mut merged)?;
    Ok(FusedOps {
        given: ops.copy(alloc)?,
        merged,
    })
}
