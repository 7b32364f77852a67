//! Copies and drops of namespaces.

ghost use Rattle.std.specs.Prelude.{◌≡◌, ◌+◌, ◌∷◌, ◌++◌, [], length, IfOk, OnOk, OnErr};
ghost use Rattle.am_names.specs.{RefusedAs};
ghost use Rattle.am_state.specs.declared.obs.Obs.TheVariants.{Mounted, Unmounted};
ghost use Rattle.am_propagate.specs.{new_mounts, copy_refusal, drop_refusal, mounts_in};
ghost use Rattle.am_expire.specs.{is_used};
ghost use Rattle.am_kernel.specs.Namespaces.{with_namespace, without_namespace};

use crate::kernel::Kernel;
use am_names::{Errno, MountId, MountIds, NsId};
use am_propagate::CopyForm;
use am_state::Obs;
use std::alloc::Global;

impl Kernel {
    /// A new namespace with a copy of each mount of this one (sharedsubtree.rst, 5g), in this form.
    pub fn ns_copy(
        &mut self,
        alloc: Global,
        ns: NsId,
        form: CopyForm,
        seen: &mut Vec<Obs>,
    ) -> Result<NsId, Errno>
        ensures refusal { RefusedAs (copy_refusal ns self.old.table) result }
        ensures number { IfOk result (λ to. to ≡ self.old.table.last_ns + 1) }
        ensures ok { OnOk result (self.new ≡ with_namespace form ns self.old) }
        ensures shown { OnOk result (seen.new.items ≡
            seen.old.items ++
            Mounted (new_mounts self.old.table (length (mounts_in self.old.table ns))) ∷ []) }
        ensures err { OnErr result (self.new ≡ self.old) }
        ensures unseen { OnErr result (seen.new.items ≡ seen.old.items) }
    {
        seen.reserve(1)?;
        let made = self.subtree.copy_namespace(alloc, ns, form)?;
        let mounts = MountIds::of(made.mounts);
        seen.push_reserved(Obs::Mounted { mounts });
        Ok(made.ns)
    }

    /// Drops a namespace, with all its mounts, which are told in rising order. Nothing propagates.
    pub fn ns_drop(
        &mut self,
        alloc: Global,
        ns: NsId,
        seen: &mut Vec<Obs>,
    ) -> Result<Vec<MountId>, Errno>
        ensures refusal { RefusedAs (drop_refusal (is_used self.old.uses) ns self.old.table)
            result }
        ensures gone { IfOk result (λ v. v.items ≡ mounts_in self.old.table ns) }
        ensures ok { OnOk result (self.new ≡ without_namespace ns self.old) }
        ensures shown { OnOk result
            (seen.new.items ≡ seen.old.items ++ Unmounted (mounts_in self.old.table ns) ∷ []) }
        ensures err { OnErr result (self.new ≡ self.old) }
        ensures unseen { OnErr result (seen.new.items ≡ seen.old.items) }
    {
        seen.reserve(1)?;
        let mounts = MountIds::of(self.subtree.tree().mounts_of(alloc, ns)?);
        let gone = self.subtree.drop_namespace(alloc, ns, &self.uses)?;
        seen.push_reserved(Obs::Unmounted { mounts });
        Ok(gone)
    }
}
