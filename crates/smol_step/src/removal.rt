//! Molecules that leave the list.
ghost use Rattle.std.specs.Prelude.{◌≡◌, length};
ghost use Rattle.std.specs.List.{items_where_true};

use smol_types::Mol;

/// Leaves the molecules that are free, in their order.
pub(crate) fn keep_free(mols: &mut Vec<Mol>, free: &[bool])
    requires { length free.now ≡ length mols.old.items }
    ensures { mols.new.items ≡ items_where_true free.now mols.old.items }
{
    let mut left = 0;
    for (i, is_free) in free.iter().enumerate() {
        if *is_free {
            mols[left] = mols[i];
            left += 1;
        }
    }
    mols.truncate(left);
}
