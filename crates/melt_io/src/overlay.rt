//! Items written over those of a vector, which grows where it is too short.
ghost use Rattle.std.specs.Prelude.{◌≡◌, ◌+◌, ◌-◌, ◌^◌, ◌<◌, ◌≤◌, ◌++◌, length, take, drop, replicate, vec_len, OnOk};
ghost use Rattle.std.specs.Prelude.{OnErr};
ghost use Rattle.std.specs.Vec.{vec_capacity};
ghost use Rattle.melt_io.specs.Outside.{overlaid};

use std::alloc::AllocError;

/// Writes the items from place `start` on, with `blank` before them where there are fewer.
pub(crate) fn write_over<T: Copy>(
    items: &mut Vec<T>,
    start: usize,
    new: &[T],
    blank: T,
) -> Result<(), AllocError>
    requires { start + length new.now < 2 ^ 63 }
    ensures written { OnOk result (items.new.items ≡ overlaid blank items.old.items start new.now) }
    ensures err { OnErr result (items.new.items ≡ items.old.items) }
    ensures full { OnErr result (vec_capacity items.old < start + length new.now) }
{
    reach(items, start + new.len(), blank)?;
    overwrite(items, start, new);
    Ok(())
}

/// Fills up with `blank` to the length `end`, where there are fewer items.
fn reach<T: Copy>(items: &mut Vec<T>, end: usize, blank: T) -> Result<(), AllocError>
    ensures reached { OnOk result (items.new.items ≡ items.old.items ++ replicate (end - vec_len items.old) blank) }
    ensures err { OnErr result (items.new.items ≡ items.old.items) }
    ensures full { OnErr result (vec_capacity items.old < end) }
{
    if end > items.len() {
        items.resize(end, blank)?;
    }
    Ok(())
}

/// Writes the items from place `start` on.
fn overwrite<T: Copy>(items: &mut [T], start: usize, new: &[T])
    requires { start + length new.now ≤ length items.old }
    ensures { items.new ≡ take start items.old ++ new.now ++ drop (start + length new.now) items.old }
{
    items[start..start + new.len()].copy_from_slice(new);
}
