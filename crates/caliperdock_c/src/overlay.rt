//! Lists written over the caller's.
ghost use Rattle.std.specs.Prelude.{◌≡◌};
ghost use Rattle.caliperdock_c.specs.Overlays.{over};

/// Writes as many items as there is room for.
#[tactic(auto, using(crate::proofs::Overlays::over_more, crate::proofs::Overlays::over_all))]
pub fn write_over<T: Copy>(room: &mut [T], items: &[T])
    ensures { room.new ≡ over items.now room.old }
{
    let end = room.len().min(items.len());
    for i in 0..end {
        room[i] = items[i];
    }
}
