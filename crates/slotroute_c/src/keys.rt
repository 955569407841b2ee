ghost use Rattle.std.specs.Prelude.{◌≡◌};
ghost use Rattle.cluster_slots.specs.KeySlot.{key_slot};

use cluster_slots::Slot;

/// The slot of a key: of `foo`, 12182.
#[unsafe(no_mangle)]
pub extern "C" fn slotroute_slot(key: &[u8]) -> u16
    ensures { result ≡ key_slot key.now }
{
    Slot::for_key(key).number()
}
