//! A write to two items of an arena at once.
ghost use Rattle.std.specs.Prelude.{◌≡◌, false};

use wasmi_arena::StableArena;

/// Adds one item to another, modulo 2^64, and leaves 0 in its place. Returns `false` where the keys are
/// one or one of them reads nothing, and then nothing changes. Constant time.
pub fn transfer(arena: &mut StableArena<u32, u64>, from: u32, to: u32) -> bool
    ensures refused { result ≡ false → arena.new ≡ arena.old }
{
    if from == to || !arena.has(from) || !arena.has(to) {
        return false;
    }
    match arena.get_disjoint_mut([from, to]) {
        Ok((source, target)) => {
            *target = target.wrapping_add(*source);
            *source = 0;
            true
        }
        Err(_) => unreachable!(),
    }
}
