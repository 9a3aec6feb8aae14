// What the definitions say of plain lists stands in specs/. Here: what is done with slices of any type.
#![tactic(auto)]

ghost use Rattle.std.specs.Prelude.{◌≡◌, length};

// Copies the items. A loop: `copy_from_slice` calls memmove, which the archive for C doesn't otherwise need.
pub fn copy_items<T: Copy>(from: &[T], to: &mut [T])
    requires { length to.old ≡ length from.now }
    ensures { to.new ≡ from.now }
{
    for (i, item) in from.iter().enumerate() {
        to[i] = *item;
    }
}
