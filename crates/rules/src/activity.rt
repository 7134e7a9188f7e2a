// Activities are f32, kept as their bits and compared as floats. That stored bits are at most `LAST_ACTIVITY` is a fact of a word, which a store's
// sound shape gives where one is read, so it is asked here and is of no type.
ghost use Rattle.std.specs.Prelude.{◌≡◌, ◌≤◌, ltb, eqb};
ghost use Rattle.std.specs.Float.{binary32};
ghost use Rattle.std.specs.Float.Ieee.{of_bits, lt, eq};
ghost use Rattle.rules.specs.Activity.{admitted, last_activity};

// The bits of the largest finite f32: up to them the sign is clear and the number finite.
pub const LAST_ACTIVITY: usize = 2_139_095_039;

// The bits of an activity from outside; none where it can't be stored: NaN, an infinity or a set sign bit.
pub fn admit(x: f32) -> Option<u32>
    ensures { result ≡ admitted x }
{
    if x != x {
        return None;
    }
    let bits = f32::to_bits(x);
    if bits <= LAST_ACTIVITY as u32 {
        return Some(bits);
    }
    None
}

// Whether activity b is strictly higher than activity a: the float order, which is that of the bits.
pub fn higher(a: u32, b: u32) -> bool
    requires a_stored { a ≤ last_activity }
    requires b_stored { b ≤ last_activity }
    ensures as_floats { result ≡ lt (of_bits binary32 a) (of_bits binary32 b) }
    ensures as_bits { result ≡ ltb a b }
{
    f32::from_bits(a) < f32::from_bits(b)
}

// Whether two activities are the same number.
pub fn same(a: u32, b: u32) -> bool
    requires a_stored { a ≤ last_activity }
    requires b_stored { b ≤ last_activity }
    ensures as_floats { result ≡ eq (of_bits binary32 a) (of_bits binary32 b) }
    ensures as_bits { result ≡ eqb a b }
{
    f32::from_bits(a) == f32::from_bits(b)
}
