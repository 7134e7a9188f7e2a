// What C is told of an answer: its number, and its values in a lent output, from the front on; the rest of the output is kept.
ghost use Rattle.std.specs.Prelude.{◌≡◌, ◌≤◌, [], ◌∷◌, List, ℕ, length};
ghost use Rattle.conditions.specs.Disjunct.{holds_values};
ghost use Rattle.imbolaverk.specs.Written.{written};
ghost use Rattle.store.specs.Row.{answer_number, answer_values};

use store::Refusal;

// What an answer holds has values to tell.
pub trait Values: Copy {
    ghost values: { Self → List ℕ };

    // Writes them from the front on.
    fn write(self, out: &mut [u32])
        requires { length (values self) ≤ length out.old }
        ensures { out.new ≡ written (values self) out.old };
}

// A number is its own value.
impl Values for u32 {
    ghost values = { λ n. n ∷ [] };

    fn write(self, out: &mut [u32]) {
        write(out, &[self])
    }
}

// Whether something holds: 1 if so.
impl Values for bool {
    ghost values = { holds_values };

    fn write(self, out: &mut [u32]) {
        write(out, &[u32::from(self)])
    }
}

// Writes values from the front on.
#[tactic(auto, using(crate::proofs::Outputs::written_is))]
pub fn write(out: &mut [u32], values: &[u32])
    requires { length values.now ≤ length out.old }
    ensures { out.new ≡ written values.now out.old }
{
    out[..values.len()].copy_from_slice(values);
}

// The number of an answer: 0 for done, else its refusal's.
pub fn number<T: Copy>(answer: Result<T, Refusal>) -> u32
    ensures { result ≡ answer_number answer }
{
    match answer {
        Ok(_) => 0,
        Err(refusal) => refusal.number(),
    }
}

// The number, with the values in the output; a refusal has none.
pub fn give<T: Values, const N: usize>(answer: Result<T, Refusal>, out: &mut [u32; N]) -> u32
    requires fits { (x : _) → length (T.values x) ≤ N }
    ensures number { result ≡ answer_number answer }
    ensures told { out.new ≡ written (answer_values T.values answer) out.old }
{
    match answer {
        Ok(x) => {
            x.write(out);
            0
        }
        Err(refusal) => refusal.number(),
    }
}
