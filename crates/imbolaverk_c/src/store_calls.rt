// A store: how many words it needs, and a fresh one.
ghost use Rattle.std.specs.Prelude.{◌≡◌};
ghost use Rattle.imbolaverk.specs.Calls.{number_of, left_by, fresh};
ghost use Rattle.store.specs.Layout.{words};

use imbolaverk::store_calls;

// How many words a store needs.
#[unsafe(no_mangle)]
pub extern "C" fn imb_words() -> usize
    ensures { result ≡ words }
{
    store_calls::imb_words()
}

// Makes a fresh store, whatever the words held.
#[unsafe(no_mangle)]
pub extern "C" fn imb_fresh(s: &mut [u32]) -> u32
    ensures number { result ≡ number_of s.old fresh }
    ensures left { s.new ≡ left_by s.old fresh }
{
    store_calls::imb_fresh(s)
}
