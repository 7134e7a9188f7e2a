// The settings: hot names, activities, the mode.
ghost use Rattle.std.specs.Prelude.{◌≡◌};
ghost use Rattle.imbolaverk.specs.Calls.{ask, number_of, left_by, values_of, mark_hot, set_mode, settings, name_of};
ghost use Rattle.imbolaverk.specs.Written.{written};
ghost use Rattle.settings.specs.Settings.{activity_row};
ghost use Rattle.store.specs.Row.{answer_any, answer_number, left_any};

use imbolaverk::settings_calls;

// Makes a name hot, for good.
#[unsafe(no_mangle)]
pub extern "C" fn imb_mark_hot(s: &mut [u32], name: u32) -> u32
    ensures number { result ≡ number_of s.old (mark_hot name) }
    ensures left { s.new ≡ left_by s.old (mark_hot name) }
{
    settings_calls::imb_mark_hot(s, name)
}

// Gives a name an activity.
#[unsafe(no_mangle)]
pub extern "C" fn imb_set_activity(s: &mut [u32], name: u32, activity: f32) -> u32
    ensures number { result ≡ answer_number (answer_any s.old (activity_row s.old name activity)) }
    ensures left { s.new ≡ left_any s.old (activity_row s.old name activity) }
{
    settings_calls::imb_set_activity(s, name, activity)
}

// Sets the mode: 1 standard, 0 not.
#[unsafe(no_mangle)]
pub extern "C" fn imb_set_mode(s: &mut [u32], mode: u32) -> u32
    ensures number { result ≡ number_of s.old (set_mode mode) }
    ensures left { s.new ≡ left_by s.old (set_mode mode) }
{
    settings_calls::imb_set_mode(s, mode)
}

// The mode.
#[unsafe(no_mangle)]
pub extern "C" fn imb_settings(s: &[u32], out: &mut [u32; 1]) -> u32
    ensures number { result ≡ number_of s.now (ask settings) }
    ensures told { out.new ≡ written (values_of s.now (ask settings)) out.old }
{
    settings_calls::imb_settings(s, out)
}

// The bits of a name's activity, and whether it is hot.
#[unsafe(no_mangle)]
pub extern "C" fn imb_name(s: &[u32], name: u32, out: &mut [u32; 2]) -> u32
    ensures number { result ≡ number_of s.now (ask (name_of name)) }
    ensures told { out.new ≡ written (values_of s.now (ask (name_of name))) out.old }
{
    settings_calls::imb_name(s, name, out)
}
