// The settings of a store of sound shape. The crate's public calls test the shape and then call these.
ghost use Rattle.std.specs.Prelude.{◌≡◌, ◌≤◌, ◌<◌, length, Ok, Err};
ghost use Rattle.store.specs.Layout.{words};
ghost use Rattle.store.specs.Limits.{names};
ghost use Rattle.rules.specs.Activity.{admitted};
ghost use Rattle.rules.specs.Numbers.{all_from};
ghost use Rattle.store.specs.Shape.{Sound};
ghost use Rattle.settings.specs.Settings.{activity_with, bits_of, quiet, activity_tests, activity_row, hot_row, mode_row, name_row};
ghost use Rattle.store.specs.Row.{judged, answer_sound, left_sound};

use crate::Name;
use rules::activity;
use store::{Refusal, areas, codes, limits, wide};

pub fn mark_hot(s: &mut [u32], name: u32) -> Result<(), Refusal>
    requires { Sound s.old }
    ensures answer { result ≡ answer_sound (hot_row s.old name) }
    ensures left { s.new ≡ left_sound s.old (hot_row s.old name) }
{
    if limits::NAMES as u32 <= name {
        return Err(Refusal::BadId);
    }
    areas::HOT_NAMES.put(s, wide(name), 1);
    Ok(())
}

// Bits that a name would be given as its activity. No name has the number `NAMES`, so with that nothing changes: the definition `mode_tests`
// says it so, and an option would only be turned into that number.
#[derive(Clone, Copy, PartialEq, Eq)]
struct Change {
    name: usize,
    bits: u32,
}

impl Change {
    // The activity that name n would have.
    #[tactic(auto, unfolding(crate::specs::Settings::activity_with))]
    fn activity(self, s: &[u32], n: usize) -> u32
        requires long { words ≤ length s.now }
        requires inside { n < names }
        ensures { result ≡ activity_with s.now self.name self.bits n }
    {
        if n == self.name {
            self.bits
        } else {
            areas::ACTIVITIES.at(s, n)
        }
    }

    // Whether name n would be hot or at zero.
    #[tactic(auto, unfolding(crate::specs::Settings::quiet))]
    fn is_quiet(self, s: &[u32], n: usize) -> bool
        requires long { words ≤ length s.now }
        requires inside { n < names }
        ensures { result ≡ quiet s.now self.name self.bits n }
    {
        areas::HOT_NAMES.at(s, n) != 0 || self.activity(s, n) == 0
    }

    // Whether every name would be: what standard mode asks.
    #[tactic(auto, using(rules::proofs::Loops::testing_all))]
    fn all_quiet(self, s: &[u32]) -> bool
        requires { words ≤ length s.now }
        ensures { result ≡ all_from (quiet s.now self.name self.bits) 0 names }
    {
        for n in 0..limits::NAMES {
            if !self.is_quiet(s, n) {
                return false;
            }
        }
        true
    }
}

// What giving an activity would answer: the bits to store.
#[tactic(auto, unfolding(crate::specs::Settings::activity_tests))]
fn activity_case(s: &[u32], name: u32, activity: f32) -> Result<u32, Refusal>
    requires { Sound s.now }
    ensures { result ≡ judged Err (activity_tests s.now name activity) (Ok (bits_of (admitted activity))) }
{
    if limits::NAMES as u32 <= name {
        return Err(Refusal::BadId);
    }
    let bits = activity::admit(activity).ok_or(Refusal::BadActivity)?;
    let change = Change {
        name: wide(name),
        bits,
    };
    if areas::MODE.at(s, 0) == codes::STANDARD && !change.all_quiet(s) {
        return Err(Refusal::ColdActivity);
    }
    Ok(bits)
}

#[tactic(auto, unfolding(crate::specs::Settings::activity_tests))]
pub fn set_activity(s: &mut [u32], name: u32, activity: f32) -> Result<(), Refusal>
    requires { Sound s.old }
    ensures answer { result ≡ answer_sound (activity_row s.old name activity) }
    ensures left { s.new ≡ left_sound s.old (activity_row s.old name activity) }
{
    let bits = activity_case(s, name, activity)?;
    areas::ACTIVITIES.put(s, wide(name), bits);
    Ok(())
}

#[tactic(auto, unfolding(crate::specs::Settings::mode_tests))]
pub fn set_mode(s: &mut [u32], mode: u32) -> Result<(), Refusal>
    requires { Sound s.old }
    ensures answer { result ≡ answer_sound (mode_row s.old mode) }
    ensures left { s.new ≡ left_sound s.old (mode_row s.old mode) }
{
    if codes::STANDARD < mode {
        return Err(Refusal::BadId);
    }
    let unchanged = Change {
        name: limits::NAMES,
        bits: 0,
    };
    if mode == codes::STANDARD && !unchanged.all_quiet(s) {
        return Err(Refusal::ColdActivity);
    }
    areas::MODE.put(s, 0, mode);
    Ok(())
}

pub fn name_of(s: &[u32], name: u32) -> Result<Name, Refusal>
    requires { Sound s.now }
    ensures { result ≡ answer_sound (name_row s.now name) }
{
    if limits::NAMES as u32 <= name {
        return Err(Refusal::BadId);
    }
    let n = wide(name);
    Ok(Name {
        activity: areas::ACTIVITIES.at(s, n),
        hot: areas::HOT_NAMES.at(s, n),
    })
}
