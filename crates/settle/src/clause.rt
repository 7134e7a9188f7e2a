// Calls that register clauses and set what a proposal goes by: register, hot, activity, mode.
use crate::desk::Desk;
use script::forms::{Activity, Registration};
use script::words::Fraction;
use std::io::{self, Write};
use store::{codes, limits};

// The condition as the store's call takes it: the last u32 is none. Written as a number it names no disjunction, nor does the one before it.
fn condition_number(condition: Option<u32>) -> u32 {
    match condition {
        Some(codes::NO_CONDITION) => codes::NO_CONDITION - 1,
        Some(disjunction) => disjunction,
        None => codes::NO_CONDITION,
    }
}

// The activity of some bits. Above those of the largest finite number all are bad (9), as -1 is.
#[tactic(auto, using(rules::proofs::FloatOrder::no_nan_bits))]
fn of_bits(bits: u32) -> f32 {
    if bits <= limits::LAST_ACTIVITY as u32 {
        return f32::from_bits(bits);
    }
    -1.0
}

// The float nearest to a decimal fraction, by one division of two floats that are exact.
fn of_fraction(fraction: Fraction) -> f32 {
    std::num::nearest_u32_to_f32(fraction.digits) / std::num::nearest_u32_to_f32(fraction.divisor)
}

impl<W: Write> Desk<W> {
    pub fn register(&mut self, asked: Registration) -> io::Result<()> {
        let answer = clauses::register(
            &mut self.store,
            asked.parent,
            asked.kind as u32,
            asked.requirement,
            condition_number(asked.condition),
            asked.clause,
        );
        self.tell(answer)
    }

    pub fn mark_hot(&mut self, name: u32) -> io::Result<()> {
        let answer = settings::mark_hot(&mut self.store, name);
        self.tell(answer)
    }

    pub fn set_activity(&mut self, name: u32, activity: Activity) -> io::Result<()> {
        let activity = match activity {
            Activity::Bits(bits) => of_bits(bits),
            Activity::Fraction(fraction) => of_fraction(fraction),
        };
        let answer = settings::set_activity(&mut self.store, name, activity);
        self.tell(answer)
    }

    pub fn set_mode(&mut self, mode: u32) -> io::Result<()> {
        let answer = settings::set_mode(&mut self.store, mode);
        self.tell(answer)
    }
}
