//! Inputs made up of random numbers. tools/made_plans.py makes the same ones, draw for draw.

use crate::hex::unhex;
use crate::random::Random;
use std::alloc::{AllocError, Global};

/// Twelve periods of which the tasks of a plan take theirs.
type Periods = [u16; 12];

/// Their common periods are 240, 720, 2,520 and 5,040.
const SHORT: [Periods; 4] = [
    [10, 12, 15, 16, 20, 24, 30, 40, 48, 60, 80, 120],
    [15, 16, 18, 20, 24, 30, 36, 45, 48, 60, 72, 90],
    [20, 21, 24, 28, 35, 36, 40, 45, 56, 63, 72, 84],
    [30, 35, 42, 48, 60, 63, 70, 80, 84, 105, 112, 144],
];

/// Their common period is 720,720.
const MIDDLE: Periods = [55, 65, 77, 91, 99, 104, 112, 117, 130, 132, 143, 144];

/// Most of them together have a longer common period than a plan may have.
const LONG: Periods = [110, 117, 125, 133, 144, 153, 175, 189, 203, 209, 216, 253];

/// Mostly short ones: a long run takes as much time as thousands of short ones.
fn periods(random: &mut Random) -> Periods {
    match random.up_to(511) {
        0..=1 => LONG,
        2..=4 => MIDDLE,
        _ => random.one_of(&SHORT),
    }
}

/// What the tasks of a plan have in common.
#[derive(Clone, Copy)]
struct Outline {
    periods: Periods,
    last_task: u8,
    /// how much of the core a task takes, in thousandths
    share: u16,
    /// how late offsets may be, in periods
    reach: u8,
    /// how far deadlines may lie before the period, in sixteenths of what the work leaves of it
    tightness: u8,
    /// whether an earlier deadline has the greater priority
    by_deadline: bool,
}

impl Outline {
    fn draw(random: &mut Random) -> Self {
        let periods = periods(random);
        let last_task = random.up_to(15) as u8;
        Outline {
            periods,
            last_task,
            share: (200 + random.up_to(899) as u16) / (u16::from(last_task) + 1),
            reach: random.up_to(2) as u8,
            tightness: random.up_to(9) as u8,
            by_deadline: random.up_to(2) > 0,
        }
    }

    fn priority(&self, random: &mut Random, deadline: u64) -> u64 {
        if self.by_deadline {
            255u64.saturating_sub(deadline)
        } else {
            random.up_to(3)
        }
    }

    /// The row of a task, in hexadecimal digits.
    fn row(&self, heap: Global, random: &mut Random) -> Result<String, AllocError> {
        let period = u64::from(random.one_of(&self.periods));
        let work = period.min(1 + random.up_to(period * u64::from(self.share) / 500));
        let offset = random.up_to(period * u64::from(self.reach));
        let spare = period.saturating_sub(work) * u64::from(self.tightness) / 16;
        let deadline = period.saturating_sub(random.up_to(spare));
        let priority = self.priority(random, deadline);
        let fixed_delay = random.up_to(3);
        let evicting = random.bits() & random.bits() & random.bits();
        let useful = evicting & random.bits();
        format!(in heap;
            "{offset:05x}{period:05x}{deadline:05x}{work:05x}{priority:02x}{fixed_delay:03x}{useful:016x}{evicting:016x}0"
        )
    }
}

/// An input that may be refused for a hyperperiod that is too long, and for nothing else; in hexadecimal digits.
fn whole(heap: Global, random: &mut Random) -> Result<String, AllocError> {
    let policy = random.one_of(b"FE");
    let layer = random.one_of(b"-N");
    let model = random.one_of(b"ZAUL");
    let reload = random.up_to(3) * (1 + random.up_to(2));
    let outline = Outline::draw(random);
    let last_task = outline.last_task;
    // two spare bits stand behind the reload time
    let second_byte = 4 * reload;
    let mut digits = format!(in heap;
        "{policy:02x}{layer:02x}{model:02x}0a1{last_task:x}{second_byte:02x}"
    )?;
    for _ in 0..=last_task {
        digits.push_str(outline.row(heap, random)?.as_str())?;
    }
    Ok(digits)
}

/// Cuts the input, adds a byte, or turns a bit.
fn damage(random: &mut Random, input: &mut Vec<u8>) -> Result<(), AllocError> {
    let kind = random.up_to(3);
    let place = random.up_to((input.len() as u64).saturating_sub(1)) as usize;
    let bit = random.up_to(7) as u32;
    match kind {
        0 => input.truncate(place),
        1 => input.push(0)?,
        _ => {
            if let Some(byte) = input.get_mut(place) {
                *byte ^= 1 << bit;
            }
        }
    }
    Ok(())
}

/// The next input. One in eight is damaged.
pub(crate) fn made_input(heap: Global, random: &mut Random) -> Result<Vec<u8>, AllocError> {
    let digits = whole(heap, random)?;
    let mut input = unhex(heap, digits.as_bytes())?;
    if random.up_to(7) == 0 {
        damage(random, &mut input)?;
    }
    Ok(input)
}
