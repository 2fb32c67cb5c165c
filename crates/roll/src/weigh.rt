// Weighing: what sets of seats weigh, when that is "large" and "some", whose turn a round is, and what a roll may be.
ghost use Rattle.std.specs.Prelude.{ℕ, ◌<◌, ◌≤◌, ◌≡◌, ◌&&◌, eqb, leb, length, get_or};
ghost use Rattle.words.specs.Choice.{all_below};
ghost use Rattle.words.specs.Marks.{marked};
ghost use Rattle.roll.specs.Weighing.{large, some, power_of, total_of, proposer, named, most_kiosks, most_power, roll_fits, own_fits, roll_with};

use crate::{Height, Power, Roll, Round};
use words::marks::{EVERY, is_marked, lowest, with_mark, without_lowest};

impl Power {
    // More than two thirds of the total.
    pub fn is_large(self, total: Power) -> bool
        ensures { result ≡ large total.0 self.0 }
    {
        2 * u64::from(total.0) < 3 * u64::from(self.0)
    }

    // More than one third of the total. 01 has two shares with a word for each; with a share as an argument neither would be plainer.
    pub fn is_some(self, total: Power) -> bool
        ensures { result ≡ some total.0 self.0 }
    {
        u64::from(total.0) < 3 * u64::from(self.0)
    }
}

// Of the seats marked, the marks of those whose cell holds the name. No other cell is looked at, so it goes from mark to mark and not by seat.
fn named(marks: u32, names: &[u64], name: u64) -> u32
    requires { most_kiosks ≤ length names.now }
    ensures { (i : ℕ) → marked result i ≡ named marks names.now name i }
{
    let mut found = 0;
    let mut rest = marks;
    while rest != 0 {
        let seat = lowest(rest);
        if names[seat] == name {
            found = with_mark(found, seat);
        }
        rest = without_lowest(rest);
    }
    found
}

impl Roll {
    // 01: at most 32 kiosks, of power 1,000 each, 32,000 together.
    pub const MOST: usize = 32;

    pub const MOST_POWER: u16 = 1000;

    pub const MOST_TOTAL: u32 = 32000;

    // The power of the seats marked.
    #[tactic(auto, using(crate::proofs::Weighing::power_none, words::proofs::MarkLaws::marked_zero), unfolding(crate::specs::Weighing::power_below))]
    pub fn weigh(&self, marks: u32) -> Power
        requires { self.now.kiosks ≤ most_kiosks }
        ensures { result.0 ≡ power_of self.now (λ i. marked marks i) }
    {
        if marks == 0 {
            return Power(0);
        }
        let mut sum = 0;
        for (seat, power) in self.powers[..self.kiosks].iter().enumerate() {
            // No branch on a mark, for marks are as they come: so many seats are weighed at once.
            let power = u32::from(*power);
            sum += if is_marked(marks, seat) { power } else { 0 };
        }
        Power(sum)
    }

    // The power of the seats marked whose cell holds the name.
    pub fn weigh_named(&self, marks: u32, names: &[u64], name: u64) -> Power
        requires { (self.now.kiosks ≤ most_kiosks) × (most_kiosks ≤ length names.now) }
        ensures { result.0 ≡ power_of self.now (λ i. marked marks i && eqb (get_or names.now i 0) name) }
    {
        self.weigh(named(marks, names, name))
    }

    // Whether the seats marked whose cell holds the name are large. The names are read only where all the seats marked are.
    pub fn is_large_named(&self, marks: u32, names: &[u64], name: u64, total: Power) -> bool
        requires { (self.now.kiosks ≤ most_kiosks) × (most_kiosks ≤ length names.now) }
        ensures { result ≡ large total.0 (power_of self.now (λ i. marked marks i && eqb (get_or names.now i 0) name)) }
    {
        self.weigh(marks).is_large(total) && self.weigh_named(marks, names, name).is_large(total)
    }

    // The power of all the kiosks.
    #[tactic(auto, using(crate::proofs::Weighing::power_ext, words::proofs::MarkLaws::every_marked))]
    pub fn total(&self) -> Power
        requires { self.now.kiosks ≤ most_kiosks }
        ensures { result.0 ≡ total_of self.now }
    {
        self.weigh(EVERY)
    }

    // The total of a roll of at most 32 kiosks; a roll of more has none, and 0 stands for it.
    pub fn whole(&self) -> Power
        ensures { self.now.kiosks ≤ most_kiosks → result.0 ≡ total_of self.now }
    {
        if self.kiosks <= Roll::MOST {
            self.total()
        } else {
            Power(0)
        }
    }

    // Whose turn a round is.
    pub fn proposer(&self, r: Round) -> usize
        requires { 0 < self.now.kiosks }
        ensures { result ≡ proposer self.now r.0 }
    {
        (self.height.0 as usize + usize::from(r.0)) % self.kiosks
    }

    // Whether no kiosk has more power than one may have. Without an early return, many are asked at once.
    fn powers_fit(&self) -> bool
        requires { self.now.kiosks ≤ most_kiosks }
        ensures { result ≡ all_below self.now.kiosks (λ i. leb (get_or self.now.powers i 0) most_power) }
    {
        self.powers[..self.kiosks]
            .iter()
            .fold(true, |fit, power| fit & (*power <= Roll::MOST_POWER))
    }

    // Whether this is a roll within 01's numbers, its total known.
    #[tactic(auto, using(crate::proofs::Weighing::fits_else, std::proofs::lemmas::Grind::common_steps), unfolding(crate::specs::Weighing::roll_fits))]
    pub fn fits_with(&self, total: Power) -> bool
        requires { self.now.kiosks ≤ most_kiosks → total.0 ≡ total_of self.now }
        ensures { result ≡ roll_fits self.now }
    {
        (1..=Roll::MOST).contains(&self.kiosks)
            && self.powers_fit()
            && (1..=Roll::MOST_TOTAL).contains(&total.0)
    }

    // Whether this is a roll within 01's numbers.
    pub fn fits(&self) -> bool
        ensures { result ≡ roll_fits self.now }
    {
        self.fits_with(self.whole())
    }

    // Whether the own number is on the roll.
    pub fn own_fits(&self) -> bool
        ensures { result ≡ own_fits self.now }
    {
        self.own < self.kiosks
    }

    // The roll of some powers, one kiosk each.
    pub fn with_powers(powers: &[u16], own: usize, height: Height) -> Roll
        requires { length powers.now ≤ most_kiosks }
        ensures { result ≡ roll_with powers.now own height.0 }
    {
        let mut list = [0; Roll::MOST];
        list[..powers.len()].copy_from_slice(powers);
        Roll {
            kiosks: powers.len(),
            powers: list,
            own,
            height,
        }
    }
}
