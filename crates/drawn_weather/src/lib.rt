//! A weather that a random number generator draws from a seed.
//!
//! Agreement holds in any weather, so no clause says which fates are drawn.
#![tactic(auto)]

use nodes::{Fate, Weather};
use rand_core::utils::NextWord;
use rand_pcg::Pcg32;

/// How many numbers a fate is drawn from. `Drop`, `Twice` and `Later` have one number each, and
/// `Pass` has the other nine.
const DRAW_RANGE: u32 = 12;

/// A weather that loses, repeats or delays about one hint in four, chosen by a generator.
#[derive(Drop)]
pub struct DrawnWeather {
    generator: Pcg32,
}

impl DrawnWeather {
    /// Creates the weather of a node. Weathers with the same seed and node draw the same fates;
    /// each node has its own stream of the generator.
    pub fn new(seed: u64, node: u8) -> DrawnWeather {
        DrawnWeather {
            generator: Pcg32::new(seed, u64::from(node)),
        }
    }
}

impl Weather for DrawnWeather {
    fn turn(&mut self, _number: u64) -> Fate {
        match self.generator.next_word() % DRAW_RANGE {
            0 => Fate::Drop,
            1 => Fate::Twice,
            2 => Fate::Later,
            _ => Fate::Pass,
        }
    }
}

#[cfg(test)]
mod tests {
    use super::DrawnWeather;
    use nodes::{Fate, Weather};

    #[test]
    fn draws_each_fate(rt: HostRuntime) {
        let mut weather = DrawnWeather::new(7, 0);
        let mut lost = false;
        let mut repeated = false;
        let mut delayed = false;
        let mut passed = 0u32;
        for number in 0..1200u64 {
            match weather.turn(number) {
                Fate::Pass => passed = passed.saturating_add(1),
                Fate::Drop => lost = true,
                Fate::Twice => repeated = true,
                Fate::Later => delayed = true,
            }
        }
        assert!(rt; lost && repeated && delayed);
        assert!(rt; passed > 800 && passed < 1000);
    }
}
