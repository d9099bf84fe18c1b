//! The weather of the nodes that `serve` starts: which of their packets are lost, repeated or
//! delayed.
ghost use Rattle.std.specs.Prelude.{◌≡◌, vec_len, IfOk};

use drawn_weather::DrawnWeather;
use nodes::{Fate, Weather};
use std::alloc::{AllocError, Global};

/// A weather that loses, repeats and delays nothing, or one that is drawn from a seed.
#[derive(Drop)]
pub enum ServedWeather {
    /// Each packet is delivered.
    Clear,
    /// About one packet in four is lost, repeated or delayed.
    Drawn(DrawnWeather),
}

impl Weather for ServedWeather {
    fn turn(&mut self, number: u64) -> Fate {
        match self {
            ServedWeather::Clear => Fate::Pass,
            ServedWeather::Drawn(weather) => weather.turn(number),
        }
    }
}

/// Returns a weather for each of `nodes` nodes. Without a seed all are clear.
pub fn weathers(
    alloc: Global,
    nodes: u8,
    seed: Option<u64>,
) -> Result<Vec<ServedWeather>, AllocError>
    ensures { IfOk result (λ weathers. vec_len weathers ≡ nodes) }
{
    if nodes == 0 {
        return Ok(Vec::new(alloc));
    }
    let mut all = weathers(alloc, nodes - 1, seed)?;
    all.push(weather(nodes - 1, seed))?;
    Ok(all)
}

/// Returns the weather of a node.
fn weather(node: u8, seed: Option<u64>) -> ServedWeather {
    match seed {
        Some(seed) => ServedWeather::Drawn(DrawnWeather::new(seed, node)),
        None => ServedWeather::Clear,
    }
}
