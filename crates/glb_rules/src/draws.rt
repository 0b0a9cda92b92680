//! The choice of a random victim.
ghost use Rattle.std.specs.Prelude.{◌≡◌, ◌≢◌, ◌<◌, ◌≤◌};
ghost use Rattle.glb_rules.specs.Draws.{victim_of};

/// The place that a random word makes `thief` ask: one of the other places.
pub fn victim(word: u32, places: u32, thief: u32) -> u32
    requires places { 2 ≤ places }
    requires thief { thief < places }
    ensures rule { result ≡ victim_of word places thief }
    ensures there { result < places }
    ensures other { result ≢ thief }
{
    let below = (u64::from(word) * u64::from(places - 1)) >> 32;
    let victim = below as u32;
    if victim < thief { victim } else { victim + 1 }
}
