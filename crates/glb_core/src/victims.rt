//! The words from which a place draws its victims.
ghost use Rattle.std.specs.Prelude.{◌<◌};
ghost use Rattle.glb_core.specs.Victims.{FirstVictim};

use crate::victim;
use rand_core::utils::NextWord;
use rand_pcg::Pcg32;

/// The first random victim, which is drawn only where there is another place.
pub fn first_victim(words: &mut Pcg32, places: u32, place: u32) -> u32
    requires { place < places }
    ensures { FirstVictim places place words.old words.new result }
{
    if places > 1 {
        victim(words.next_word(), places, place)
    } else {
        0
    }
}
