//! What the words of the command order.
ghost use Rattle.std.specs.Prelude.{◌≡◌, ◌<◌, ◌^◌, length, Ok, IfOk, IfErr};
ghost use Rattle.glb_words.specs.Words.{texts_of};
ghost use Rattle.glb_words.specs.OrderFaults.{IsFaultOf};
ghost use Rattle.glb_words.specs.Settings.{SettingsFit, IsCalmIf};
ghost use Rattle.glb_run.specs.Orders.{order_of, read_order, IsOrderOfClap, OrderFits};

use glb_core::Params;
use glb_words::{Driver, FabricKind, Job, OrderFault, Settings, read_settings};
use std::alloc::Global;

/// What is run, and how.
#[derive(Clone, Copy, Debug, PartialEq, Eq)]
pub struct Order {
    pub job: Job,
    pub params: Params,
    pub driver: Driver,
    pub fabric: FabricKind,
    pub stats: bool,
    pub spread: bool,
}

fn order_of(settings: Settings) -> Order
    requires { SettingsFit settings }
    ensures order { result ≡ order_of settings }
    ensures fits { OrderFits result }
{
    Order {
        job: settings.job,
        params: Params {
            places: settings.places,
            batch: settings.batch,
            tries: settings.tries,
            base: settings.base,
            seed: settings.seed,
            limit: settings.limit,
        },
        driver: settings.driver,
        fabric: settings.fabric,
        stats: settings.stats,
        spread: settings.spread,
    }
}

/// Reads the words of the command, or tells their first fault. `calm` refuses threads.
pub fn read_words(alloc: Global, words: &[String], calm: bool) -> Result<Order, OrderFault>
    requires { length words.now < 2 ^ 32 }
    ensures ok { IfOk result (λ order. read_order calm (texts_of words.now) ≡ Ok order) }
    ensures fits { IfOk result OrderFits }
    ensures calm { IfOk result (λ order. IsCalmIf calm order.driver) }
    ensures clap { IfOk result (IsOrderOfClap calm (texts_of words.now)) }
    ensures fault { IfErr result (IsFaultOf (read_order calm (texts_of words.now))) }
{
    match read_settings(alloc, words, calm) {
        Ok(settings) => Ok(order_of(settings)),
        Err(fault) => Err(fault),
    }
}
