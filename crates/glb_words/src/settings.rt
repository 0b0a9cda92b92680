//! What the words ask for. The values are those of the matches of the job's clap command.
ghost use Rattle.std.specs.Prelude.{◌≡◌, ◌<◌, ◌≤◌, ◌^◌, length, Ok, Err, IfOk, IfErr};
ghost use Rattle.clap.specs.Words.{first_value, found_of};
ghost use Rattle.glb_words.specs.Rules.{driver_rule, fabric_rule, numbers_of};
ghost use Rattle.glb_words.specs.Words.{texts_of};
ghost use Rattle.glb_words.specs.OrderFaults.{IsFaultOf};
ghost use Rattle.glb_words.specs.Settings.{number_by, default_of, most_of, driver_or_one, is_on};
ghost use Rattle.glb_words.specs.Settings.{fabric_or_cells, IsCalmIf};
ghost use Rattle.glb_words.specs.Settings.{job_by, settings_by, IsIn, JobFits, SettingsFit};
ghost use Rattle.glb_words.specs.Settings.{read_settings as settings_read};
ghost use Rattle.glb_words.specs.Commands.{IsFromClap};
ghost use Rattle.glb_words.specs.inner.Forms.{form_rule_of, field_rule_of};
ghost use Rattle.glb_words.specs.inner.Ranges.{ValueFits, AllFit, ValuesFit};

use super::command::parse;
use super::fault::OrderFault;
use super::forms::{
    BASE, BATCH, DRIVER, FABRIC, Field, Form, JobName, LIMIT, PLACES, QUEENS_N, SEED, SPREAD,
    STATS, TRIAL_K, TRIES, UTS_B0, UTS_M, UTS_Q, UTS_SEED,
};
use super::reader::{number_in, read_values};
use clap::ArgMatches;
use std::alloc::Global;

/// A job with its numbers.
#[derive(Clone, Copy, Debug, PartialEq, Eq)]
pub enum Job {
    /// Placements of `n` queens.
    Queens { n: u32 },
    /// A binomial tree: `b0` children of the root, `m` or none of every other node, `m` with
    /// probability `q` / 2^31.
    Uts { b0: u32, m: u32, q: u32, seed: u32 },
    /// Distances in the graph that the source gives.
    Dist,
    /// A binomial tree and the distances in a graph, both made from `k`.
    Trial { k: u32 },
    /// The best choice for the knapsack that the source gives.
    Knap,
}

/// What runs a job.
#[derive(Clone, Copy, Debug, PartialEq, Eq)]
pub enum Driver {
    /// One bag.
    One,
    /// Places that take turns on one thread.
    Turns,
    /// Places on threads.
    Threads,
}

/// What the places of a run in threads share.
#[derive(Clone, Copy, Debug, PartialEq, Eq)]
pub enum FabricKind {
    /// An inbox for each place.
    Inbox,
    /// A word and a slot for each edge.
    Cells,
}

/// What the words ask for. An option that was not given has its default.
#[derive(Clone, Copy, Debug, PartialEq, Eq)]
pub struct Settings {
    pub job: Job,
    pub places: u32,
    pub batch: u64,
    pub tries: u32,
    pub base: u32,
    pub seed: u64,
    pub limit: u64,
    pub driver: Driver,
    pub fabric: FabricKind,
    pub stats: bool,
    pub spread: bool,
}

/// The number of a field, or its default.
fn number_of(matches: &ArgMatches<'_>, field: Field) -> u64
    requires value { ValueFits (field_rule_of field) (first_value (found_of matches.now)) }
    requires default { IsIn (field_rule_of field) (default_of (form_rule_of field.form)) }
    ensures number { result ≡ number_by (field_rule_of field) (first_value (found_of matches.now)) }
    ensures within { IsIn (field_rule_of field) result }
{
    let default = match field.form {
        Form::Number(_, _, default) => default,
        _ => 0,
    };
    match matches.get_str(field.name) {
        Some(text) => match number_in(text) {
            Some(n) => n,
            None => default,
        },
        None => default,
    }
}

/// The same, of a range below 2^32.
fn small_number_of(matches: &ArgMatches<'_>, field: Field) -> u32
    requires value { ValueFits (field_rule_of field) (first_value (found_of matches.now)) }
    requires default { IsIn (field_rule_of field) (default_of (form_rule_of field.form)) }
    requires small { most_of (form_rule_of field.form) < 2 ^ 32 }
    ensures number { result ≡ number_by (field_rule_of field) (first_value (found_of matches.now)) }
    ensures within { IsIn (field_rule_of field) result }
{
    number_of(matches, field) as u32
}

/// The flag was given.
fn flag_of(matches: &ArgMatches<'_>, field: Field) -> bool
    ensures { result ≡ is_on (first_value (found_of matches.now) field.name.now) }
{
    match matches.get_str(field.name) {
        Some(text) => text == "true",
        None => false,
    }
}

/// The job with its numbers.
fn job_of(job: JobName, matches: &ArgMatches<'_>) -> Job
    requires { AllFit (numbers_of job) (first_value (found_of matches.now)) }
    ensures job { result ≡ job_by job (first_value (found_of matches.now)) }
    ensures fits { JobFits result }
{
    match job {
        JobName::Queens => Job::Queens {
            n: small_number_of(matches, QUEENS_N),
        },
        JobName::Uts => Job::Uts {
            b0: small_number_of(matches, UTS_B0),
            m: small_number_of(matches, UTS_M),
            q: small_number_of(matches, UTS_Q),
            seed: small_number_of(matches, UTS_SEED),
        },
        JobName::Dist => Job::Dist,
        JobName::Trial => Job::Trial {
            k: small_number_of(matches, TRIAL_K),
        },
        JobName::Knap => Job::Knap,
    }
}

/// The driver, or that of one bag.
fn driver_of(matches: &ArgMatches<'_>) -> Driver
    ensures { result ≡ driver_or_one (first_value (found_of matches.now) driver_rule.name) }
{
    match matches.get_str(DRIVER.name) {
        Some(text) => {
            if text == "turns" {
                Driver::Turns
            } else if text == "threads" {
                Driver::Threads
            } else {
                Driver::One
            }
        }
        None => Driver::One,
    }
}

/// The fabric, or that of cells.
fn fabric_of(matches: &ArgMatches<'_>) -> FabricKind
    ensures { result ≡ fabric_or_cells (first_value (found_of matches.now) fabric_rule.name) }
{
    match matches.get_str(FABRIC.name) {
        Some(text) => {
            if text == "inbox" {
                FabricKind::Inbox
            } else {
                FabricKind::Cells
            }
        }
        None => FabricKind::Cells,
    }
}

/// The settings of matches whose numbers are in their ranges.
fn settings_of(job: JobName, matches: &ArgMatches<'_>) -> Settings
    requires { ValuesFit job (first_value (found_of matches.now)) }
    ensures settings { result ≡ settings_by job (first_value (found_of matches.now)) }
    ensures fit { SettingsFit result }
{
    Settings {
        job: job_of(job, matches),
        places: small_number_of(matches, PLACES),
        batch: number_of(matches, BATCH),
        tries: small_number_of(matches, TRIES),
        base: small_number_of(matches, BASE),
        seed: number_of(matches, SEED),
        limit: number_of(matches, LIMIT),
        driver: driver_of(matches),
        fabric: fabric_of(matches),
        stats: flag_of(matches, STATS),
        spread: flag_of(matches, SPREAD),
    }
}

/// Reads the words. Words without a fault are words that the job's clap command takes, and the
/// settings have the values of its matches.
pub fn read_settings(alloc: Global, words: &[String], calm: bool) -> Result<Settings, OrderFault>
    requires { length words.now < 2 ^ 32 }
    ensures ok { IfOk result (λ s. settings_read calm (texts_of words.now) ≡ Ok s) }
    ensures fit { IfOk result SettingsFit }
    ensures calm { IfOk result (λ s. IsCalmIf calm s.driver) }
    ensures clap { IfOk result (IsFromClap calm (texts_of words.now)) }
    ensures fault { IfErr result (IsFaultOf (settings_read calm (texts_of words.now))) }
{
    let values = read_values(alloc, words, calm)?;
    let matches = match parse(alloc, values.form, words) {
        Ok(matches) => matches,
        Err(_) => return Err(OrderFault::NoMemory),
    };
    Ok(settings_of(values.form.job, &matches))
}
