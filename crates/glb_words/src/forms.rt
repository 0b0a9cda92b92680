//! The table of jobs: which numbers, options and flags each takes, a row for each. The definition
//! of the command words has the same table.

/// A job, by its name alone.
#[derive(Clone, Copy, Debug, PartialEq, Eq)]
pub(crate) enum JobName {
    Queens,
    Uts,
    Dist,
    Trial,
    Knap,
}

/// What the text of a value may be: a number from the first to the second, where the third stands
/// for one that was not given; one of some names; or nothing.
#[derive(Clone, Copy)]
pub(crate) enum Form {
    Number(u64, u64, u64),
    Choice(&'static [&'static str]),
    Flag,
}

/// A number of a job, an option or a flag. Names are distinct within a job.
#[derive(Clone, Copy)]
pub(crate) struct Field {
    pub(crate) name: &'static str,
    pub(crate) form: Form,
}

/// A job: its numbers in order, and its options.
#[derive(Clone, Copy)]
pub(crate) struct JobForm {
    pub(crate) job: JobName,
    pub(crate) name: &'static str,
    pub(crate) numbers: &'static [Field],
    pub(crate) options: &'static [Field],
}

pub(crate) const PLACES: Field = Field {
    name: "places",
    form: Form::Number(1, 64, 4),
};

pub(crate) const BATCH: Field = Field {
    name: "batch",
    form: Form::Number(1, 1 << 16, 64),
};

pub(crate) const TRIES: Field = Field {
    name: "tries",
    form: Form::Number(0, 64, 1),
};

pub(crate) const BASE: Field = Field {
    name: "base",
    form: Form::Number(2, 64, 2),
};

pub(crate) const SEED: Field = Field {
    name: "seed",
    form: Form::Number(0, u64::MAX, 0),
};

pub(crate) const LIMIT: Field = Field {
    name: "limit",
    form: Form::Number(1, 1 << 40, 1 << 40),
};

const DRIVERS: [&'static str; 3] = ["one", "turns", "threads"];

pub(crate) const DRIVER: Field = Field {
    name: "driver",
    form: Form::Choice(&DRIVERS),
};

const FABRICS: [&'static str; 2] = ["inbox", "cells"];

pub(crate) const FABRIC: Field = Field {
    name: "fabric",
    form: Form::Choice(&FABRICS),
};

pub(crate) const STATS: Field = Field {
    name: "stats",
    form: Form::Flag,
};

pub(crate) const SPREAD: Field = Field {
    name: "spread",
    form: Form::Flag,
};

/// The options of a job that has a tree.
const RUN_OPTIONS: [Field; 10] = [
    PLACES, BATCH, TRIES, BASE, SEED, LIMIT, DRIVER, FABRIC, STATS, SPREAD,
];

pub(crate) const QUEENS_N: Field = Field {
    name: "n",
    form: Form::Number(1, 16, 1),
};

const QUEENS_NUMBERS: [Field; 1] = [QUEENS_N];

const QUEENS: JobForm = JobForm {
    job: JobName::Queens,
    name: "queens",
    numbers: &QUEENS_NUMBERS,
    options: &RUN_OPTIONS,
};

pub(crate) const UTS_B0: Field = Field {
    name: "b0",
    form: Form::Number(0, 100000, 0),
};

pub(crate) const UTS_M: Field = Field {
    name: "m",
    form: Form::Number(0, 16, 0),
};

pub(crate) const UTS_Q: Field = Field {
    name: "q",
    form: Form::Number(0, 1 << 31, 0),
};

pub(crate) const UTS_SEED: Field = Field {
    name: "root_seed",
    form: Form::Number(0, (1 << 32) - 1, 0),
};

const UTS_NUMBERS: [Field; 4] = [UTS_B0, UTS_M, UTS_Q, UTS_SEED];

const UTS: JobForm = JobForm {
    job: JobName::Uts,
    name: "uts",
    numbers: &UTS_NUMBERS,
    options: &RUN_OPTIONS,
};

const DIST: JobForm = JobForm {
    job: JobName::Dist,
    name: "dist",
    numbers: &[],
    options: &RUN_OPTIONS,
};

pub(crate) const TRIAL_K: Field = Field {
    name: "k",
    form: Form::Number(0, (1 << 32) - 1, 0),
};

const TRIAL_NUMBERS: [Field; 1] = [TRIAL_K];

const TRIAL: JobForm = JobForm {
    job: JobName::Trial,
    name: "trial",
    numbers: &TRIAL_NUMBERS,
    options: &RUN_OPTIONS,
};

/// The options of a job that is a search.
const SEARCH_OPTIONS: [Field; 3] = [PLACES, LIMIT, DRIVER];

const KNAP: JobForm = JobForm {
    job: JobName::Knap,
    name: "knap",
    numbers: &[],
    options: &SEARCH_OPTIONS,
};

/// The jobs that are built.
pub(crate) const JOBS: [JobForm; 5] = [QUEENS, UTS, DIST, TRIAL, KNAP];
