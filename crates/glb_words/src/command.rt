//! The clap command of a job, and its matches.
ghost use Rattle.std.specs.Prelude.{◌≡◌, false, map, Ok, IfOk, IfErr, Bool};
ghost use Rattle.clap.specs.Words.{rule_of as clap_rule_of, kind_of as error_kind, app_of};
ghost use Rattle.clap.specs.Words.{HasMatchesOf};
ghost use Rattle.glb_words.specs.Words.{Given, texts_of, read_words};
ghost use Rattle.glb_words.specs.Commands.{arg_for, with_numbers, with_options, app_for};
ghost use Rattle.glb_words.specs.inner.Forms.{form_rule_of, field_rule_of, rule_of};

use super::forms::{Field, Form, JobForm};
use clap::error::ErrorKind;
use clap::{Arg, ArgAction, ArgMatches, Command, Error};
use std::alloc::{AllocError, Global};

fn option_arg<'a>(alloc: Global, field: Field) -> Arg<'a>
    ensures rule { clap_rule_of result ≡ arg_for (form_rule_of field.form) field.name.now }
    ensures local { result.global ≡ false }
{
    let arg = Arg::new(alloc, field.name).long(field.name);
    match field.form {
        Form::Flag => arg.action(ArgAction::SetTrue),
        Form::Number(_, _, _) => arg,
        Form::Choice(_) => arg,
    }
}

fn add_numbers<'a>(
    alloc: Global,
    start: Command<'a>,
    numbers: &'static [Field],
) -> Result<Command<'a>, AllocError>
    ensures { IfOk result (λ c.
        app_of c ≡ with_numbers (app_of start.entry) (map field_rule_of numbers.entry.now)) }
{
    let mut command = start;
    for field in numbers {
        command = command.arg(Arg::new(alloc, field.name))?;
    }
    Ok(command)
}

fn add_options<'a>(
    alloc: Global,
    start: Command<'a>,
    options: &'static [Field],
) -> Result<Command<'a>, AllocError>
    ensures { IfOk result (λ c.
        app_of c ≡ with_options (app_of start.entry) (map field_rule_of options.entry.now)) }
{
    let mut command = start;
    for field in options {
        command = command.arg(option_arg(alloc, *field))?;
    }
    Ok(command)
}

fn command_for<'a>(alloc: Global, form: JobForm) -> Result<Command<'a>, AllocError>
    ensures { IfOk result (λ c. app_of c ≡ app_for (rule_of form)) }
{
    let command = Command::new(alloc, form.name);
    let command = add_numbers(alloc, command, form.numbers)?;
    add_options(alloc, command, form.options)
}

/// The matches of the words. Where these are read without a fault, only memory can be wanting.
pub(crate) fn parse<'a>(
    alloc: Global,
    form: JobForm,
    words: &'a [String],
) -> Result<ArgMatches<'a>, Error>
    ensures ok { IfOk result (HasMatchesOf (app_for (rule_of form)) (texts_of words.entry.now)) }
    ensures err { (calm : Bool) (given : Given) →
        read_words calm (texts_of words.entry.now) ≡ Ok (rule_of form, given)
        → IfErr result (λ e. error_kind e ≡ ErrorKind.OutOfMemory) }
{
    let command = command_for(alloc, form)?;
    command.try_get_matches_from(words)
}
