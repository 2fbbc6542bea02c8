ghost use Rattle.std.specs.Prelude.{◌≡◌, IfOk, map, string_bytes, false};
ghost use Rattle.std.specs.Option.{option_map};
ghost use Rattle.std.specs.List.{list_any};
ghost use Rattle.clap.specs.Words.{app_of, rule_of};
ghost use Rattle.command_line.specs.Places.{command_read, is_other_option, option_rule, placed_of, values_found, with_places};

use clap::error::ErrorKind;
use clap::{Arg, ArgAction, ArgMatches, Command};
use ctss_types::NoMemory;
use std::alloc::Global;

/// An option with a value.
fn option_with_value<'a>(alloc: Global, id: &'a str, name: &'a str) -> Arg<'a>
    ensures rule { rule_of result ≡ option_rule id.now name.now }
    ensures local { result.global ≡ false }
{
    Arg::new(alloc, id).long(name).action(ArgAction::Set)
}

/// The two places: what is to be done, and a number that may stand behind it.
fn places<'a>(alloc: Global) -> Result<Command<'a>, NoMemory>
    ensures { IfOk result (λ c. app_of c ≡ with_places) }
{
    let mode = Arg::new(alloc, "MODE").required(true);
    let number = Arg::new(alloc, "NUMBER");
    let command = Command::new(alloc, "ctss")
        .no_binary_name(true)
        .disable_help_flag(true)
        .arg(mode)?
        .arg(number)?;
    Ok(command)
}

/// The command: its two places, and the two options of `serve`.
fn command<'a>(alloc: Global) -> Result<Command<'a>, NoMemory>
    ensures { IfOk result (λ c. app_of c ≡ command_read) }
{
    let port = option_with_value(alloc, "PORT", "port");
    let turns = option_with_value(alloc, "TURNS", "turns");
    let command = places(alloc)?.arg(port)?.arg(turns)?;
    Ok(command)
}

/// What stands at the places of the command and behind its options, if the words are lawful.
pub(crate) fn matches_of<'a>(
    alloc: Global,
    words: &'a [String],
) -> Result<Option<ArgMatches<'a>>, NoMemory>
    requires { list_any is_other_option (map string_bytes words.now) ≡ false }
    ensures { IfOk result (λ m. option_map values_found m ≡ placed_of (map string_bytes words.now)) }
{
    match command(alloc)?.try_get_matches_from(words) {
        Ok(matches) => Ok(Some(matches)),
        Err(error) => match error.kind() {
            ErrorKind::OutOfMemory => Err(NoMemory),
            _ => Ok(None),
        },
    }
}
