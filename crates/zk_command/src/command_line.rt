// The command line, as clap has it.

ghost use Rattle.std.specs.Prelude.{◌≡◌, IfOk, false, map};
ghost use Rattle.clap.specs.Words.{App, app_of, rule_of, with_rule};
ghost use Rattle.clap.specs.declared.Command.TheViews.{out-Command as fields_of};
ghost use Rattle.zk_command.specs.CommandLine.{command_line, file_argument, named_option, number_rule, option_rule};
ghost use Rattle.zk_command.specs.CommandLine.{section_rule, story_argument, table_command, with_rules, with_tables};

use crate::options::{COMMANDS, CommandOption, CommandTable, NumberOption};
use clap::{Arg, ArgAction, Command};
use std::alloc::{AllocError, Global};
use zk_inspect::section::Section;

/// An option by its name, as clap has it.
fn option_named<'a>(alloc: Global, name: &'a str, help: &'a str) -> Arg<'a>
    ensures rule { rule_of result ≡ named_option name.now }
    ensures local { result.global ≡ false }
{
    Arg::new(alloc, name).long(name).help(help)
}

/// The path of a file, which has to be given, as clap has it.
fn path_named<'a>(alloc: Global, name: &'a str, help: &'a str) -> Arg<'a>
    ensures rule { rule_of result ≡ file_argument name.now }
    ensures local { result.global ≡ false }
{
    Arg::new(alloc, name).required(true).help(help)
}

/// An option with a number, as clap has it.
fn number_option_of<'a>(alloc: Global, number: NumberOption) -> Arg<'a>
    ensures rule { rule_of result ≡ number_rule number }
    ensures local { result.global ≡ false }
{
    let arg = option_named(alloc, number.name, number.help).value_name("n");
    match number.default {
        Some(default) => arg.default_value(default),
        None => arg,
    }
}

/// The path of the story.
fn story_argument_of<'a>(alloc: Global) -> Arg<'a>
    ensures rule { rule_of result ≡ story_argument }
    ensures local { result.global ≡ false }
{
    Arg::new(alloc, "STORY")
        .required(true)
        .help("The story's file, of version 3, 4, 5 or 8")
}

/// An option, or a path, as clap has it.
fn option_of<'a>(alloc: Global, option: CommandOption) -> Arg<'a>
    ensures rule { rule_of result ≡ option_rule option }
    ensures local { result.global ≡ false }
{
    match option {
        CommandOption::Number(number) => number_option_of(alloc, number),
        CommandOption::Value { name, value, help } => {
            option_named(alloc, name, help).value_name(value)
        }
        CommandOption::Values { name, value, help } => option_named(alloc, name, help)
            .action(ArgAction::Append)
            .value_name(value),
        CommandOption::Flag { name, help } => {
            option_named(alloc, name, help).action(ArgAction::SetTrue)
        }
        CommandOption::Path { name, help } => path_named(alloc, name, help),
        CommandOption::Story => story_argument_of(alloc),
        CommandOption::Stories => story_argument_of(alloc).action(ArgAction::Append),
        CommandOption::Walkthroughs => {
            let help = "A walkthrough's file, or a folder of them";
            path_named(alloc, "STORY", help)
                .action(ArgAction::Append)
                .value_name("PATH")
        }
        CommandOption::Covers => {
            let help = "Coverage files, and then the story's file";
            path_named(alloc, "STORY", help)
                .action(ArgAction::Append)
                .value_name("FILE")
        }
    }
}

/// A command with an argument as well. Arguments are made and added one by one, so that none waits where there is no
/// memory for another.
fn with_arg<'a>(command: Command<'a>, arg: Arg<'a>) -> Result<Command<'a>, AllocError>
    requires local { (fields_of command).has_globals ≡ false }
    requires arg_local { arg.global ≡ false }
    ensures shape { IfOk result
        (λ c. app_of c ≡ with_rule (app_of command.entry) (rule_of arg.entry)) }
    ensures local { IfOk result (λ c. (fields_of c).has_globals ≡ false) }
{
    command.arg(arg)
}

/// The flag of a section, as clap has it.
fn section_option_of<'a>(alloc: Global, section: Section) -> Arg<'a>
    ensures rule { rule_of result ≡ section_rule section }
    ensures local { result.global ≡ false }
{
    let (name, help): (&'a str, &'a str) = (section.name(), section.help());
    option_named(alloc, name, help).action(ArgAction::SetTrue)
}

/// A command with the flags of sections as well.
fn with_sections<'a>(
    alloc: Global,
    command: Command<'a>,
    sections: &[Section],
) -> Result<Command<'a>, AllocError>
    requires { (fields_of command).has_globals ≡ false }
    ensures shape { IfOk result
        (λ c. app_of c ≡ with_rules (app_of command.entry) (map section_rule sections.now)) }
    ensures local { IfOk result (λ c. (fields_of c).has_globals ≡ false) }
{
    let mut command = command;
    for section in sections {
        command = with_arg(command, section_option_of(alloc, *section))?;
    }
    Ok(command)
}

/// A command with its options and paths.
pub(crate) fn command_of<'a>(alloc: Global, table: CommandTable) -> Result<Command<'a>, AllocError>
    ensures shape { IfOk result (λ c. app_of c ≡ table_command table) }
    ensures local { IfOk result (λ c. (fields_of c).has_globals ≡ false) }
{
    let command = Command::new(alloc, table.name)
        .about(table.about)
        .after_help(table.example);
    let mut command = with_sections(alloc, command, table.sections)?;
    for option in table.options {
        command = with_arg(command, option_of(alloc, *option))?;
    }
    Ok(command)
}

/// A command line with commands as well. Commands are made and added one by one, so that none waits where there is no
/// memory for another.
fn with_commands<'a>(
    alloc: Global,
    line: Command<'a>,
    tables: &[CommandTable],
) -> Result<Command<'a>, AllocError>
    ensures { IfOk result (λ c. (a : App) → app_of line.entry ≡ a
        → app_of c ≡ with_tables a tables.now) }
{
    let mut line = line;
    for table in tables {
        let command = command_of(alloc, *table)?;
        line = line.subcommand(command)?;
    }
    Ok(line)
}

/// zkit's command line.
pub(crate) fn command_line_of<'a>(alloc: Global) -> Result<Command<'a>, AllocError>
    ensures { IfOk result (λ c. app_of c ≡ command_line) }
{
    let line = Command::new(alloc, "zkit")
        .about("Plays, lists and checks Z-machine stories")
        .version("0.1.0")
        .after_help("Example: zkit play story.z5")
        .subcommand_required(true);
    with_commands(alloc, line, &COMMANDS)
}
