//! The commands, of the arguments that `clap` found.
ghost use Rattle.std.specs.Prelude.{◌≡◌, option_map};
ghost use Rattle.std.specs.Result.{result_ok};
ghost use Rattle.clap.specs.Words.{found_of, rows_of};
ghost use Rattle.siuwbren_words.specs.Asked.{shown_checkin, shown_plan, shown, checkout};
ghost use Rattle.siuwbren_words.specs.Asked.{checkout_by, checkin_by, plan_by, rehearse_by, audit_by, asked_by};

use crate::command::{CheckinWords, CheckoutWords, PlanWords, Subcommand};
use crate::values::{
    Mistake, has_flag, paths_of, plan_form, progress_of, report_form, seed_of, value_of, workers_of,
};
use clap::ArgMatches;

fn checkout_of<'a>(matches: &ArgMatches<'a>) -> Result<Subcommand<'a>, Mistake<'a>>
    ensures { option_map shown (result_ok result) ≡ option_map checkout (checkout_by (rows_of (found_of matches.now))) }
{
    let workers = workers_of(value_of(matches, "workers"))?;
    let form = report_form(value_of(matches, "report"), has_flag(matches, "nul"))?;
    let quiet = has_flag(matches, "quiet");
    let progress = progress_of(
        has_flag(matches, "progress"),
        has_flag(matches, "no-progress"),
        quiet,
    )?;
    let tree = value_of(matches, "tree").ok_or(Mistake::NoTree)?;
    Ok(Subcommand::Checkout(CheckoutWords {
        git_dir: value_of(matches, "git-dir"),
        commit: value_of(matches, "commit"),
        workers,
        form,
        progress,
        quiet,
        journal: value_of(matches, "journal"),
        update_index: has_flag(matches, "update-index"),
        tree,
    }))
}

fn checkin_of<'a>(matches: &ArgMatches<'a>) -> CheckinWords<'a>
    ensures { shown_checkin result ≡ checkin_by (rows_of (found_of matches.now)) }
{
    CheckinWords {
        git_dir: value_of(matches, "git-dir"),
        allow_empty: has_flag(matches, "allow-empty"),
        update_index: has_flag(matches, "update-index"),
        tree: value_of(matches, "tree"),
    }
}

fn plan_of<'a>(matches: &ArgMatches<'a>) -> Result<PlanWords<'a>, Mistake<'a>>
    ensures { option_map shown_plan (result_ok result) ≡ plan_by (rows_of (found_of matches.now)) }
{
    let commit = value_of(matches, "commit");
    let form = plan_form(value_of(matches, "report"), has_flag(matches, "nul"))?;
    Ok(PlanWords {
        git_dir: value_of(matches, "git-dir"),
        commit,
        form,
    })
}

fn rehearsal_of<'a>(matches: &ArgMatches<'a>) -> Result<Subcommand<'a>, Mistake<'a>>
    ensures { option_map shown (result_ok result) ≡ rehearse_by (rows_of (found_of matches.now)) }
{
    let seed = seed_of(value_of(matches, "seed"))?;
    let paths = paths_of(value_of(matches, "paths"))?;
    Ok(Subcommand::Rehearse { seed, paths })
}

fn audit_of<'a>(matches: &ArgMatches<'a>) -> Result<Subcommand<'a>, Mistake<'a>>
    ensures { option_map shown (result_ok result) ≡ audit_by (rows_of (found_of matches.now)) }
{
    let file = value_of(matches, "file").ok_or(Mistake::NoFile)?;
    Ok(Subcommand::Audit { file })
}

/// The command of that name with these arguments.
pub fn command_of<'a>(name: &str, matches: &ArgMatches<'a>) -> Result<Subcommand<'a>, Mistake<'a>>
    ensures { option_map shown (result_ok result) ≡ asked_by name.now (rows_of (found_of matches.now)) }
{
    match name {
        "checkout" => checkout_of(matches),
        "checkin" => Ok(Subcommand::Checkin(checkin_of(matches))),
        "plan" => Ok(Subcommand::Plan(plan_of(matches)?)),
        "rehearse" => rehearsal_of(matches),
        "audit" => audit_of(matches),
        _ => Err(Mistake::NoCommand),
    }
}
