//! The numbers and the flags among the values of a command line.
ghost use Rattle.clap.specs.Words.{found_of, one_of, rows_of};
ghost use Rattle.command_line.specs.rule.Words.{IsFlagOf, IsNumberOf, MayBeNumberOf};

use clap::ArgMatches;

/// The greatest seed, and the greatest number of an entry or of tables.
pub(crate) const GREATEST_SEED: u32 = u32::MAX;

/// How many tables of a file are looked at where that is left out.
pub(crate) const DEFAULT_STEPS: u32 = 10_000_000;

// The number from the least to the greatest that the argument has; none where it has no such number.
pub(crate) fn number_in(values: &ArgMatches<'_>, id: &str, least: u32, greatest: u32) -> Option<u32>
    ensures { IsNumberOf least greatest (one_of id.now (rows_of (found_of values.now))) result }
{
    let number = values.get_one::<u32>(id)?;
    if least <= number && number <= greatest {
        Some(number)
    } else {
        None
    }
}

// The number from the least to the greatest that the argument has, if it has a value; none where its value is no such number.
pub(crate) fn number_if_given(
    values: &ArgMatches<'_>,
    id: &str,
    least: u32,
    greatest: u32,
) -> Option<Option<u32>>
    ensures { MayBeNumberOf least greatest (one_of id.now (rows_of (found_of values.now))) result }
{
    match values.get_str(id) {
        None => Some(None),
        Some(_) => {
            let number = number_in(values, id, least, greatest)?;
            Some(Some(number))
        }
    }
}

// Whether the flag is given; none where the argument is no flag.
pub(crate) fn flag_in(values: &ArgMatches<'_>, id: &str) -> Option<bool>
    ensures { IsFlagOf (one_of id.now (rows_of (found_of values.now))) result }
{
    values.get_one::<bool>(id)
}
