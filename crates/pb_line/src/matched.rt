//! Reading values from the matches of a command line.
ghost use Rattle.std.specs.Prelude.{◌≡◌, ◌≢◌, ◌≤◌, ℕ, Option, Some, codes, option_map, IfSome, IsNone, IsSomeAnd, SomeIff};
ghost use Rattle.clap.specs.Words.{first_of, found_of, one_of, rows_of};
ghost use Rattle.pb_inst.specs.declared.limits.TheConstants.{MAX_WORKERS};
ghost use Rattle.pb_read.specs.Format.{format_name};
ghost use Rattle.pb_line.specs.Values.{Spells, SpellsIfGiven};

use crate::formats::format_of;
use clap::ArgMatches;
use pb_inst::Workers;
use pb_read::Format;

/// The text of this name.
pub fn text_of<'a>(matches: &ArgMatches<'a>, name: &str) -> Option<&'a str>
    ensures { option_map (λ text. text.now) result ≡ first_of name.now (rows_of (found_of matches.now)) }
{
    matches.get_str(name)
}

/// The format, where its text is the name of one.
pub fn format_asked(matches: &ArgMatches<'_>) -> Option<Format>
    ensures some { IfSome result (λ format. first_of (codes "format") (rows_of (found_of matches.now)) ≡ Some (format_name format)) }
    ensures none { IsNone result → (format : Format) → first_of (codes "format") (rows_of (found_of matches.now)) ≢ Some (format_name format) }
{
    format_of(text_of(matches, "format")?)
}

/// The number of this name, where its text spells one of 32 bits.
pub fn number_of(matches: &ArgMatches<'_>, name: &str) -> Option<u32>
    ensures some { IfSome result (λ number. IsSomeAnd (one_of name.now (rows_of (found_of matches.now))) (λ text. Spells 32 text number)) }
    ensures only { (number : ℕ) → IsSomeAnd (one_of name.now (rows_of (found_of matches.now))) (λ text. Spells 32 text number) → result ≡ Some number }
{
    matches.get_one::<u32>(name)
}

/// The number of this name, if the line gives one; none at all where its text spells no number of 32 bits.
pub(crate) fn count_if_given(matches: &ArgMatches<'_>, name: &str) -> Option<Option<u32>>
    ensures some { IfSome result (SpellsIfGiven 32 (one_of name.now (rows_of (found_of matches.now)))) }
    ensures none { IsNone result → (number : Option ℕ) → SpellsIfGiven 32 (one_of name.now (rows_of (found_of matches.now))) number → ⊥ }
{
    matches.try_get_one::<u32>(name).ok()
}

/// The number of this name, if the line gives one; none at all where its text spells no number of 64 bits.
pub fn number_if_given(matches: &ArgMatches<'_>, name: &str) -> Option<Option<u64>>
    ensures some { IfSome result (SpellsIfGiven 64 (one_of name.now (rows_of (found_of matches.now)))) }
    ensures none { IsNone result → (number : Option ℕ) → SpellsIfGiven 64 (one_of name.now (rows_of (found_of matches.now))) number → ⊥ }
{
    matches.try_get_one::<u64>(name).ok()
}

/// `count` workers, where `count` is from 1 to `MAX_WORKERS`.
pub fn workers_of(count: u32) -> Option<Workers>
    ensures { SomeIff result ((1 ≤ count) × (count ≤ MAX_WORKERS)) count }
{
    Workers::new(count).ok()
}
