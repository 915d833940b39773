//! Statistics, as people read them and as tools do.

ghost use Rattle.std.specs.Prelude.{◌≡◌, ◌*◌, ◌/◌, IfSome};

use crate::error::OptionError;
use crate::help::line_of;
use cache_dir::kept_in;
use cache_statistics::{
    Counts, HITS, MISSES, PASSED, REMOTE, ZEROED, counts_at, is_error, is_passed, updated_at,
};
use std::alloc::Global;
use std::rt::Files;

/// What was counted, and what is kept.
#[derive(Drop)]
pub struct Statistics {
    counts: Counts,
    updated: u64,
    files: usize,
    bytes: u64,
}

impl Statistics {
    /// Those of the folder of this path.
    pub fn read<R: Files + AllocGlobal + Clone + Drop>(
        rt: &R,
        kept: &str,
    ) -> Result<Statistics, OptionError> {
        let counts = counts_at(rt, kept)?;
        let updated = updated_at(rt, kept)?;
        let (files, bytes) = kept_in(rt, kept)?;
        Ok(Statistics {
            counts,
            updated,
            files,
            bytes,
        })
    }

    /// The sum of the numbers of these names.
    fn sum_of(&self, names: &[&str]) -> u64 {
        let mut sum = 0u64;
        for name in names {
            sum = sum.saturating_add(self.counts.number_of(name));
        }
        sum
    }

    /// The names of calls that were passed through, or of failures on this side, with their numbers, in falling order.
    fn rows(&self, alloc: Global, errors: bool) -> Result<Vec<(&str, u64)>, OptionError> {
        let mut rows = Vec::new(alloc);
        for name in self.counts.names(alloc)? {
            let wanted = if errors {
                is_error(name)
            } else {
                is_passed(name)
            };
            if wanted {
                rows.push((name, self.counts.number_of(name)))?;
            }
        }
        rows.as_mut_slice()
            .sort_unstable_by(|one, other| other.1.cmp(&one.1));
        Ok(rows)
    }
}

/// The sum of these numbers.
fn total_of(rows: &[(&str, u64)]) -> u64 {
    let mut total = 0u64;
    for (_, number) in rows {
        total = total.saturating_add(*number);
    }
    total
}

/// A share of all in hundredths of a percent; nothing where there is nothing.
fn hundredths(part: u64, all: u64) -> Option<u64>
    ensures { IfSome result (λ share. share ≡ part * 10000 / all) }
{
    part.checked_mul(10_000)?.checked_div(all)
}

/// Prints a number with its share of all.
fn print_share<R: Print>(rt: &R, name: &str, part: u64, all: u64) -> Result<(), OptionError> {
    match hundredths(part, all) {
        Some(share) => {
            let whole = share / 100;
            let rest = share % 100;
            println!(rt; "{name:<24}{part:>8} / {all} ({whole}.{rest:02} %)")?;
        }
        None => println!(rt; "{name:<24}{part:>8} / {all}")?,
    }
    Ok(())
}

/// Prints a row of a name and its number.
fn print_row<R: Print>(rt: &R, name: &str, number: u64) -> Result<(), OptionError> {
    println!(rt; "  {name:<40}{number:>8}")?;
    Ok(())
}

/// Prints rows of names and numbers.
fn print_rows<R: Print>(rt: &R, rows: &[(&str, u64)]) -> Result<(), OptionError> {
    for (name, number) in rows {
        print_row(rt, name, *number)?;
    }
    Ok(())
}

/// Prints the number of calls that were passed through, or of failures on this side, and of each name among these.
fn print_kind<R: Print + AllocGlobal>(
    rt: &R,
    statistics: &Statistics,
    name: &str,
    errors: bool,
) -> Result<(), OptionError> {
    let rows = statistics.rows(rt.alloc(), errors)?;
    let number = total_of(rows.as_slice());
    println!(rt; "{name:<24}{number:>8}")?;
    print_rows(rt, rows.as_slice())
}

/// Prints what calls came to that are kept.
fn print_shares<R: Print>(rt: &R, statistics: &Statistics) -> Result<(), OptionError> {
    let hits = statistics.sum_of(&HITS);
    let misses = statistics.sum_of(&MISSES);
    let all = hits.saturating_add(misses);
    let direct = statistics.counts.number_of("direct_cache_hit");
    let by_text = statistics.counts.number_of("preprocessed_cache_hit");
    print_share(rt, "Hits:", hits, all)?;
    print_share(rt, "  Direct:", direct, all)?;
    print_share(rt, "  By text:", by_text, all)?;
    print_share(rt, "Misses:", all.saturating_sub(hits), all)?;
    match statistics.sum_of(&REMOTE) {
        0 => Ok(()),
        asked => {
            let remote = statistics.counts.number_of("remote_storage_hit");
            print_share(rt, "Remote hits:", remote, asked)
        }
    }
}

/// Prints how much is kept, and where.
fn print_kept<R: Print>(rt: &R, bytes: u64, kept: &str, limit: u64) -> Result<(), OptionError> {
    match limit {
        0 => println!(rt; "Kept:                   {bytes} bytes, without a limit")?,
        limit => println!(rt; "Kept:                   {bytes} bytes of at most {limit}")?,
    }
    println!(rt; "Directory:              {kept}")?;
    Ok(())
}

/// Prints all as people read it.
pub fn show<R: Print + AllocGlobal>(
    rt: &R,
    statistics: &Statistics,
    kept: &str,
    limit: u64,
    built: &str,
    is_verbose: bool,
) -> Result<(), OptionError> {
    print_shares(rt, statistics)?;
    print_kind(rt, statistics, "Uncacheable:", false)?;
    print_kind(rt, statistics, "Errors:", true)?;
    if is_verbose {
        show_details(rt, statistics)?;
    }
    print_kept(rt, statistics.bytes, kept, limit)?;
    let proved = line_of(built, "proved ");
    println!(rt; "Program:                {proved}")?;
    Ok(())
}

/// Whether a number has a row of its own, or counts for one.
fn is_in_rows(name: &str) -> bool {
    HITS.contains(&name)
        || MISSES.contains(&name)
        || matches!(name, "remote_storage_hit")
        || is_passed(name)
        || is_error(name)
}

/// Prints a name that isn't in the rows, with its number.
fn print_detail<R: Print>(rt: &R, counts: &Counts, name: &str) -> Result<(), OptionError> {
    if is_in_rows(name) {
        return Ok(());
    }
    print_row(rt, name, counts.number_of(name))
}

/// Prints what else was counted: options and variables for which calls were passed through.
fn show_details<R: Print + AllocGlobal>(
    rt: &R,
    statistics: &Statistics,
) -> Result<(), OptionError> {
    println!(rt; "Of these by option or variable, and other counters:")?;
    for name in statistics.counts.names(rt.alloc())? {
        print_detail(rt, &statistics.counts, name)?;
    }
    Ok(())
}

/// Prints names and numbers with a tab between them: ccache's names that we count, also where they are 0, and all others.
pub fn print<R: Print + AllocGlobal>(rt: &R, statistics: &Statistics) -> Result<(), OptionError> {
    let counts = &statistics.counts;
    print_numbers(rt, counts, &HITS)?;
    print_numbers(rt, counts, &MISSES)?;
    print_numbers(rt, counts, &PASSED)?;
    print_numbers(rt, counts, &REMOTE)?;
    print_others(rt, counts)?;
    print_whole(rt, statistics)
}

/// Prints a name and a number with a tab between them.
fn print_number<R: Print>(rt: &R, name: &str, number: u64) -> Result<(), OptionError> {
    println!(rt; "{name}\t{number}")?;
    Ok(())
}

/// Prints these names with their numbers.
fn print_numbers<R: Print>(rt: &R, counts: &Counts, names: &[&str]) -> Result<(), OptionError> {
    for name in names {
        print_number(rt, name, counts.number_of(name))?;
    }
    Ok(())
}

/// Whether it is one of the names that are printed in each case.
fn is_usual(name: &str) -> bool {
    HITS.contains(&name)
        || MISSES.contains(&name)
        || PASSED.contains(&name)
        || REMOTE.contains(&name)
        || matches!(name, ZEROED | "cleanups_performed")
}

/// Prints the names that aren't printed in each case, with their numbers.
fn print_others<R: Print + AllocGlobal>(rt: &R, counts: &Counts) -> Result<(), OptionError> {
    for name in counts.names(rt.alloc())? {
        if !is_usual(name) {
            print_number(rt, name, counts.number_of(name))?;
        }
    }
    Ok(())
}

/// Prints what is known of all that is kept.
fn print_whole<R: Print>(rt: &R, statistics: &Statistics) -> Result<(), OptionError> {
    let counts = &statistics.counts;
    let files = statistics.files;
    print_number(
        rt,
        "cleanups_performed",
        counts.number_of("cleanups_performed"),
    )?;
    println!(rt; "files_in_cache\t{files}")?;
    print_number(rt, "cache_size_kibibyte", statistics.bytes / 1024)?;
    print_number(rt, "stats_updated_timestamp", statistics.updated)?;
    print_number(rt, "stats_zeroed_timestamp", counts.number_of(ZEROED))
}
