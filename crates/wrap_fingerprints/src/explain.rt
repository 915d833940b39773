//! In which part two fingerprints differ.

ghost use Rattle.std.specs.Prelude.{◌≡◌, ◌↔◌, None, true};
ghost use Rattle.wrap_fingerprints.specs.Explaining.{AgreeByRustc, AgreeIn, IsFirst, IsFound, parts_in};

use crate::fingerprint::Fingerprint;
use crate::part::Part;
use rustc_parts::parts::Parts;

/// Whether both have the same in this part; of parts of C they have.
fn agree_by_rustc(one: &Parts, other: &Parts, part: Part) -> bool
    ensures { (result ≡ true) ↔ AgreeByRustc one.now other.now part }
{
    match part {
        Part::Toolchain => one.toolchain == other.toolchain,
        Part::Version => one.version == other.version,
        Part::KeptWords => one.words == other.words,
        Part::Sources => one.sources == other.sources,
        Part::Externs => one.externs == other.externs,
        Part::Archives => one.archives == other.archives,
        Part::Target => one.target == other.target,
        Part::Profile => one.profile == other.profile,
        Part::EnvDeps => one.env_deps == other.env_deps,
        Part::CargoPairs => one.variables == other.variables,
        Part::Directory => one.dir == other.dir,
        _ => true,
    }
}

/// Whether both are of one family and have the same in this part.
fn agree_in(one: &Fingerprint, other: &Fingerprint, part: Part) -> bool
    ensures { (result ≡ true) ↔ AgreeIn one.now other.now part }
{
    match (one, other) {
        (Fingerprint::C(one), Fingerprint::C(other)) => one.agree(other, part),
        (Fingerprint::Rustc(one, names), Fingerprint::Rustc(other, others)) => match part {
            Part::Names => names == others,
            _ => agree_by_rustc(one, other, part),
        },
        (Fingerprint::C(_), Fingerprint::Rustc(_, _))
        | (Fingerprint::Rustc(_, _), Fingerprint::C(_)) => false,
    }
}

/// The parts of a fingerprint, in the order in which it is compared.
fn parts_in(fingerprint: &Fingerprint) -> &'static [Part]
    ensures { result.now ≡ parts_in fingerprint.now }
{
    match fingerprint {
        Fingerprint::C(_) => &[
            Part::Family,
            Part::Compiler,
            Part::Plusplus,
            Part::Language,
            Part::Words,
            Part::Variables,
            Part::ExtraContents,
            Part::Assembler,
            Part::Text,
            Part::Names,
        ],
        Fingerprint::Rustc(_, _) => &[
            Part::Family,
            Part::Toolchain,
            Part::Version,
            Part::KeptWords,
            Part::Sources,
            Part::Externs,
            Part::Archives,
            Part::Target,
            Part::Profile,
            Part::EnvDeps,
            Part::CargoPairs,
            Part::Directory,
            Part::Names,
        ],
    }
}

/// The first of these parts in which they differ.
fn first_unlike(parts: &[Part], one: &Fingerprint, other: &Fingerprint) -> Option<Part>
    ensures { IsFound (AgreeIn one.now other.now) parts.now result }
{
    let mut rest = parts;
    while let Some((part, others)) = rest.split_first() {
        if !agree_in(one, other, *part) {
            return Some(*part);
        }
        rest = others;
    }
    None
}

/// The first part in which two fingerprints differ, in the order in which their families list them; none where they are equal. It takes
/// no memory.
pub fn explain(one: &Fingerprint, other: &Fingerprint) -> Option<Part>
    ensures first { IsFirst (AgreeIn one.now other.now) (parts_in one.now) result }
    // Where none differs they are equal, and only there.
    ensures equal { (result ≡ None) ↔ (one.now ≡ other.now) }
{
    first_unlike(parts_in(one), one, other)
}
