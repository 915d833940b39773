//! A rustc compiler, as it is known before any request.

ghost use Rattle.std.specs.Prelude.{◌≡◌, ◌↔◌, Some, false, IfOk, IfErr, IsErrOf, OnOk};
ghost use Rattle.std.specs.List.{AllByRecursion};
ghost use Rattle.std.specs.Option.{option_copied};
ghost use Rattle.base_files.specs.Views.{FilesFail};
ghost use Rattle.ckeys_base.specs.FileDigests.{file_digests};
ghost use Rattle.cmdlines_response_files.specs.Causes.{CauseOf};
ghost use Rattle.rustc_parts.specs.Formed.{IsDigest, digest_digits};
ghost use Rattle.rustkeys_base.specs.Asking.{IsAskedByRustc};
ghost use Rattle.rustkeys_base.specs.Asks.{AsksFor, asks_of};
ghost use Rattle.rustkeys_base.specs.Expansion.{expanded_by_rustc};
ghost use Rattle.rustkeys_base.specs.Requests.{IsAsked};
ghost use Rattle.rustkeys_base.specs.Parsing.{request_reading, decision_of, decision_on};
ghost use Rattle.rustc_compiler.specs.Causes as why;
ghost use Rattle.rustc_compiler.specs.Compiler.{has_host, toolchain_files};

use crate::digests::digests_of;
use crate::fault::RustFault;
use crate::laws::digests_are_formed;
use crate::toolchain::{has_host, toolchain_files};
use base_files::{Files, Listed, OsBytes};
use ckeys_base::HashState;
use cmdlines_base::CompilerArguments;
use cmdlines_response_files::ParseFault;
use rustc_options::parsed::ParsedArguments;
use rustkeys_base::parse::parse_arguments;
use std::alloc::Global;
use std::marker::Model;

/// A rustc compiler: its executable, what it says of its version, its folder of libraries, the archive of its toolchain where it
/// has one, and the digests of the toolchain's files, each of which has the form that digests have in keys.
#[derive(Clone, Debug, Drop, PartialEq, Eq)]
pub struct Rust {
    executable: OsBytes,
    version: OsBytes,
    sysroot: OsBytes,
    archive: Option<OsBytes>,
    toolchain: Listed<OsBytes>,
}

impl Model for Rust {
    ghost use Rattle.std.specs.List.{AllByRecursion};
    ghost use Rattle.rustc_parts.specs.Formed.{IsDigest, digest_digits};
    ghost use Rattle.rustc_compiler.specs.Compiler.{Rustc};

    ghost Value = { Rustc };

    ghost view = { λ a. record { executable = a.executable; version = a.version; sysroot = a.sysroot; archive = a.archive; toolchain = a.toolchain } };

    ghost inverse = { λ r. record { executable = r.executable; version = r.version; sysroot = r.sysroot; archive = r.archive; toolchain = r.toolchain } };

    ghost invariant = { λ a. AllByRecursion (IsDigest digest_digits) a.toolchain };
}

impl Rust {
    /// The compiler that is known so, with the digests of its toolchain's files: libraries and archive together, in the order
    /// of paths, each as often as it is named. The folder of libraries is kept, and never looked for.
    ///
    /// `NoHost` where no line of the version begins with `host: `, which is found before any file is touched. `Read` names the first
    /// of the files that isn't there, or one at which there was an I/O error.
    pub fn new<H: HashState, F: Files>(
        alloc: Global,
        executable: OsBytes,
        version: OsBytes,
        sysroot: OsBytes,
        libraries: Listed<OsBytes>,
        archive: Option<OsBytes>,
        files: &mut F,
    ) -> Result<Rust, RustFault>
        requires { H.LEN ≡ 32 }
        ensures executable { IfOk result (λ rust. rust.executable ≡ executable) }
        ensures version { IfOk result (λ rust. rust.version ≡ version) }
        ensures sysroot { IfOk result (λ rust. rust.sysroot ≡ sysroot) }
        ensures archive { IfOk result (λ rust. rust.archive ≡ archive) }
        ensures digests { let paths = toolchain_files libraries archive in IfOk result
            (λ rust. Some rust.toolchain ≡ file_digests H.digest_of (F.tree files.old) paths) }
        ensures no_host { IsErrOf result RustFault.NoHost ↔ (has_host version ≡ false) }
        ensures untouched { IsErrOf result RustFault.NoHost → files.new ≡ files.old }
        ensures cause { let paths = toolchain_files libraries archive in IfErr result
            (why.CauseOf (has_host version) (F.tree files.old) paths
            (FilesFail F.Files files.old files.new)) }
        ensures tree { F.tree files.new ≡ F.tree files.old }
        ensures steady { OnOk result (F.failed files.new ≡ F.failed files.old) }
        ensures memory { IsErrOf result RustFault.Memory → F.failed files.new ≡ F.failed files.old }
    {
        // A law, which costs nothing: what follows from it is said above.
        digests_are_formed::<H>();
        if !has_host(version.as_bytes()) {
            return Err(RustFault::NoHost);
        }
        let paths = toolchain_files(libraries, &archive)?;
        let toolchain = digests_of::<H, F>(alloc, paths.as_slice(), files)?;
        Ok(Rust {
            executable,
            version,
            sysroot,
            archive,
            toolchain,
        })
    }

    /// Its executable.
    pub fn executable(&self) -> &OsBytes
        ensures { result.now ≡ self.now.executable }
    {
        &self.executable
    }

    /// What it says of its version.
    pub fn version(&self) -> &OsBytes
        ensures { result.now ≡ self.now.version }
    {
        &self.version
    }

    /// Its folder of libraries.
    pub fn sysroot(&self) -> &OsBytes
        ensures { result.now ≡ self.now.sysroot }
    {
        &self.sysroot
    }

    /// The archive of its toolchain, where it has one.
    pub fn archive(&self) -> Option<&OsBytes>
        ensures { option_copied result ≡ self.now.archive }
    {
        self.archive.as_ref()
    }

    /// The digests of its toolchain's files, as texts.
    pub fn toolchain_digests(&self) -> &[OsBytes]
        ensures digests { result.now ≡ self.now.toolchain }
        ensures formed { AllByRecursion (IsDigest digest_digits) self.now.toolchain }
    {
        self.toolchain.as_slice()
    }

    /// What these words come to as a request to this compiler, with the response files that they name opened from that directory.
    /// `Read` names a file on which there was an I/O error.
    pub fn parse_arguments<F: Files>(
        &self,
        alloc: Global,
        words: &[OsBytes],
        dir: &OsBytes,
        files: &mut F,
    ) -> Result<CompilerArguments<ParsedArguments>, ParseFault>
        ensures decision { let expanded = expanded_by_rustc dir.now (F.tree files.old) words.now in
            IfOk result (λ answer. decision_of answer
            ≡ decision_on dir.now (F.tree files.old) (request_reading expanded)) }
        ensures asked { let expanded = expanded_by_rustc dir.now (F.tree files.old) words.now in
            IfOk result (IsAsked dir.now (F.tree files.old) (request_reading expanded).items) }
        ensures asks { let expanded = expanded_by_rustc dir.now (F.tree files.old) words.now in
            IfOk result
            (AsksFor (asks_of dir.now (F.tree files.old) (request_reading expanded).items)) }
        ensures cause { IfErr result
            (CauseOf (FilesFail F.Files files.old files.new)) }
        ensures names { IfErr result
            (CauseOf (IsAskedByRustc dir.now (F.tree files.old) words.now)) }
        ensures tree { F.tree files.new ≡ F.tree files.old }
        ensures steady { OnOk result (F.failed files.new ≡ F.failed files.old) }
        ensures memory { IsErrOf result ParseFault.Memory → F.failed files.new ≡ F.failed files.old }
    {
        parse_arguments(alloc, words, dir, files)
    }
}
