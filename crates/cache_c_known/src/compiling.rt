//! The compile of a call: what it prints, and what it makes.

ghost use Rattle.std.specs.Prelude.{◌≡◌, ◌≤◌};

use crate::known::{Known, printed_at};
use base_files::OsBytes;
use cache_disk::State;
use cache_host::{CommandLine, Ended, Host, HostError};
use cache_source_files::{lock_paths, made_since, states_of};
use std::fs::File;
use std::io::Read;
use std::rt::Files;
use wrap_base::Compiled;
use wrap_base::store_key::StoreKey;
use wrap_replay_base::Wanted;

impl Known {
    /// Has the host compile by the caller's own words.
    fn compile<P: Print + Files + AllocGlobal, I: Read>(
        &self,
        rt: &P,
        line: &CommandLine,
        host: &mut Host<I>,
        words: &[OsBytes],
    ) -> Result<Ended, HostError>
        requires { host.old.compiled ≡ 0 }
        ensures { host.new.compiled ≤ 1 }
    {
        let own = self.own_words(rt.alloc(), line, words)?;
        Ok(host.compile(rt, rt.alloc(), own.as_slice())?)
    }

    /// Takes what a compile printed, and how long it took.
    fn take_printed<R: Files + AllocGlobal>(
        &mut self,
        rt: &R,
        line: &CommandLine,
        ended: &Ended,
    ) -> Result<(), HostError> {
        self.are_unchanged = false;
        self.printed = printed_at(rt, ended, line.printed.as_str())?;
        self.errors = printed_at(rt, ended, line.errors.as_str())?;
        self.compile_time = Some(ended.time);
        Ok(())
    }

    /// Takes what a compile printed and wrote, and gives what it made at these paths, which had those states before; after them come those of
    /// the files beside.
    fn take_made<R: Files + AllocGlobal>(
        &mut self,
        rt: &R,
        line: &CommandLine,
        key: &StoreKey,
        ended: &Ended,
        paths: &[OsBytes],
        before: &[Option<State>],
    ) -> Result<Compiled, HostError> {
        self.take_printed(rt, line, ended)?;
        let contents = made_since(rt, paths, before)?;
        let status = ended.status;
        if status == 0 {
            self.take_written(rt, key)?;
            self.take_side_files(rt, before.get(paths.len()..).unwrap_or(&[]))?;
        }
        Ok(Compiled { status, contents })
    }

    /// What the host's compiler makes by the caller's own words at these paths.
    pub(crate) fn made_by<P: Print + Files<File = File> + AllocGlobal, I: Read>(
        &mut self,
        rt: &P,
        line: &CommandLine,
        host: &mut Host<I>,
        key: &StoreKey,
        wanted: &Wanted,
    ) -> Result<Compiled, HostError>
        requires { host.old.compiled ≡ 0 }
        ensures { host.new.compiled ≤ 1 }
    {
        let paths = wanted.paths.as_slice();
        let all = self.with_side_paths(&wanted.paths)?;
        // Until what was made is read no other call writes these files.
        let _locks = lock_paths(rt, line, all.as_slice(), self.dependency_file())?;
        let before = states_of(rt, all.as_slice())?;
        let ended = self.compile(rt, line, host, wanted.words.as_slice())?;
        self.take_made(rt, line, key, &ended, paths, before.as_slice())
    }
}
