//! Requests to rustc: the verdict on one, its key by what rustc reports, and what it is answered.

ghost use Rattle.std.specs.Prelude.{◌≡◌, false, IfOk, IfErr, OnOk};
ghost use Rattle.base_files.specs.Bytes.{ticked};
ghost use Rattle.base_files.specs.Views.{FilesFail};
ghost use Rattle.ckeys_records.specs.Faults.{KeyCause};
ghost use Rattle.ckeys_records.specs.Views.{ToolFails};
ghost use Rattle.ckeys_records.specs.Untouched.{Untouched};
ghost use Rattle.rustc_options.specs.Asks.{asks_in};
ghost use Rattle.rustkeys.specs.Runs.{AtMostTwice};
ghost use Rattle.wrap_keys.specs.Account.{rust_account_by, rust_call_at, rust_work_at, worked};
ghost use Rattle.wrap_base.specs.Commands.{by_rustc};
ghost use Rattle.wrap_keys.specs.Answers.{EarlyCause, OnPass, Says, SaysWorked};
ghost use Rattle.wrap_keys.specs.Early.{IsAskedEarly, OfPassed};
ghost use Rattle.wrap_keys.specs.Asking.{HowFrom, IsAskedTwice, RunsOf, StopsEarly};
ghost use Rattle.wrap_keys.specs.CallRecords.{key_of};
ghost use Rattle.wrap.specs.RustPrepared.{IsRustPrepared};
ghost use Rattle.wrap_keys.specs.RustVerdicts.{is_text, rust_verdict_of};
ghost use Rattle.wrap_keys.specs.Turn.{KeyedTurn, StoreTurn};

use crate::answering::answer_prepared;
use crate::prepared::Prepared;
use base_files::{Files, OsBytes};
use ckeys_base::{HashState, Store};
use ckeys_records::Fault;
use rustc_compiler::Rust;
use rustc_options::parsed::ParsedArguments;
use rustkeys::{RustCompilation, RustHasher};
use std::alloc::Global;
use wrap_base::store_key::{Family, Pairs, Shape, StoreKey};
use wrap_base::{Answer, Request, Tool};
use wrap_keys::{RustVerdict, judge_rust, output_names};

/// A request to rustc with its key: the compile that it represents, and the text on dependencies where it asks for one.
#[derive(Drop)]
pub struct RustPrepared {
    key: StoreKey,
    compilation: RustCompilation,
    dep_info: Option<OsBytes>,
}

/// Prepares a request to this rustc that asks for this: rustc is asked what its key is made of.
fn rust_prepare<H: HashState, F: Files, T: Tool>(
    alloc: Global,
    rust: &Rust,
    request: &Request,
    parsed: &ParsedArguments,
    files: &mut F,
    tool: &mut T,
) -> Result<RustPrepared, Fault>
    ensures prepared { let w = rust_work_at (T.meaning tool.old)
        (rust_call_at rust.now request.now (F.tree files.old) (asks_in parsed.now)) in
        IfOk result (IsRustPrepared H.digest_of rust.now request.now (asks_in parsed.now) w) }
    ensures cause { let w = rust_work_at (T.meaning tool.old)
        (rust_call_at rust.now request.now (F.tree files.old) (asks_in parsed.now)) in
        IfErr result
        (KeyCause w.fault (FilesFail F.Files files.old files.new)
        (ToolFails T.Preprocessor tool.old tool.new)) }
    ensures untouched { Untouched T.Preprocessor F.Files
        tool.old files.old tool.new files.new result }
    ensures runs { OnOk result
        (T.preprocessed tool.new ≡ ticked (ticked (T.preprocessed tool.old))) }
    ensures twice { AtMostTwice (T.preprocessed tool.old) (T.preprocessed tool.new) }
    ensures early { let w = rust_work_at (T.meaning tool.old)
        (rust_call_at rust.now request.now (F.tree files.old) (asks_in parsed.now)) in
        StopsEarly w (T.preprocessed tool.old) (T.preprocessed tool.new) }
    ensures compiles { T.compiled tool.new ≡ T.compiled tool.old }
{
    let hasher = RustHasher {
        compiler: rust,
        parsed,
    };
    let env = request.env.as_slice();
    let (compilation, digest, shape, dep_info) = hasher.generate_hash_key::<H, F, T>(
        alloc,
        &request.dir,
        env,
        files,
        tool,
    )?;
    let Ok(names) = output_names(alloc, compilation.outputs()) else {
        drop(compilation);
        return Err(Fault::Memory);
    };
    let key = StoreKey {
        family: Family::Rustc,
        shape: Shape::Rustc(shape),
        names,
        digest: OsBytes::from_vec(digest.into_bytes()),
    };
    Ok(RustPrepared {
        key,
        compilation,
        dep_info,
    })
}

/// Answers a request to this rustc that isn't passed through: what the store holds under its key, or what one compile makes, which
/// is kept then; and beside it the text on dependencies for its own targets, where it asks for one.
fn rust_answer<H: HashState, O: Store<StoreKey, Pairs>, F: Files, T: Tool>(
    alloc: Global,
    max_kept: Option<u64>,
    objects: &mut O,
    rust: &Rust,
    request: &Request,
    parsed: &ParsedArguments,
    files: &mut F,
    tool: &mut T,
) -> Result<Answer, Fault>
    ensures says { let w = rust_work_at (T.meaning tool.old)
        (rust_call_at rust.now request.now (F.tree files.old) (asks_in parsed.now)) in
        SaysWorked w (FilesFail F.Files files.old files.new)
        (ToolFails T.Preprocessor tool.old tool.new) result }
    ensures store { let w = rust_work_at (T.meaning tool.old)
        (rust_call_at rust.now request.now (F.tree files.old) (asks_in parsed.now)) in
        KeyedTurn H.digest_of max_kept (key_of H.digest_of w.rec) (worked w) (O.shelf objects.old)
        (O.shelf objects.new) (T.compiled tool.old) (T.compiled tool.new) result }
    ensures how { HowFrom false result }
    ensures runs { IsAskedTwice result (T.preprocessed tool.old) (T.preprocessed tool.new) }
    ensures early { let w = rust_work_at (T.meaning tool.old)
        (rust_call_at rust.now request.now (F.tree files.old) (asks_in parsed.now)) in
        StopsEarly w (T.preprocessed tool.old) (T.preprocessed tool.new) }
    ensures unpassed { OnPass result ⊥ }
    ensures untouched { Untouched T.Preprocessor F.Files
        tool.old files.old tool.new files.new result }
{
    let made = rust_prepare::<H, F, T>(alloc, rust, request, parsed, files, tool)?;
    let key = made.key;
    let dep_info = made.dep_info;
    let compilation = made.compilation;
    let prepared = Prepared {
        key,
        from_record: false,
        outputs: compilation.outputs(),
        command: &compilation.command,
        kind: None,
        moment: request.moment,
        dep_info,
    };
    let answer = answer_prepared(alloc, max_kept, objects, prepared, files, tool);
    drop(compilation);
    answer
}

/// Answers a request to this rustc: it is passed through, or it gets what the store holds under its key or what one compile makes,
/// or there is a fault.
pub fn rust_turn<H: HashState, O: Store<StoreKey, Pairs>, F: Files, T: Tool>(
    alloc: Global,
    max_kept: Option<u64>,
    objects: &mut O,
    rust: &Rust,
    request: &Request,
    files: &mut F,
    tool: &mut T,
) -> Result<Answer, Fault>
    ensures says { let a = rust_account_by (T.meaning tool.old) (F.tree files.old) rust.now
        request.now (rust_verdict_of request.now (F.tree files.old)) in
        Says a (FilesFail F.Files files.old files.new)
        (ToolFails T.Preprocessor tool.old tool.new) result }
    ensures passed { let a = rust_account_by (T.meaning tool.old) (F.tree files.old) rust.now
        request.now (rust_verdict_of request.now (F.tree files.old)) in
        let asked = IsAskedEarly (by_rustc rust.now) request.now (F.tree files.old) in
        IfErr result (λ fault. OfPassed a (EarlyCause asked fault)) }
    ensures quiet { OnPass result
        ((T.preprocessed tool.new ≡ T.preprocessed tool.old)
        × (T.compiled tool.new ≡ T.compiled tool.old) × (T.failed tool.new ≡ T.failed tool.old)) }
    ensures store { let a = rust_account_by (T.meaning tool.old) (F.tree files.old) rust.now
        request.now (rust_verdict_of request.now (F.tree files.old)) in
        StoreTurn H.digest_of max_kept a (O.shelf objects.old) (O.shelf objects.new)
        (T.compiled tool.old) (T.compiled tool.new) result }
    ensures how { HowFrom false result }
    ensures runs { let a = rust_account_by (T.meaning tool.old) (F.tree files.old) rust.now
        request.now (rust_verdict_of request.now (F.tree files.old)) in
        RunsOf a false result (T.preprocessed tool.old) (T.preprocessed tool.new) }
    ensures no_text { is_text request.now ≡ false → files.new ≡ files.old }
    ensures untouched { Untouched T.Preprocessor F.Files
        tool.old files.old tool.new files.new result }
{
    match judge_rust(alloc, rust, request, files)? {
        RustVerdict::Passes(reason) => Ok(Answer::Pass(reason)),
        RustVerdict::Asks(parsed) => {
            let answer = rust_answer::<H, O, F, T>(
                alloc, max_kept, objects, rust, request, &parsed, files, tool,
            );
            drop(parsed);
            answer
        }
    }
}
