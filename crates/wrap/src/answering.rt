//! What is done for a request once all is known of it: the store is asked, and where it hands back nothing the command runs, and what
//! it made is kept, unless it's larger than the limit.

ghost use Rattle.std.specs.Prelude.{◌≡◌};
ghost use Rattle.base_files.specs.Bytes.{Bytes};
ghost use Rattle.ckeys_records.specs.Views.{ToolFails};
ghost use Rattle.ckeys_records.specs.Untouched.{Untouched};
ghost use Rattle.wrap_keys.specs.Account.{Work, worked};
ghost use Rattle.wrap_keys.specs.Asking.{HowFrom};
ghost use Rattle.wrap.specs.Prepared.{IsPrepared, SaysFinished};
ghost use Rattle.wrap_keys.specs.Sizes.{is_within, size_of};
ghost use Rattle.wrap.specs.Steps.{IsKept, kept_how};
ghost use Rattle.wrap_keys.specs.Turn.{KeyedTurn};

use crate::compile::compiled_pairs;
use crate::outputs::placed;
use crate::prepared::Prepared;
use crate::sizes::is_within;
use base_files::Files;
use ckeys_base::Store;
use ckeys_records::Fault;
use std::alloc::Global;
use wrap_base::store_key::{Pairs, StoreKey, keys_are_their_fields};
use wrap_base::{Answer, How, Tool};

/// How a hit is reported.
fn kept_how(from_record: bool) -> How
    ensures { result ≡ kept_how from_record }
{
    if from_record {
        How::Direct
    } else {
        How::Stored
    }
}

/// Keeps what a compile made, unless it's larger than the limit. A refused put changes no answer.
fn keep<O: Store<StoreKey, Pairs>>(
    objects: &mut O,
    max_kept: Option<u64>,
    key: StoreKey,
    pairs: Pairs,
)
    ensures { IsKept ⟦<StoreKey as PartialEq>⟧.eq (is_within max_kept (size_of pairs))
        (O.shelf objects.old) (O.shelf objects.new) key pairs }
{
    if is_within(max_kept, pairs.as_slice()) {
        let _ = objects.put(key, pairs);
    }
}

/// Answers a prepared request: what the store holds under its key, or what one compile makes, which is kept then, unless it's larger
/// than the limit.
pub fn answer_prepared<O: Store<StoreKey, Pairs>, F: Files, T: Tool>(
    alloc: Global,
    max_kept: Option<u64>,
    objects: &mut O,
    prepared: Prepared<'_>,
    files: &mut F,
    tool: &mut T,
) -> Result<Answer, Fault>
    ensures turn { (digest_of : Bytes → Bytes) (w : Work)
        → IsPrepared digest_of (T.meaning tool.old) (F.tree files.old) w prepared.entry
        → KeyedTurn digest_of max_kept prepared.entry.key.digest (worked w) (O.shelf objects.old)
        (O.shelf objects.new) (T.compiled tool.old) (T.compiled tool.new) result }
    ensures says { (digest_of : Bytes → Bytes) (w : Work)
        → IsPrepared digest_of (T.meaning tool.old) (F.tree files.old) w prepared.entry
        → SaysFinished w (ToolFails T.Preprocessor tool.old tool.new) result }
    ensures how { HowFrom prepared.entry.from_record result }
    ensures preprocesses { T.preprocessed tool.new ≡ T.preprocessed tool.old }
    ensures untouched { Untouched T.Preprocessor F.Files
        tool.old files.old tool.new files.new result }
{
    // A law, which costs nothing: keys that are equal are one.
    keys_are_their_fields();
    let outputs = prepared.outputs;
    if let Some(pairs) = objects.get(&prepared.key) {
        let map = placed(alloc, outputs, pairs.as_slice())?;
        return Ok(Answer::Outputs {
            map,
            how: kept_how(prepared.from_record),
            dep_info: prepared.dep_info,
        });
    }
    let pairs = compiled_pairs(
        alloc,
        prepared.kind,
        prepared.command,
        outputs,
        prepared.moment,
        files,
        tool,
    )?;
    let map = placed(alloc, outputs, pairs.as_slice())?;
    let dep_info = prepared.dep_info;
    keep(objects, max_kept, prepared.key, pairs);
    Ok(Answer::Outputs {
        map,
        how: How::Fresh,
        dep_info,
    })
}
