//! Values of arguments: what is read from a word, and printed as a word or a text again.

ghost use Rattle.std.specs.Prelude.{◌≡◌, Bool, true, false, Option, None, IfSome, IfOk, IfErr, OnOk, string_bytes};
ghost use Rattle.std.specs.Str.{is_utf8};
ghost use Rattle.base_files.specs.Bytes.{Bytes};
ghost use Rattle.cmdlines_base.specs.Refusal.{Refusal, IsErrorOf};
ghost use Rattle.cmdlines_base.specs.Texts.{WordText, PathText, ValueText};

use crate::argument_error::{ArgParseError, ArgParseResult, ArgToStringError, ArgToStringResult};
use base_files::OsBytes;
use std::alloc::{AllocError, Global};

/// A value that is made of a word.
pub trait FromArg: Drop {
    /// What the word makes.
    ghost reads: { Bytes → Self → Type 0 };

    /// Why the word makes no value, if it makes none.
    ghost refusal: { Bytes → Option Refusal };

    /// The value in the word.
    fn process(arg: OsBytes) -> ArgParseResult<Self>
        ensures value { IfOk result (reads arg) }
        ensures accepted { OnOk result (refusal arg ≡ None) }
        ensures refused { IfErr result (IsErrorOf (refusal arg) arg) };
}

/// A value that is printed.
pub trait IntoArg: Drop {
    /// The word that prints it.
    ghost word: { Self → Bytes };

    /// Where its word ends in a path, what comes before that path, and the path, whose text a transformer gives.
    ghost path: { Self → Option (Bytes × Bytes) };

    /// The word that prints the value.
    fn into_arg_os_string(&self, alloc: Global) -> Result<OsBytes, AllocError>
        ensures { IfOk result (λ printed. printed ≡ word self.now) };

    /// The same word, where the value has it at hand. It takes no memory.
    fn lent_word(&self) -> Option<&[u8]>
        ensures { IfSome result (λ lent. lent.now ≡ word self.now) }
    {
        None
    }

    /// The value as text: a path's is what the transformer returns for its bytes, called once, after what comes before
    /// the path; any other value's is its word, and the transformer isn't asked.
    fn into_arg_string<F: FnMut(&[u8]) -> Option<String>>(
        &self,
        alloc: Global,
        path_transformer: &mut F,
    ) -> ArgToStringResult
        requires { F.IsAlwaysCallable path_transformer.old }
        ensures text { ValueText F.FnMut (path self.now) (word self.now) path_transformer.old result
            path_transformer.new }
        ensures callable { F.IsAlwaysCallable path_transformer.new };
}

/// The value of an argument. A kind says what an option of a table is for.
pub trait ArgumentValue: IntoArg {
    type Kind: Copy;

    /// What a flag of that kind is.
    ghost flag_value: { Self.Kind → Self → Type 0 };

    /// What an option of that kind is with that word for its value.
    ghost word_value: { Self.Kind → Bytes → Self → Type 0 };

    /// Why an option of that kind doesn't take that word, if it doesn't.
    ghost refusal: { Self.Kind → Bytes → Option Refusal };

    /// Whether an option of that kind prints the word that was read.
    ghost gives_back: { Self.Kind → Bool };

    /// The value of a flag that takes none. It takes no memory.
    fn of_flag(alloc: Global, kind: Self::Kind) -> Self
        ensures { flag_value kind result };

    /// The value in a word.
    fn of_word(alloc: Global, kind: Self::Kind, word: &[u8]) -> ArgParseResult<Self>
        ensures value { IfOk result (word_value kind word.now) }
        ensures accepted { OnOk result (refusal kind word.now ≡ None) }
        ensures refused { IfErr result (IsErrorOf (refusal kind word.now) word.now) };

    /// Printing what was read gives the word, where the kind says so.
    ghost prints_what_it_reads: { (kind : Self.Kind) (read : Bytes) (value : Self) → gives_back kind ≡ true → word_value kind read value → Self.word value ≡ read };
}

/// The bytes as text; where they aren't UTF-8 they are handed back. It takes no memory.
pub(crate) fn into_text(bytes: OsBytes) -> Result<String, OsBytes>
    ensures bytes { IfOk result (λ text. string_bytes text ≡ bytes) }
    ensures text { OnOk result (is_utf8 bytes ≡ true) }
    ensures back { IfErr result (λ back. (back ≡ bytes) × (is_utf8 bytes ≡ false)) }
{
    match String::from_utf8(bytes.into_vec()) {
        Ok(text) => Ok(text),
        Err(error) => Err(OsBytes::from_vec(error.into_bytes())),
    }
}

/// A word as text.
pub fn word_to_string(alloc: Global, word: &[u8]) -> ArgToStringResult
    ensures { WordText word.now result }
{
    match into_text(OsBytes::from_slice(alloc, word)?) {
        Ok(text) => Ok(text),
        Err(broken) => Err(ArgToStringError::InvalidUnicode(broken)),
    }
}

/// A path as text, after what comes before it: what the transformer returns.
pub fn path_to_string<F: FnMut(&[u8]) -> Option<String>>(
    alloc: Global,
    front: &[u8],
    path: &[u8],
    path_transformer: &mut F,
) -> ArgToStringResult
    requires { F.IsAlwaysCallable path_transformer.old }
    ensures text { PathText F.FnMut front.now path.now path_transformer.old result
        path_transformer.new }
    ensures callable { F.IsAlwaysCallable path_transformer.new }
{
    let Some(text) = path_transformer(path) else {
        let failed = OsBytes::from_slice(alloc, path)?;
        return Err(ArgToStringError::FailedPathTransform(failed));
    };
    let mut whole = Vec::from_slice(alloc, front)?;
    whole.extend_from_slice(text.as_bytes())?;
    match into_text(OsBytes::from_vec(whole)) {
        Ok(whole) => Ok(whole),
        Err(broken) => Err(ArgToStringError::InvalidUnicode(broken)),
    }
}

/// Bytes, whatever they are.
impl FromArg for OsBytes {
    ghost use Rattle.std.specs.Prelude.{◌≡◌, None};

    ghost reads = { λ arg value. value ≡ arg };

    ghost refusal = { λ _. None };

    fn process(arg: OsBytes) -> ArgParseResult<OsBytes> {
        Ok(arg)
    }
}

impl IntoArg for OsBytes {
    ghost use Rattle.std.specs.Prelude.{None};

    ghost word = { λ bytes. bytes };

    ghost path = { λ _. None };

    fn into_arg_os_string(&self, _alloc: Global) -> Result<OsBytes, AllocError> {
        self.clone()
    }

    fn into_arg_string<F: FnMut(&[u8]) -> Option<String>>(
        &self,
        alloc: Global,
        _path_transformer: &mut F,
    ) -> ArgToStringResult {
        word_to_string(alloc, self.as_bytes())
    }
}

/// A word; a flag has the empty one.
impl ArgumentValue for OsBytes {
    ghost use Rattle.std.specs.Prelude.{◌≡◌, [], true, None};

    type Kind = ();

    ghost flag_value = { λ _ value. value ≡ [] };

    ghost word_value = { λ _ word value. value ≡ word };

    ghost refusal = { λ _ _. None };

    ghost gives_back = { λ _. true };

    ghost prints_what_it_reads = { λ _ _ _ _ is. is };

    fn of_flag(alloc: Global, _kind: ()) -> OsBytes {
        OsBytes::empty(alloc)
    }

    fn of_word(alloc: Global, _kind: (), word: &[u8]) -> ArgParseResult<OsBytes> {
        Ok(OsBytes::from_slice(alloc, word)?)
    }
}

/// A word that is text.
impl FromArg for String {
    ghost use Rattle.std.specs.Prelude.{◌≡◌, string_bytes};
    ghost use Rattle.cmdlines_base.specs.Refusal.{unless_text};

    ghost reads = { λ arg value. string_bytes value ≡ arg };

    ghost refusal = { unless_text };

    fn process(arg: OsBytes) -> ArgParseResult<String> {
        match into_text(arg) {
            Ok(text) => Ok(text),
            Err(word) => Err(ArgParseError::InvalidUnicode(word)),
        }
    }
}

impl IntoArg for String {
    ghost use Rattle.std.specs.Prelude.{string_bytes, None};

    ghost word = { string_bytes };

    ghost path = { λ _. None };

    fn into_arg_os_string(&self, alloc: Global) -> Result<OsBytes, AllocError> {
        OsBytes::from_slice(alloc, self.as_bytes())
    }

    fn into_arg_string<F: FnMut(&[u8]) -> Option<String>>(
        &self,
        alloc: Global,
        _path_transformer: &mut F,
    ) -> ArgToStringResult {
        Ok(String::from_str(alloc, self.as_str())?)
    }
}

/// A word that is text; a flag has the empty one.
impl ArgumentValue for String {
    ghost use Rattle.std.specs.Prelude.{◌≡◌, [], true, string_bytes};
    ghost use Rattle.cmdlines_base.specs.Refusal.{unless_text};

    type Kind = ();

    ghost flag_value = { λ _ value. string_bytes value ≡ [] };

    ghost word_value = { λ _ word value. string_bytes value ≡ word };

    ghost refusal = { λ _ word. unless_text word };

    ghost gives_back = { λ _. true };

    ghost prints_what_it_reads = { λ _ _ _ _ is. is };

    fn of_flag(alloc: Global, _kind: ()) -> String {
        String::new(alloc)
    }

    fn of_word(alloc: Global, _kind: (), word: &[u8]) -> ArgParseResult<String> {
        String::process(OsBytes::from_slice(alloc, word)?)
    }
}

/// Nothing: what was read isn't kept.
impl FromArg for () {
    ghost use Rattle.std.specs.Prelude.{⊤, None};

    ghost reads = { λ _ _. ⊤ };

    ghost refusal = { λ _. None };

    fn process(_arg: OsBytes) -> ArgParseResult<()> {
        Ok(())
    }
}

impl IntoArg for () {
    ghost use Rattle.std.specs.Prelude.{[], None};

    ghost word = { λ _. [] };

    ghost path = { λ _. None };

    fn into_arg_os_string(&self, alloc: Global) -> Result<OsBytes, AllocError> {
        Ok(OsBytes::empty(alloc))
    }

    fn into_arg_string<F: FnMut(&[u8]) -> Option<String>>(
        &self,
        alloc: Global,
        _path_transformer: &mut F,
    ) -> ArgToStringResult {
        Ok(String::new(alloc))
    }
}

/// No value; the word of an option isn't kept, so that it isn't printed again.
impl ArgumentValue for () {
    ghost use Rattle.std.specs.Prelude.{⊤, false, None};

    type Kind = ();

    ghost flag_value = { λ _ _. ⊤ };

    ghost word_value = { λ _ _ _. ⊤ };

    ghost refusal = { λ _ _. None };

    ghost gives_back = { λ _. false };

    ghost prints_what_it_reads = { λ _ _ _ kept _. cc };

    fn of_flag(_alloc: Global, _kind: ()) {}

    fn of_word(_alloc: Global, _kind: (), _word: &[u8]) -> ArgParseResult<()> {
        Ok(())
    }
}
