//! Words with their files opened, one after another.

ghost use Rattle.std.specs.Prelude.{◌≡◌, [], ◌∷◌, length, Err, IsOk};
ghost use Rattle.std.specs.Iterator.{at_most};
ghost use Rattle.std.specs.List.{AllByRecursion};
ghost use Rattle.base_files.specs.Views.{FilesFail};
ghost use Rattle.cmdlines_response_files.specs.Asking.{IsAskedFor};
ghost use Rattle.cmdlines_response_files.specs.Expansion.{expanded};
ghost use Rattle.cmdlines_response_files.specs.declared.style.Style.{Style};
ghost use Rattle.cmdlines_response_files.specs.Words.{Gives, Takes, items_left};

use crate::expansion::expand;
use crate::fault::ParseFault;
use crate::style::Style;
use base_files::{Files, OsBytes};
use std::alloc::Global;
use std::marker::PhantomData;
use std::vec::IntoIter;

/// A way to open words.
pub trait Opens {
    ghost style: { Style };

    fn style() -> Style
        ensures { result ≡ style };
}

/// The words of a command line, with those that name files replaced by the words of these files; or the fault that kept them from being
/// read.
#[derive(Drop)]
pub struct ExpandedWords<S> {
    words: IntoIter<OsBytes>,
    fault: Option<ParseFault>,
    way: PhantomData<S>,
}

impl<S: Opens> ExpandedWords<S> {
    /// These words, with the response files that they name opened from that directory.
    pub fn new<F: Files>(
        alloc: Global,
        dir: &OsBytes,
        words: &[OsBytes],
        files: &mut F,
    ) -> ExpandedWords<S>
        ensures gives { Gives (items_left result)
            (expanded S.style dir.now (F.tree files.old) words.now)
            (FilesFail F.Files files.old files.new) }
        ensures asked { Gives (items_left result)
            (expanded S.style dir.now (F.tree files.old) words.now)
            (IsAskedFor S.style dir.now (F.tree files.old) words.now) }
        ensures tree { F.tree files.new ≡ F.tree files.old }
        // There was no I/O error where words come, nor when out of memory.
        ensures steady { AllByRecursion IsOk (items_left result) →
            F.failed files.new ≡ F.failed files.old }
        ensures memory { items_left result ≡ Err ParseFault.Memory ∷ [] →
            F.failed files.new ≡ F.failed files.old }
    {
        match expand(alloc, S::style(), dir, words, files) {
            Ok(words) => ExpandedWords {
                words: words.into_vec().into_iter(),
                fault: None,
                way: PhantomData,
            },
            Err(fault) => ExpandedWords {
                words: Vec::new(alloc).into_iter(),
                fault: Some(fault),
                way: PhantomData,
            },
        }
    }
}

impl<S> Iterator for ExpandedWords<S> {
    type Item = Result<OsBytes, ParseFault>;

    ghost next_gives = { λ s r t. Takes (items_left s) r (items_left t) };

    ghost remaining = { λ s. at_most (length (items_left s)) };

    fn next(&mut self) -> Option<Result<OsBytes, ParseFault>> {
        match self.words.next() {
            Some(word) => Some(Ok(word)),
            None => self.fault.take().map(Err),
        }
    }
}
