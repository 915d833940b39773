//! Looking where a compiler looks, and noting what is there.

use crate::noted::Noted;
use crate::places::{Name, Place, Places, above, or_topmost, path_of};
use crate::search_list::SearchList;
use base_files::FileTime;
use base_formats::{put_framed, put_number};
use cache_dir::digest_of;
use cache_disk::{Found, State, found_at, is_nothing, read_of_size};
use cache_source_directives::{Asked, Search};
use cache_watch_lists::{FileRow, Folder, Listings, PlainName, Unwatched, digest_at};
use std::alloc::Global;
use std::collections::{BTreeMap, HashMap, HashSet};
use std::fs;
use std::rt::Files;

/// What was looked at so far.
#[derive(Drop)]
pub struct Watching<'d, 'a> {
    dir: &'d [u8],
    /// Until when something must have been changed so that it's certain to have been the same since the call began.
    before: FileTime,
    /// The folders in which something was looked for.
    folders: Vec<Folder>,
    /// Their numbers, by their paths; nothing where there is none.
    numbers: HashMap<String, Option<usize>>,
    /// What lies in them under the names that were looked for.
    noted: Noted,
    listings: Listings,
    /// Files that must be as they are, with the digest of their contents, and folders, with that of the names in them.
    files: BTreeMap<String, (State, String)>,
    /// The paths of the files that the text names.
    named: HashSet<String>,
    /// How long these are.
    lengths: HashSet<usize>,
    /// The contents of those that are taken in once.
    once: HashSet<&'a [u8]>,
}

/// Whether it is certain that nothing lies under a path.
fn has_nothing<R: Files>(rt: &R, path: &str) -> bool {
    matches!(found_at(rt, path), Some(Found::Nothing))
}

impl<'d, 'a> Watching<'d, 'a> {
    /// Nothing was looked at for a call in that folder.
    pub fn new(alloc: Global, dir: &'d [u8], before: FileTime) -> Watching<'d, 'a> {
        Watching {
            dir,
            before,
            folders: Vec::new(alloc),
            numbers: HashMap::new(alloc),
            noted: Noted::new(alloc),
            listings: Listings::new(before),
            files: BTreeMap::new(alloc),
            named: HashSet::new(alloc),
            lengths: HashSet::new(alloc),
            once: HashSet::new(alloc),
        }
    }

    /// Takes a file that the text names: its contents are compared by others.
    pub fn take_named(
        &mut self,
        alloc: Global,
        path: &str,
        contents: &'a [u8],
        is_once: bool,
    ) -> Result<(), Unwatched> {
        let is_new = self.named.insert(String::from_str(alloc, path)?)?;
        self.lengths.insert(contents.len())?;
        if !is_new || !is_once || self.once.insert(contents)? {
            return Ok(());
        }
        Err(Unwatched::Equal)
    }

    /// Whether a file that the text names has so many bytes.
    fn has_length(&self, size: u64) -> bool {
        usize::try_from(size).is_ok_and(|size| self.lengths.contains(&size))
    }

    /// The number of the folder of that path, where there is one.
    fn number_at<R: Files + AllocGlobal>(
        &mut self,
        rt: &R,
        path: &str,
    ) -> Result<Option<usize>, Unwatched> {
        if let Some(known) = self.numbers.get(path) {
            return Ok(*known);
        }
        let number = match fs::metadata(rt, path) {
            Ok(metadata) if metadata.is_dir() => {
                let folder = Folder::new(rt.alloc(), State::of(&metadata));
                self.folders.push(folder)?;
                Some(self.folders.len().saturating_sub(1))
            }
            Ok(_) => None,
            Err(error) if is_nothing(&error) && has_nothing(rt, path) => None,
            Err(_) => return Err(Unwatched::Path),
        };
        self.numbers
            .insert(String::from_str(rt.alloc(), path)?, number)?;
        Ok(number)
    }

    /// The number of the nearest existing folder above a path, and what comes after it in the path.
    fn place<'p, R: Files + AllocGlobal>(
        &mut self,
        rt: &R,
        path: &'p str,
    ) -> Result<(usize, &'p str), Unwatched> {
        let mut front = path;
        // Each turn takes a byte at least.
        for _ in 0..path.len() {
            front = above(front);
            if let Some(number) = self.number_at(rt, or_topmost(front))? {
                let rest = path.get(front.len().saturating_add(1)..).unwrap_or("");
                return Ok((number, rest));
            }
        }
        Err(Unwatched::Path)
    }

    /// Notes what lies under a name in a folder, by their numbers.
    fn note(
        &mut self,
        folder: usize,
        name: usize,
        text: &str,
        found: Found,
    ) -> Result<Found, Unwatched> {
        if let Some(folder) = self.folders.get_mut(folder) {
            folder.note(text, found)?;
        }
        self.noted.put(name, folder, found)?;
        Ok(found)
    }

    /// What lies under a path, which is watched from now on.
    fn look<R: Files + AllocGlobal>(&mut self, rt: &R, path: &str) -> Result<Found, Unwatched> {
        let (folder, rest) = self.place(rt, path)?;
        let name = self.noted.number_of(rt.alloc(), rest)?;
        if let Some(found) = self.noted.get(name, folder) {
            return Ok(found);
        }
        let found = match rest.contains('/') {
            true => Found::Nothing,
            false => found_at(rt, path).ok_or(Unwatched::Path)?,
        };
        self.note(folder, name, rest, found)
    }

    /// Whether it is certain, without a look, that nothing lies under a name in that folder.
    fn lacks<R: Files + AllocGlobal>(
        &mut self,
        rt: &R,
        place: &Place,
        number: usize,
        name: &Name<'_>,
    ) -> Result<bool, Unwatched> {
        match (&name.plain, self.folders.get_mut(number)) {
            (Some(plain), Some(folder)) => {
                let path = or_topmost(place.path.as_str());
                Ok(folder.lacks(rt, path, plain, &mut self.listings)?)
            }
            (_, _) => Ok(false),
        }
    }

    /// What lies under a name in a folder, which is watched from now on.
    fn look_in<R: Files + AllocGlobal>(
        &mut self,
        rt: &R,
        place: &Place,
        name: &Name<'_>,
    ) -> Result<Found, Unwatched> {
        if let Some(number) = place.number {
            if let Some(found) = self.noted.get(name.number, number) {
                return Ok(found);
            }
            if self.lacks(rt, place, number, name)? {
                return self.note(number, name.number, name.text, Found::Nothing);
            }
        }
        let path = place.path_of(rt.alloc(), name.text)?;
        self.look(rt, path.as_str())
    }

    /// A folder in which names are looked for, which may be one of the call's.
    fn place_at(&self, alloc: Global, folder: &[u8]) -> Result<Place, Unwatched> {
        let mut path = path_of(alloc, self.dir, folder)?;
        if path.ends_with('/') {
            let _ = path.pop();
        }
        let number = match self.numbers.get(or_topmost(path.as_str())) {
            Some(number) => *number,
            None => None,
        };
        Ok(Place { path, number })
    }

    /// A name that is looked for.
    fn name_of<'n>(&mut self, alloc: Global, name: &'n [u8]) -> Result<Name<'n>, Unwatched> {
        let Ok(text) = str::from_utf8(name) else {
            return Err(Unwatched::Path);
        };
        let number = self.noted.number_of(alloc, text)?;
        let plain = PlainName::of(alloc, text)?;
        Ok(Name {
            text,
            number,
            plain,
        })
    }

    /// Takes a file that was found. One that the text doesn't name was only asked for, or in a line that isn't live; or it was skipped as
    /// the same as one that the text names, or equal to it. So where it's as long as one of these, it must be as it is from now on.
    fn take_found<R: Files + AllocGlobal>(&mut self, rt: &R, path: &str) -> Result<(), Unwatched> {
        if self.named.contains(path) || self.files.contains_key(path) {
            return Ok(());
        }
        let found = fs::metadata(rt, path)?;
        let state = State::of(&found);
        if !state.is_before(self.before) {
            return Err(Unwatched::Changed);
        }
        if !self.has_length(found.len()) {
            return Ok(());
        }
        let contents = read_of_size(rt, path, found.len())?;
        if (&self.once).contains(&contents.as_slice()) {
            return Err(Unwatched::Equal);
        }
        let digest = digest_of(rt.alloc(), contents.as_slice())?;
        self.files
            .insert(String::from_str(rt.alloc(), path)?, (state, digest))?;
        Ok(())
    }

    /// Looks for a name in a folder. Whether it is found there.
    fn is_in<R: Files + AllocGlobal>(
        &mut self,
        rt: &R,
        place: &Place,
        name: &Name<'_>,
    ) -> Result<bool, Unwatched> {
        if self.look_in(rt, place, name)? != Found::File {
            return Ok(false);
        }
        let path = place.path_of(rt.alloc(), name.text)?;
        self.take_found(rt, path.as_str())?;
        Ok(true)
    }

    /// Looks for a name in these folders, up to the first one that has it, or in all of them. Whether it is found.
    fn is_in_one<R: Files + AllocGlobal>(
        &mut self,
        rt: &R,
        places: &[Place],
        name: &Name<'_>,
        in_all: bool,
    ) -> Result<bool, Unwatched> {
        for place in places {
            if self.is_in(rt, place, name)? && !in_all {
                return Ok(true);
            }
        }
        Ok(false)
    }

    /// Looks for a name that a source in that folder asks for.
    pub fn search<R: Files + AllocGlobal>(
        &mut self,
        rt: &R,
        places: &Places,
        beside: &[u8],
        asked: Asked<'_>,
    ) -> Result<(), Unwatched> {
        let beside = self.place_at(rt.alloc(), beside)?;
        let name = self.name_of(rt.alloc(), asked.name)?;
        if name.text.starts_with('/') {
            self.is_in(rt, &beside, &name)?;
            return Ok(());
        }
        let in_all = asked.search == Search::Next;
        let is_quoted = asked.search != Search::Bracketed;
        // The next one is looked for as any other where the source was found in none of the folders.
        if is_quoted && self.is_in(rt, &beside, &name)? && !in_all {
            return Ok(());
        }
        if is_quoted && self.is_in_one(rt, places.quoted.as_slice(), &name, in_all)? {
            return Ok(());
        }
        self.is_in_one(rt, places.bracketed.as_slice(), &name, in_all)?;
        Ok(())
    }

    /// Has a folder of that path watched, or that there is none. Its number, where there is one.
    fn take_folder<R: Files + AllocGlobal>(
        &mut self,
        rt: &R,
        path: &str,
    ) -> Result<Option<usize>, Unwatched> {
        let number = self.number_at(rt, path)?;
        if number.is_none() {
            self.look(rt, path)?;
        }
        Ok(number)
    }

    /// Has it watched that nothing lies under a path.
    pub fn take_missing<R: Files + AllocGlobal>(
        &mut self,
        rt: &R,
        path: &str,
    ) -> Result<(), Unwatched> {
        match self.look(rt, path)? {
            Found::Nothing => Ok(()),
            _ => Err(Unwatched::Changed),
        }
    }

    /// The state of the folder of that path, where something was looked for there.
    fn state_at(&self, path: &str) -> Option<State> {
        let number = (*self.numbers.get(path)?)?;
        Some(self.folders.get(number)?.state)
    }

    /// The path of the folder among these that is the same as one in that state, if one of them is.
    fn same_in(
        &self,
        alloc: Global,
        folders: &[&str],
        state: State,
    ) -> Result<Option<String>, Unwatched> {
        for folder in folders {
            let path = path_of(alloc, self.dir, folder.as_bytes())?;
            let path = path.trim_end_matches('/');
            match self.state_at(path) {
                Some(found) if found.is_same(state) => {
                    return Ok(Some(String::from_str(alloc, path)?));
                }
                _ => {}
            }
        }
        Ok(None)
    }

    /// The path of the folder in which the compiler looks that is the same as one in that state.
    fn twin_of(
        &self,
        alloc: Global,
        list: &SearchList<'_>,
        state: State,
    ) -> Result<String, Unwatched> {
        if let Some(twin) = self.same_in(alloc, list.bracketed.as_slice(), state)? {
            return Ok(twin);
        }
        match self.same_in(alloc, list.quoted.as_slice(), state)? {
            Some(twin) => Ok(twin),
            None => Err(Unwatched::List),
        }
    }

    /// Has a folder watched that the compiler leaves out: that there is none, or that it is the same as one in which the compiler looks.
    fn take_left_out<R: Files + AllocGlobal>(
        &mut self,
        rt: &R,
        list: &SearchList<'_>,
        folder: &str,
    ) -> Result<(), Unwatched> {
        let path = path_of(rt.alloc(), self.dir, folder.as_bytes())?;
        let path = path.trim_end_matches('/');
        let Some(number) = self.take_folder(rt, path)? else {
            return Ok(());
        };
        let Some(state) = self.state_at(path) else {
            return Err(Unwatched::List);
        };
        let twin = self.twin_of(rt.alloc(), list, state)?;
        if twin.as_str() == path {
            return Ok(());
        }
        if let Some(folder) = self.folders.get_mut(number) {
            folder.twin = twin;
        }
        Ok(())
    }

    /// Has folders watched in which the compiler looks.
    fn take_searched<R: Files + AllocGlobal>(
        &mut self,
        rt: &R,
        folders: &[&str],
    ) -> Result<Vec<Place>, Unwatched> {
        let mut places = Vec::new(rt.alloc());
        for folder in folders {
            let path = path_of(rt.alloc(), self.dir, folder.as_bytes())?;
            if self.take_folder(rt, path.trim_end_matches('/'))?.is_none() {
                return Err(Unwatched::List);
            }
            places.push(self.place_at(rt.alloc(), folder.as_bytes())?)?;
        }
        Ok(places)
    }

    /// Has the folders watched in which the compiler looks, and those that it leaves out.
    pub fn take_folders<R: Files + AllocGlobal>(
        &mut self,
        rt: &R,
        list: &SearchList<'_>,
    ) -> Result<Places, Unwatched> {
        let quoted = self.take_searched(rt, list.quoted.as_slice())?;
        let bracketed = self.take_searched(rt, list.bracketed.as_slice())?;
        for folder in list.left_out.as_slice() {
            self.take_left_out(rt, list, folder)?;
        }
        self.take_installations(rt, list)?;
        Ok(Places { quoted, bracketed })
    }

    /// Has the folders watched in which the compiler found a GCC: another one there may be taken in its place.
    fn take_installations<R: Files + AllocGlobal>(
        &mut self,
        rt: &R,
        list: &SearchList<'_>,
    ) -> Result<(), Unwatched> {
        for installation in list.installations.as_slice() {
            for folder in [above(installation), above(above(installation))].iter() {
                let state = State::at(rt, folder)?;
                let digest = digest_at(rt, folder)?;
                self.files
                    .insert(String::from_str(rt.alloc(), folder)?, (state, digest))?;
            }
        }
        Ok(())
    }

    /// Has it watched that nothing of that name lies in a folder.
    fn is_not_in<R: Files + AllocGlobal>(
        &mut self,
        rt: &R,
        place: &Place,
        name: &Name<'_>,
    ) -> Result<(), Unwatched> {
        match self.look_in(rt, place, name)? {
            Found::Nothing => Ok(()),
            _ => Err(Unwatched::Precompiled),
        }
    }

    /// Has it watched that nothing of that name lies in one of these folders.
    fn is_in_none<R: Files + AllocGlobal>(
        &mut self,
        rt: &R,
        places: &[Place],
        name: &Name<'_>,
    ) -> Result<(), Unwatched> {
        for place in places {
            self.is_not_in(rt, place, name)?;
        }
        Ok(())
    }

    /// Has it watched that no precompiled header of that ending lies beside a name, in none of the folders in which it is looked for.
    pub fn look_for_precompiled<R: Files + AllocGlobal>(
        &mut self,
        rt: &R,
        places: &Places,
        beside: &[u8],
        name: &[u8],
        ending: &[u8],
    ) -> Result<(), Unwatched> {
        let mut precompiled = Vec::new(rt.alloc());
        precompiled.extend_from_slice(name)?;
        precompiled.extend_from_slice(ending)?;
        let name = self.name_of(rt.alloc(), precompiled.as_slice())?;
        self.is_in_none(rt, places.quoted.as_slice(), &name)?;
        self.is_in_none(rt, places.bracketed.as_slice(), &name)?;
        let beside = self.place_at(rt.alloc(), beside)?;
        self.is_not_in(rt, &beside, &name)
    }

    /// The folders that are there, by their paths.
    fn folders_there(&self, alloc: Global) -> Result<BTreeMap<&str, &Folder>, Unwatched> {
        let mut there = BTreeMap::new(alloc);
        for (path, number) in self.numbers.iter() {
            if let Some(folder) = number.and_then(|number| self.folders.get(number)) {
                there.insert(path.as_str(), folder)?;
            }
        }
        Ok(there)
    }

    /// Adds the number of the folders that are there, then the folders in the order of their paths.
    fn put_folders(&self, alloc: Global, out: &mut Vec<u8>) -> Result<(), Unwatched> {
        let there = self.folders_there(alloc)?;
        put_number(out, there.len() as u64)?;
        for (path, folder) in there.iter() {
            folder.put(path, self.before, out)?;
        }
        Ok(())
    }

    /// The folder of the call, the folders and the files.
    fn list(&self, alloc: Global) -> Result<Vec<u8>, Unwatched> {
        let mut out = Vec::new(alloc);
        put_framed(&mut out, self.dir)?;
        self.put_folders(alloc, &mut out)?;
        put_number(&mut out, self.files.len() as u64)?;
        for (path, (state, digest)) in self.files.iter() {
            let row = FileRow {
                path: path.as_bytes(),
                state: *state,
                digest: digest.as_bytes(),
            };
            row.put(&mut out)?;
        }
        Ok(out)
    }

    /// The list of what is watched.
    pub fn into_list(self, alloc: Global) -> Result<Vec<u8>, Unwatched> {
        self.list(alloc)
    }
}
