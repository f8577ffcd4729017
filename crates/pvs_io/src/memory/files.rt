//! Files in memory.

ghost use Rattle.std.specs.Prelude.{◌≡◌, ◌≢◌, ◌≤◌, ◌++◌, ◌∷◌, [], Some, map, take, string_bytes, OnOk, OnErr, vec_len};
ghost use Rattle.std.specs.Option.{option_map};
ghost use Rattle.std.specs.List.Sorted.{IsStrictlyIncreasing};
ghost use Rattle.pvs_io.specs.Contents.{HasDistinctNames, content_of};
ghost use Rattle.pvs_io.specs.Memory.{FilesState, IsAfterLoad, file_contents, load_answer};
ghost use Rattle.pvs_io.specs.Outside.{Asks, HasCause, Loads};

use crate::files::{Files, Load};
use std::alloc::{AllocError, Global};
use std::marker::Model;

/// Files in memory, found by their names.
#[derive(Drop)]
pub struct MemFiles {
    alloc: Global,
    files: Vec<(String, Vec<u8>)>,
    requests: Vec<String>,
    fails: Vec<u64>,
    calls: u64,
    faults: u64,
}

impl Model for MemFiles {
    ghost use Rattle.std.specs.Prelude.{map, string_bytes};
    ghost use Rattle.pvs_io.specs.Memory.{FilesState, file_contents};

    ghost Value = { FilesState };

    ghost view = { λ s. record {
      contents = file_contents s.files.items;
      requests = map string_bytes s.requests.items;
      fails = s.fails.items;
      calls = s.calls;
      faults = s.faults;
    } };
}

impl MemFiles {
    /// Files with these names and contents. A load fails where its number, counted from 0, is in
    /// `fails`, and where no file has the name. This takes no memory.
    pub fn new(alloc: Global, files: Vec<(String, Vec<u8>)>, fails: Vec<u64>) -> MemFiles
        requires names { HasDistinctNames (file_contents files.items) }
        requires fails { IsStrictlyIncreasing fails.items }
        ensures contents { result.contents ≡ file_contents files.items }
        ensures requests { result.requests ≡ [] }
        ensures fails { result.fails ≡ fails.items }
        ensures calls { result.calls ≡ 0 }
        ensures faults { result.faults ≡ 0 }
    {
        MemFiles {
            alloc,
            files,
            requests: Vec::new(alloc),
            fails,
            calls: 0,
            faults: 0,
        }
    }
}

/// The content of the file of that name.
fn find_content<'a>(files: &'a [(String, Vec<u8>)], name: &str) -> Option<&'a [u8]>
    ensures { option_map (λ content. content.now) result
        ≡ content_of (file_contents files.now) name.now }
{
    for file in files {
        if file.0.as_str() == name {
            return Some(&file.1);
        }
    }
    None
}

/// Adds a name that is asked for.
fn ask(alloc: Global, requests: &mut Vec<String>, name: &str) -> Result<(), AllocError>
    ensures ok { OnOk result (map string_bytes requests.new.items ≡ map string_bytes requests.old.items ++ name.now ∷ []) }
    ensures err { OnErr result (requests.new.items ≡ requests.old.items) }
{
    requests.push(String::from_str(alloc, name)?)?;
    Ok(())
}

/// Replaces what a vector holds by the first bytes of a content.
fn fill(into: &mut Vec<u8>, content: &[u8], max: u32) -> Result<(), AllocError>
    ensures { OnOk result (into.new.items ≡ take max content.now) }
{
    into.clear();
    let count = content.len().min(max as usize);
    into.extend_from_slice(&content[..count])?;
    Ok(())
}

impl Files for MemFiles {
    ghost contents = { λ s. Some s.contents };

    ghost requests = { λ s. s.requests };

    ghost faults = { λ s. s.faults };

    fn load(&mut self, name: &str, max: u32, into: &mut Vec<u8>) -> Load
        ensures answer { result ≢ Load.Memory → result ≡ load_answer self.old name.now }
        ensures after { IsAfterLoad self.old self.new name.now result }

        // The trait's.
        ensures count { result ≡ Load.Done → vec_len into.new ≤ max }
        ensures bytes { Loads (Some self.old.contents) name.now max result into.new.items }
        ensures contents { Some self.new.contents ≡ Some self.old.contents }
        ensures requests { Asks self.old.requests self.new.requests name.now result }
        ensures cause { HasCause self.old.faults self.new.faults (result ≡ Load.Failed) }
    {
        let fails = self.fails.contains(&self.calls);
        self.calls = self.calls.saturating_add(1);
        let Ok(()) = ask(self.alloc, &mut self.requests, name) else {
            return Load::Memory;
        };
        let found = find_content(&self.files, name);
        let Some(content) = found.filter(|_| !fails) else {
            self.faults = self.faults.saturating_add(1);
            return Load::Failed;
        };
        match fill(into, content, max) {
            Ok(()) => Load::Done,
            Err(_) => Load::Memory,
        }
    }
}
