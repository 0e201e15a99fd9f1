//! Files in memory, whose contents contracts know.

ghost use Rattle.std.specs.Prelude.{◌≡◌, ◌≤◌, ◌<◌, ℕ, List, [], Some, option_map, position, bytes_eq, string_bytes, length, IfSome, OnOk, OnErr};
ghost use Rattle.sim_outside.specs.Files.{ReadAll, WriteAll};
ghost use Rattle.sim_outside.specs.Told.{with_file};
ghost use Rattle.sim_outside.specs.Memory.{held, of_every_name, is_to_fail, reading_of, IsReading, bytes_read, calls_after_read, read_faults_after, IsWriting, held_after, calls_after_write, write_faults_after};

use crate::reading::FileAnswer;
use crate::whole_files::Files;
use crate::writing::WriteAnswer;
use std::alloc::AllocError;

/// Files in memory, whose contents contracts know.
#[derive(Drop)]
pub struct MemFiles {
    /// The files, each a name and its bytes. The first pair of a name counts.
    pub files: Vec<(String, Vec<u8>)>,
    /// The numbers of the calls that fail, counted from 0.
    pub fail: Vec<u64>,
    /// How many calls were made, of reading and writing together. It stops at 2^64 - 1.
    pub calls: u64,
    /// How many faults of reading there were, the same for every name. It stops at 2^64 - 1.
    pub read_faults: u64,
    /// How many faults of writing there were, the same for every name. It stops at 2^64 - 1.
    pub write_faults: u64,
}

impl MemFiles {
    /// Lends what a name holds.
    fn contents(&self, name: &str) -> Option<&[u8]>
        ensures { option_map (λ bytes. bytes.now) result ≡ held self.now.files.items name.now }
    {
        self.files
            .iter()
            .find(|file| file.0.as_str() == name)
            .map(|file| file.1.as_slice())
    }

    /// Answers a call and copies what was read. Nothing is counted yet.
    fn answer(&self, name: &str, limit: usize, into: &mut Vec<u8>) -> Result<(), FileAnswer>
        requires { into.old.items ≡ [] }
        ensures exact { IsReading result
            (reading_of (is_to_fail self.now.fail.items self.now.calls) (held self.now.files.items name.now) limit) }
        ensures bytes { into.new.items ≡ bytes_read result (held self.now.files.items name.now) limit }
    {
        if self.fail.contains(&self.calls) {
            return Err(FileAnswer::Failed);
        }
        let Some(contents) = self.contents(name) else {
            return Err(FileAnswer::Failed);
        };
        if contents.len() <= limit {
            into.extend_from_slice(contents)?;
            Ok(())
        } else {
            into.extend_from_slice(&contents[..limit + 1])?;
            Err(FileAnswer::TooLong)
        }
    }
}

/// The place of the first pair of a name.
fn place_of(files: &[(String, Vec<u8>)], name: &str) -> Option<usize>
    ensures place { result ≡ position (λ file. bytes_eq (string_bytes file.0) name.now) files.now }
    ensures within { IfSome result (λ place. place < length files.now) }
{
    files.iter().position(|file| file.0.as_str() == name)
}

/// Makes a name hold a copy of the bytes: its first pair gets it, or a new pair comes last.
fn store(files: &mut Vec<(String, Vec<u8>)>, name: &str, bytes: &[u8]) -> Result<(), AllocError>
    ensures stored { OnOk result (held files.new.items ≡ with_file (held files.old.items) name.now bytes.now) }
    ensures kept { OnErr result (files.new.items ≡ files.old.items) }
{
    let alloc = *files.allocator();
    let copy = bytes.to_vec(alloc)?;
    match place_of(files.as_slice(), name) {
        Some(place) => files[place].1 = copy,
        None => files.push((String::from_str(alloc, name)?, copy))?,
    }
    Ok(())
}

impl Files for MemFiles {
    ghost read_faults = { λ files _. files.read_faults };

    ghost write_faults = { λ files _. files.write_faults };

    ghost holds = { λ files. Some (held files.files.items) };

    /// Fails exactly where the call is to fail or the name isn't there. After `NoMemory` nothing
    /// changed.
    fn read_all(&mut self, name: &str, limit: usize, into: &mut Vec<u8>) -> Result<(), FileAnswer>
        requires { into.old.items ≡ [] }
        ensures never_falls { (n : List ℕ) → self.old.read_faults ≤ self.new.read_faults }
        ensures writes { of_every_name self.new.write_faults ≡ of_every_name self.old.write_faults }
        ensures kept { Some (held self.new.files.items) ≡ Some (held self.old.files.items) }
        ensures answer { ReadAll result (Some (held self.old.files.items)) name.now limit into.new.items
            (λ _. self.old.read_faults) (λ _. self.new.read_faults) }
        ensures exact { IsReading result
            (reading_of (is_to_fail self.old.fail.items self.old.calls) (held self.old.files.items name.now) limit) }
        ensures bytes { into.new.items ≡ bytes_read result (held self.old.files.items name.now) limit }
        ensures plan { self.new.fail.items ≡ self.old.fail.items }
        ensures calls { self.new.calls ≡ calls_after_read result self.old.calls }
        ensures faults { self.new.read_faults ≡ read_faults_after result self.old.read_faults }
    {
        let answer = self.answer(name, limit, into);
        if answer != Err(FileAnswer::NoMemory) {
            self.calls = self.calls.saturating_add(1);
        }
        if answer == Err(FileAnswer::Failed) {
            self.read_faults = self.read_faults.saturating_add(1);
        }
        answer
    }

    /// Fails exactly where the call is to fail, and then changes nothing but the counts. After
    /// `NoMemory` nothing changed.
    fn write_all(&mut self, name: &str, bytes: &[u8]) -> Result<(), WriteAnswer>
        ensures never_falls { (n : List ℕ) → self.old.write_faults ≤ self.new.write_faults }
        ensures reads { of_every_name self.new.read_faults ≡ of_every_name self.old.read_faults }
        ensures answer { WriteAll result (Some (held self.old.files.items)) (Some (held self.new.files.items))
            name.now bytes.now (λ _. self.old.write_faults) (λ _. self.new.write_faults) }
        ensures exact { IsWriting result (is_to_fail self.old.fail.items self.old.calls) }
        ensures contents { held self.new.files.items ≡ held_after result (held self.old.files.items) name.now bytes.now }
        ensures plan { self.new.fail.items ≡ self.old.fail.items }
        ensures calls { self.new.calls ≡ calls_after_write result self.old.calls }
        ensures faults { self.new.write_faults ≡ write_faults_after result self.old.write_faults }
    {
        if self.fail.contains(&self.calls) {
            self.calls = self.calls.saturating_add(1);
            self.write_faults = self.write_faults.saturating_add(1);
            return Err(WriteAnswer::Failed);
        }
        store(&mut self.files, name, bytes)?;
        self.calls = self.calls.saturating_add(1);
        Ok(())
    }
}
