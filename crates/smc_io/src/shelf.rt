//! Files in memory, of which one may be open.
ghost use Rattle.std.specs.Prelude.{◌≡◌, ◌↔◌, ◌<◌, ◌+◌, ◌^◌, None, Some, IsTrue, min, length, take, drop, string_bytes, slice_index_or, []};
ghost use Rattle.smc_io.specs.Files.{HasFile, bytes_at, names_and_bytes};
ghost use Rattle.smc_io.specs.Counts.{risen};
ghost use Rattle.smc_io.specs.Memory.{IsNumberOf};

use std::marker::Model;

/// Files in memory, the number of the one that is open, how much of it was read, and what was opened.
#[derive(Drop)]
pub struct Shelf {
    files: Vec<(String, Vec<u8>)>,
    file: Option<usize>,
    place: usize,
    opened: Option<String>,
    opens: u64,
}

impl Model for Shelf {
    ghost use Rattle.std.specs.Prelude.{option_map, string_bytes};
    ghost use Rattle.smc_io.specs.Files.{names_and_bytes};
    ghost use Rattle.smc_io.specs.Memory.{Shelved, left_of};

    ghost Value = { Shelved };

    ghost view = { λ s. record {
      files = names_and_bytes s.files.items;
      rest = left_of (names_and_bytes s.files.items) s.file s.place;
      opened = option_map (λ name. string_bytes name) s.opened;
      opens = s.opens;
    } };
}

impl Shelf {
    pub fn new(files: Vec<(String, Vec<u8>)>) -> Shelf
        ensures files { result.files ≡ names_and_bytes files.items }
        ensures rest { result.rest ≡ [] }
        ensures opened { result.opened ≡ None }
        ensures opens { result.opens ≡ 0 }
    {
        Shelf {
            files,
            file: None,
            place: 0,
            opened: None,
            opens: 0,
        }
    }

    /// Whether there is a file of this name.
    pub fn has(&self, name: &str) -> bool
        ensures { IsTrue result ↔ HasFile self.now.files name.now }
    {
        number_of(&self.files, name).is_some()
    }

    /// Keeps the name and counts the open, and changes nothing else.
    pub fn keep_name(&mut self, name: String)
        ensures files { self.new.files ≡ self.old.files }
        ensures rest { self.new.rest ≡ self.old.rest }
        ensures opened { self.new.opened ≡ Some (string_bytes name) }
        ensures opens { self.new.opens ≡ risen self.old.opens }
    {
        self.opened = Some(name);
        self.opens = self.opens.saturating_add(1);
    }

    /// Opens the first file of this name, or an empty one where there is none.
    pub fn open(&mut self, name: String)
        ensures files { self.new.files ≡ self.old.files }
        ensures rest { self.new.rest ≡ bytes_at self.old.files (string_bytes name) }
        ensures opened { self.new.opened ≡ Some (string_bytes name) }
        ensures opens { self.new.opens ≡ risen self.old.opens }
    {
        self.file = number_of(&self.files, name.as_str());
        self.place = 0;
        self.keep_name(name);
    }

    /// Reads the next bytes of the opened file, as many as there are and fit.
    pub fn read(&mut self, into: &mut [u8]) -> usize
        ensures count { result ≡ min (length self.old.rest) (length into.old) }
        ensures bytes { take result into.new ≡ take result self.old.rest }
        ensures files { self.new.files ≡ self.old.files }
        ensures rest { self.new.rest ≡ drop result self.old.rest }
        ensures opened { self.new.opened ≡ self.old.opened }
        ensures opens { self.new.opens ≡ self.old.opens }
    {
        let Some(file) = self.file else {
            return 0;
        };
        let count = copy_front(bytes_from(&self.files, file, self.place), into);
        self.place += count;
        count
    }
}

/// The number of the first file of this name.
fn number_of(files: &[(String, Vec<u8>)], name: &str) -> Option<usize>
    ensures { IsNumberOf (names_and_bytes files.now) name.now result }
{
    for (number, file) in files.iter().enumerate() {
        if name == file.0.as_str() {
            return Some(number);
        }
    }
    None
}

/// The bytes of the file of this number from a place on.
fn bytes_from(files: &[(String, Vec<u8>)], file: usize, place: usize) -> &[u8]
    ensures bytes { result.now ≡ drop place (slice_index_or (names_and_bytes files.now) file ([], [])).1 }
    ensures room { place + length result.now < 2 ^ 64 }
{
    match files.get(file) {
        Some((_, bytes)) => bytes.get(place..).unwrap_or(&[]),
        None => &[],
    }
}

/// Copies as many bytes as fit from the front of one slice to the front of another.
fn copy_front(from: &[u8], into: &mut [u8]) -> usize
    ensures count { result ≡ min (length from.now) (length into.old) }
    ensures bytes { take result into.new ≡ take result from.now }
{
    let count = from.len().min(into.len());
    into[..count].copy_from_slice(&from[..count]);
    count
}
