//! A call over files and a stream in memory, and what is seen of it.

use sim_base::{NoMemory, Text};
use sim_outside::{MemFiles, MemSink};
use sim_top::execute_alone;
use std::alloc::{AllocError, Global};

/// How many bytes a stream has room for that isn't full.
pub const ROOM: usize = 65_536;

/// A call, before it is made.
#[derive(Drop)]
pub struct Call {
    pub files: Vec<(String, Vec<u8>)>,
    pub words: Vec<Text>,
    /// How many bytes the stream takes at once.
    pub most: usize,
}

/// What is seen of a call.
#[derive(Drop)]
pub struct Seen {
    pub status: u8,
    /// How many events the journal has.
    pub events: u64,
    /// What the stream took.
    pub taken: Vec<u8>,
    /// What the files hold afterwards.
    pub files: Vec<(String, Vec<u8>)>,
    /// How many calls there were on the files.
    pub calls: u64,
    /// How many calls there were on the stream.
    pub puts: u64,
}

impl Call {
    /// Makes the call, where these calls on the files and on the stream fail, and the stream has so much room.
    pub fn make(
        &self,
        alloc: Global,
        files_fail: &[u64],
        puts_fail: &[u64],
        room: usize,
    ) -> Result<Seen, NoMemory> {
        let mut files = MemFiles {
            files: copy(alloc, &self.files)?,
            fail: files_fail.to_vec(alloc)?,
            calls: 0,
            read_faults: 0,
            write_faults: 0,
        };
        let mut out = MemSink::new(alloc, room, self.most, puts_fail.to_vec(alloc)?)?;
        let finish = execute_alone(alloc, self.words.as_slice(), &mut files, &mut out);
        Ok(Seen {
            status: finish.status,
            events: finish.journal.count(),
            taken: out.taken,
            files: files.files,
            calls: files.calls,
            puts: out.calls,
        })
    }
}

/// A copy of files.
pub fn copy(
    alloc: Global,
    files: &Vec<(String, Vec<u8>)>,
) -> Result<Vec<(String, Vec<u8>)>, AllocError> {
    let mut copies = Vec::new(alloc);
    for (name, bytes) in files {
        let name = String::from_str(alloc, name.as_str())?;
        copies.push((name, bytes.as_slice().to_vec(alloc)?))?;
    }
    Ok(copies)
}

/// Whether files have the same names, in order, and hold the same.
pub fn are_same(files: &[(String, Vec<u8>)], others: &[(String, Vec<u8>)]) -> bool {
    let mut is_same = files.len() == others.len();
    for (file, other) in files.iter().zip(others.iter()) {
        if file.0.as_str() != other.0.as_str() || file.1.as_slice() != other.1.as_slice() {
            is_same = false;
        }
    }
    is_same
}

/// The words of a command line.
pub fn words_of(alloc: Global, line: &str) -> Result<Vec<Text>, NoMemory> {
    let mut words = Vec::new(alloc);
    for word in line.split_ascii_whitespace() {
        words.push(Text::new(alloc, word)?)?;
    }
    Ok(words)
}

/// The file of a line: its name, and its bytes to the base 16.
pub fn file_of(alloc: Global, line: &str) -> Result<(String, Vec<u8>), AllocError> {
    let (name, digits) = line.split_once(' ').unwrap_or((line, ""));
    let mut bytes = Vec::new(alloc);
    for pair in digits.as_bytes().chunks(2) {
        if let [high, low] = pair {
            bytes.push(digit(*high) << 4 | digit(*low))?;
        }
    }
    Ok((String::from_str(alloc, name)?, bytes))
}

/// The value of a digit to the base 16.
fn digit(letter: u8) -> u8 {
    match letter {
        b'0'..=b'9' => letter - b'0',
        b'a'..=b'f' => letter - b'a' + 10,
        _ => 0,
    }
}

/// A number in decimal digits; 0 where it is none.
pub fn number(word: &str) -> u64 {
    word.parse::<u64>().unwrap_or(0)
}
