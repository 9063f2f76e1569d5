//! Files that will be asked for are read before, by several threads: opening a file, and waiting for it, takes longer than what is done
//! with a small one. A file that is large and alone is read by all of them.
ghost use Rattle.std.specs.Prelude.{◌<◌, ◌≤◌, ◌^◌, All, length};

use crate::host_files::HostFiles;
use host_outside::{LEAST_LARGE, Loaded, ReadAhead, read_large};
use link_words::{Plan, read_words};
use std::alloc::Global;
use std::thread;
use std::thread::Threads;
use wl_base::{OutOfMemory, Text};
use wl_fan::Workers;

// So many bytes, and so many for each file, are read by the caller's thread before others are worth it.
const LEAST_WORK: usize = 1 << 20;

const FILE_WORK: usize = 1 << 12;

/// A file that will be asked for.
#[derive(Drop)]
struct Foreseen {
    name: Text,
    loaded: Option<Loaded>,
}

impl Foreseen {
    // What reading it took, in bytes.
    fn work(&self) -> usize {
        match &self.loaded {
            Some(Ok(bytes)) => bytes.len().saturating_add(FILE_WORK),
            Some(Err(_)) | None => FILE_WORK,
        }
    }
}

/// The files that will be asked for, in this order.
#[derive(Drop)]
pub struct Ahead {
    alloc: Global,
    files: Vec<Foreseen>,
    next: usize,
}

// Reads files in order until that was some work, and answers how many. Large ones are left unread.
fn read_first<R: HostFiles>(
    rt: &R,
    alloc: Global,
    files: &mut [Foreseen],
    least_large: u64,
) -> usize
    ensures { result ≤ length files.new }
{
    let mut left = LEAST_WORK;
    let mut piece = Vec::new(alloc);
    for at in 0..files.len() {
        let loaded = rt.read_shorter(alloc, files[at].name.as_str(), &mut piece, least_large);
        files[at].loaded = loaded;
        let work = files[at].work();
        if work >= left {
            return at + 1;
        }
        left -= work;
    }
    files.len()
}

// Reads those of the files that are unread, each worker as many of the list. Large ones are left unread.
fn read_rest<R: HostFiles + Threads>(
    rt: &R,
    alloc: Global,
    files: &mut [Foreseen],
    workers: Workers,
    least_large: u64,
) {
    let size = files.len() / workers.count() as usize + 1;
    thread::for_each_chunk_mut(
        rt,
        files,
        size,
        &|_, part| {
            let mut piece = Vec::new(alloc);
            for at in 0..part.len() {
                if part[at].loaded.is_none() {
                    let loaded = rt.read_shorter(
                        alloc,
                        part[at].name.as_str(),
                        &mut piece,
                        least_large,
                    );
                    part[at].loaded = loaded;
                }
            }
        },
    );
}

// Reads a large file, all workers together. What can't be read so stays unread.
fn read_by_all<R: HostFiles + Threads>(
    rt: &R,
    alloc: Global,
    left: &mut Foreseen,
    workers: Workers,
) {
    if let Some(file) = rt.open_file(left.name.as_str()) {
        if let Some(bytes) = read_large(rt, alloc, &file, workers) {
            left.loaded = Some(Ok(bytes));
        }
    }
}

// The place of the first file that is unread, or behind the last.
fn first_unread(files: &[Foreseen]) -> usize
    ensures { result ≤ length files.now }
{
    for at in 0..files.len() {
        if files[at].loaded.is_none() {
            return at;
        }
    }
    files.len()
}

// How many of the files are unread.
fn count_unread(files: &[Foreseen]) -> usize {
    let mut count: usize = 0;
    for at in 0..files.len() {
        if files[at].loaded.is_none() {
            count = count.saturating_add(1);
        }
    }
    count
}

// Reads the files that were left: one by all workers, and several each by one, since fresh memory comes to each thread by itself.
fn read_left<R: HostFiles + Threads>(
    rt: &R,
    alloc: Global,
    files: &mut [Foreseen],
    workers: Workers,
) {
    let count = count_unread(files);
    let first = first_unread(files);
    if count > 1 {
        read_rest(rt, alloc, &mut files[first..], workers, u64::MAX);
    } else if first < files.len() {
        read_by_all(rt, alloc, &mut files[first], workers);
    }
}

// From how many bytes on a file is left to all workers.
fn least_large(workers: Workers) -> u64 {
    if workers.count() == 1 {
        u64::MAX
    } else {
        LEAST_LARGE
    }
}

impl Ahead {
    /// No file is foreseen.
    pub fn nothing(alloc: Global) -> Self {
        Ahead {
            alloc,
            files: Vec::new(alloc),
            next: 0,
        }
    }

    /// The inputs of a plan, none of which is read.
    fn unread(alloc: Global, plan: &Plan, words: &[Text]) -> Result<Self, OutOfMemory>
        requires { All (λ i. i.place < length words.now) plan.now.inputs }
    {
        let inputs = plan.inputs.as_slice();
        let mut files = Vec::with_capacity(alloc, inputs.len())?;
        for input in inputs {
            files.push(Foreseen {
                name: Text::new(alloc, words[input.place as usize].as_str())?,
                loaded: None,
            })?;
        }
        Ok(Ahead {
            alloc,
            files,
            next: 0,
        })
    }

    /// The inputs of the words, read by as many workers as these ask for. Nothing is foreseen where the words have no plan, or memory for
    /// names is refused.
    pub fn of_words<R: HostFiles + Threads>(rt: &R, alloc: Global, words: &[Text]) -> Self
        requires { length words.now < 2 ^ 32 }
    {
        let Ok(plan) = read_words(alloc, words) else {
            return Ahead::nothing(alloc);
        };
        let Ok(mut ahead) = Ahead::unread(alloc, &plan, words) else {
            return Ahead::nothing(alloc);
        };
        let Some(workers) = Workers::new(plan.threads) else {
            return ahead;
        };
        let files = ahead.files.as_mut_slice();
        let least_large = least_large(workers);
        let first = read_first(rt, alloc, files, least_large);
        read_rest(rt, alloc, &mut files[first..], workers, least_large);
        read_left(rt, alloc, files, workers);
        ahead
    }
}

impl ReadAhead for Ahead {
    fn take(&mut self, name: &str) -> Option<Loaded> {
        let next = self.next;
        if next >= self.files.len() || self.files[next].name.as_str() != name {
            return None;
        }
        let loaded = self.files[next].loaded.take();
        if next + 1 == self.files.len() {
            *self = Ahead::nothing(self.alloc);
        } else {
            self.next = next + 1;
        }
        loaded
    }
}
