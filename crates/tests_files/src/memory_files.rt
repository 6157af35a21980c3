//! Files in memory, of which something gets another's name, or is taken away, at a call of a number.
ghost use Rattle.std.specs.Prelude.{◌≡◌, ◌<◌, ◌≤◌, length, IfOk};

use hv_files::{Cause, Change, FileFault, Part, Stand, System};
use std::alloc::Global;
use std::mem;

/// The name of what was taken away, which nobody asks for.
const GONE: &str = "gone";

/// What stands, or stood, at a path: a folder, or a file of these bytes. It is known by its place among
/// all that were ever made.
#[derive(Drop)]
struct Node {
    path: String,
    kind: Stand,
    bytes: Vec<u8>,
}

#[derive(Drop)]
pub struct MemoryFiles<'a> {
    alloc: Global,
    nodes: Vec<Node>,
    held: [Option<usize>; 4],
    /// The path that was asked for last, by its names then, and what stood there.
    by: String,
    found: Option<usize>,
    /// Which names others get, as `FROM>TO,FROM>TO`; where there are none, the run is killed: no later call
    /// does anything.
    moves: &'a str,
    /// How many calls come before that happens, counted from the first after the first opening.
    left: u64,
    begun: bool,
    /// Whether that call was reached, and whether something happened there.
    pub reached: bool,
    pub happened: bool,
}

fn number(part: Part) -> usize
    ensures { result < 4 }
{
    match part {
        Part::Folder => 0,
        Part::Tables => 1,
        Part::Lock => 2,
        Part::Journal => 3,
    }
}

/// What of a path stands behind a folder's, with the slash; nothing where it is the folder's own.
fn behind<'a>(path: &'a str, folder: &str) -> Option<&'a str> {
    match path.strip_prefix(folder) {
        Some(rest) if rest.is_empty() || rest.starts_with('/') => Some(rest),
        _ => None,
    }
}

/// Gives what stands at a path, and all below it, another name. Whether anything stood there.
fn rename(alloc: Global, nodes: &mut Vec<Node>, from: &str, to: &str) -> Result<bool, FileFault> {
    let mut found = false;
    for node in nodes.iter_mut() {
        if let Some(rest) = behind(node.path.as_str(), from) {
            let path = format!(in alloc; "{to}{rest}")?;
            node.path = path;
            found = true;
        }
    }
    Ok(found)
}

impl<'a> MemoryFiles<'a> {
    /// Nothing stands, and these moves come behind so many calls.
    pub fn new(alloc: Global, moves: &'a str, left: u64) -> MemoryFiles<'a> {
        MemoryFiles {
            alloc,
            nodes: Vec::new(alloc),
            held: [None; 4],
            by: String::new(alloc),
            found: None,
            moves,
            left,
            begun: false,
            reached: false,
            happened: false,
        }
    }

    /// Makes what a text names, each behind these words: `FOLDER/`, or `FILE=BYTES`, of which `~` is one
    /// byte 0.
    pub fn fill(&mut self, begin: &str, text: &str) -> Result<(), FileFault> {
        for name in text.split(' ') {
            if !name.is_empty() {
                self.fill_one(begin, name)?;
            }
        }
        Ok(())
    }

    fn fill_one(&mut self, begin: &str, name: &str) -> Result<usize, FileFault> {
        let (path, kind, bytes) = match name.strip_suffix('/') {
            Some(folder) => (folder, Stand::Folder, ""),
            None => {
                let (file, bytes) = name.rsplit_once('=').unwrap_or((name, ""));
                (file, Stand::File, if bytes == "~" { "\0" } else { bytes })
            }
        };
        self.by = format!(in self.alloc; "{begin}{path}")?;
        self.add(kind, bytes.as_bytes())
    }

    /// All that stands below a folder, as `fill` reads it.
    pub fn print(&self, out: &mut String, folder: &str) -> Result<(), FileFault> {
        for node in &self.nodes {
            if let Some(rest) = behind(node.path.as_str(), folder) {
                let mark = if matches!(node.kind, Stand::Folder) {
                    "/"
                } else {
                    "="
                };
                let bytes = str::from_utf8(&node.bytes).unwrap_or("bytes");
                write!(out, "{rest}{mark}{bytes} ")?;
            }
        }
        Ok(())
    }

    /// Whether the run is killed, where something happens.
    pub fn is_killed(&self) -> bool {
        self.moves.is_empty()
    }

    /// Makes a folder, or a file, at the path that was asked for last. Its place.
    fn add(&mut self, kind: Stand, bytes: &[u8]) -> Result<usize, FileFault> {
        let bytes = Vec::from_slice(self.alloc, bytes)?;
        let path = mem::replace(&mut self.by, String::new(self.alloc));
        let place = self.nodes.len();
        self.nodes.push(Node { path, kind, bytes })?;
        Ok(place)
    }

    fn bytes(&self, place: Option<usize>) -> &[u8] {
        match self.nodes.get(place.unwrap_or(usize::MAX)) {
            Some(node) => node.bytes.as_slice(),
            None => &[],
        }
    }

    /// The path by its names now of a part that is held, and what of a path stands behind that part's name
    /// at first.
    fn through<'b>(&'b self, part: Part, name: &str, path: &'b str) -> Option<(&'b str, &'b str)> {
        let node = self.nodes.get(self.held[number(part)]?)?;
        match path.strip_prefix(name) {
            Some(rest) if rest.starts_with('/') => Some((node.path.as_str(), rest)),
            _ => None,
        }
    }

    /// The path by its names now: one that leads through a folder that is held begins there.
    fn taken(&self, path: &str) -> Result<String, FileFault> {
        let (begin, rest) = match self.through(Part::Tables, "wh/tables", path) {
            Some(found) => found,
            None => self.through(Part::Folder, "wh", path).unwrap_or(("", path)),
        };
        Ok(format!(in self.alloc; "{begin}{rest}")?)
    }

    fn happen(&mut self) -> Result<(), FileFault> {
        self.reached = true;
        self.happened = self.moves.is_empty();
        for pair in self.moves.split(',') {
            if let Some((from, to)) = pair.split_once('>') {
                self.happened = rename(self.alloc, &mut self.nodes, from, to)?;
            }
        }
        Ok(())
    }

    /// Counts a call, before which something may happen.
    fn count(&mut self) -> Result<(), FileFault> {
        if self.begun && !self.reached {
            if self.left == 0 {
                self.happen()?;
            } else {
                self.left -= 1;
            }
        }
        if self.reached && self.moves.is_empty() {
            return Err(FileFault::Device(Cause::Other));
        }
        Ok(())
    }

    /// What stands at the path that was asked for last.
    fn find(&mut self) -> Stand {
        self.found = None;
        for (place, node) in self.nodes.iter().enumerate() {
            if node.path.as_str() == self.by.as_str() {
                self.found = Some(place);
                return node.kind;
            }
        }
        Stand::Nothing
    }

    /// Counts a call, and says what stands at its path.
    fn call(&mut self, path: &str) -> Result<Stand, FileFault> {
        self.count()?;
        self.by = self.taken(path)?;
        Ok(self.find())
    }

    /// A call for a folder, or a file. Whether something stands at its path; it fails where that is no such
    /// thing.
    fn stands(&mut self, path: &str, is_folder: bool) -> Result<bool, FileFault> {
        match (self.call(path)?, is_folder) {
            (Stand::Nothing, _) => Ok(false),
            (Stand::Folder, true) | (Stand::File, false) => Ok(true),
            (_, true) => Err(FileFault::Device(Cause::NotAFolder)),
            (_, false) => Err(FileFault::Device(Cause::NotAFile)),
        }
    }

    /// Gives what stands at the path that was asked for last another name, in the place of what has it.
    fn give(&mut self, to: &str) -> Result<(), FileFault> {
        let to = self.taken(to)?;
        rename(self.alloc, &mut self.nodes, to.as_str(), GONE)?;
        rename(self.alloc, &mut self.nodes, self.by.as_str(), to.as_str())?;
        Ok(())
    }

    /// Appends the names in the folder that was asked for last.
    fn push_names(&self, alloc: Global, names: &mut Vec<String>) -> Result<(), FileFault> {
        for node in &self.nodes {
            match node.path.rsplit_once('/') {
                Some((folder, name)) if folder == self.by.as_str() => {
                    names.push(String::from_str(alloc, name)?)?
                }
                _ => {}
            }
        }
        Ok(())
    }
}

impl System for MemoryFiles<'_> {
    ghost did = { λ _ _. Unit {0} };

    ghost changes = { λ _. 0 };

    fn open(&mut self, part: Part, path: &str) -> Result<bool, FileFault> {
        let is_folder = matches!(part, Part::Folder | Part::Tables);
        let stands = self.stands(path, is_folder)?;
        if matches!(part, Part::Folder) {
            self.begun = true;
        }
        if stands {
            self.held[number(part)] = self.found;
        }
        Ok(stands)
    }

    fn make_file(&mut self, part: Part, path: &str) -> Result<(), FileFault> {
        if !matches!(self.call(path)?, Stand::Nothing) {
            return Err(FileFault::Device(Cause::InUse));
        }
        let place = self.add(Stand::File, &[])?;
        self.held[number(part)] = Some(place);
        Ok(())
    }

    fn holds(&self, part: Part) -> bool {
        self.held[number(part)].is_some()
    }

    fn is_at(&mut self, part: Part, path: &str) -> Result<bool, FileFault> {
        self.call(path)?;
        Ok(self.found == self.held[number(part)])
    }

    fn journal_len(&mut self) -> Result<u64, FileFault> {
        self.count()?;
        Ok(self.bytes(self.held[3]).len() as u64)
    }

    fn journal_read(&mut self, at: u64, out: &mut [u8]) -> Result<usize, FileFault> {
        self.count()?;
        let rest = self.bytes(self.held[3]).get(at as usize..).unwrap_or(&[]);
        let count = rest.len().min(out.len());
        out[..count].copy_from_slice(&rest[..count]);
        Ok(count)
    }

    fn journal_write(&mut self, at: u64, bytes: &[u8]) -> Result<(), FileFault> {
        self.count()?;
        let place = self.held[3].unwrap_or(usize::MAX);
        let Some(node) = self.nodes.get_mut(place) else {
            return Err(FileFault::Device(Cause::Other));
        };
        node.bytes.truncate(at as usize);
        node.bytes.extend_from_slice(bytes)?;
        Ok(())
    }

    fn journal_sync(&mut self) -> Result<(), FileFault> {
        self.count()
    }

    fn stand(&mut self, path: &str) -> Result<Stand, FileFault> {
        let found = self.call(path)?;
        // The folder in which all this stands.
        Ok(if path == "./." { Stand::Folder } else { found })
    }

    fn change(&mut self, kind: Change, path: &str, to: &str) -> Result<bool, FileFault> {
        let is_there = !matches!(self.call(path)?, Stand::Nothing);
        if matches!(kind, Change::MakeFolder) {
            if !is_there {
                self.add(Stand::Folder, &[])?;
            }
            return Ok(!is_there);
        }
        if is_there {
            self.give(if matches!(kind, Change::Rename) {
                to
            } else {
                GONE
            })?;
        }
        Ok(is_there)
    }

    fn sync_folder(&mut self, _path: &str) -> Result<(), FileFault> {
        self.count()
    }

    fn write_new(&mut self, path: &str, bytes: &[u8]) -> Result<(), FileFault> {
        self.call(path)?;
        rename(self.alloc, &mut self.nodes, self.by.as_str(), GONE)?;
        self.add(Stand::File, bytes).and(Ok(()))
    }

    fn names_in(&mut self, alloc: Global, path: &str) -> Result<Option<Vec<String>>, FileFault> {
        if !self.stands(path, true)? {
            return Ok(None);
        }
        let mut names = Vec::new(alloc);
        self.push_names(alloc, &mut names)?;
        Ok(Some(names))
    }

    fn read(&mut self, alloc: Global, path: &str) -> Result<Option<Vec<u8>>, FileFault> {
        if !self.stands(path, false)? {
            return Ok(None);
        }
        Ok(Some(Vec::from_slice(alloc, self.bytes(self.found))?))
    }
}
